// The value of the option among words, and the other words.
ghost use Rattle.std.specs.Prelude.{◌≡◌, None, Some, false, IfOk, IsErrOf, map, option_copied};
ghost use Rattle.std.specs.Prelude.{string_bytes};
ghost use Rattle.clap.specs.Words.{app_of, found_of, rows_of};
ghost use Rattle.option_words.specs.Words.{parts_of};
ghost use Rattle.option_words.specs.Reads.{Gives, parts_seen};
ghost use Rattle.option_words.specs.steps.Apps.{app, fault_by, parts_in};
ghost use Rattle.option_words.specs.steps.LoneHyphens.{has_single};

use crate::fault::WordFault;
use clap::error::ErrorKind;
use clap::{Arg, ArgAction, ArgMatches, Command};
use std::alloc::{AllocError, Global};

/// What words say: the value of the option, and the other words.
#[derive(Debug, Drop)]
pub struct Parts<'a> {
    /// The value of the option; `None` where the option is not among the words.
    pub value: Option<&'a str>,
    /// The words that are neither the option nor its value nor the mark `--`, in their order.
    pub words: Vec<&'a str>,
}

/// A word before `--` begins with one hyphen alone.
fn has_single(words: &[String]) -> bool
    ensures { result ≡ has_single (map string_bytes words.now) }
{
    let mut rest = words;
    while let [word, after @ ..] = rest {
        match word.as_bytes() {
            [b'-', b'-'] => return false,
            [b'-', b'-', ..] => {}
            [b'-', ..] => return true,
            _ => {}
        }
        rest = after;
    }
    false
}

/// The command by which clap reads the words.
fn command<'a>(alloc: Global, option: Option<&'a str>) -> Result<Command<'a>, AllocError>
    ensures { IfOk result (λ c. app_of c ≡ app (option_copied option.entry)) }
{
    let words = Arg::new(alloc, "words").action(ArgAction::Append);
    let command = Command::new(alloc, "gafd")
        .no_binary_name(true)
        .disable_help_flag(true)
        .arg(words)?;
    match option {
        Some(name) => command.arg(Arg::new(alloc, "value").long(name)),
        None => Ok(command),
    }
}

/// The other words that clap matched.
fn words_in<'a>(alloc: Global, matches: &ArgMatches<'a>) -> Result<Vec<&'a str>, AllocError>
    ensures { IfOk result (λ words. map (λ s. s.now) words.items
        ≡ (parts_in (rows_of (found_of matches.now))).words) }
{
    match matches.get_strs("words") {
        Some(words) => words.to_vec(alloc),
        None => Ok(Vec::new(alloc)),
    }
}

/// What clap matched.
fn parts_in<'a>(alloc: Global, matches: &ArgMatches<'a>) -> Result<Parts<'a>, AllocError>
    ensures { IfOk result (λ parts. parts_seen parts ≡ parts_in (rows_of (found_of matches.now))) }
{
    let value = matches.get_str("value");
    let words = words_in(alloc, matches)?;
    Ok(Parts { value, words })
}

/// The fault of a kind of clap's errors.
fn fault_by(kind: ErrorKind) -> WordFault
    ensures { result ≡ fault_by kind }
{
    match kind {
        ErrorKind::OutOfMemory => WordFault::NoMemory,
        _ => WordFault::Usage,
    }
}

/// What clap matches in words of which none begins with one hyphen alone.
fn matches_of<'a>(
    alloc: Global,
    option: Option<&'a str>,
    words: &'a [String],
) -> Result<ArgMatches<'a>, WordFault>
    requires { has_single (map string_bytes words.now) ≡ false }
    ensures read { IfOk result (λ m.
        parts_of (option_copied option.entry) (map string_bytes words.now)
        ≡ Some (parts_in (rows_of (found_of m)))) }
    ensures refused { IsErrOf result WordFault.Usage →
        parts_of (option_copied option.entry) (map string_bytes words.now) ≡ None }
{
    let command = command(alloc, option)?;
    match command.try_get_matches_from(words) {
        Ok(matches) => Ok(matches),
        Err(error) => Err(fault_by(error.kind())),
    }
}

/// What the words after a command say, whose one option has this name (without its two hyphens), or
/// which has none.
///
/// The words are read from left to right by clap. The option stands anywhere before the word `--`,
/// once, as `--NAME VALUE` or as `--NAME=VALUE`; behind `--` all are words. A VALUE that begins
/// with a hyphen is taken with `=` alone. `Usage` exactly where the words say nothing: another word
/// before `--` begins with a hyphen, or the option stands twice or without its value
/// (docs/FORMATS.md, "Command lines").
pub fn read_parts<'a>(
    alloc: Global,
    option: Option<&'a str>,
    words: &'a [String],
) -> Result<Parts<'a>, WordFault>
    ensures read { Gives parts_seen result
        (parts_of (option_copied option.entry) (map string_bytes words.now)) }
{
    // Clap takes the word `-` for a value, and looks into `-x` for flags.
    if has_single(words) {
        return Err(WordFault::Usage);
    }
    let matches = matches_of(alloc, option, words)?;
    Ok(parts_in(alloc, &matches)?)
}
