// The values of `--host` among the words behind `serve`, and the other words.
ghost use Rattle.std.specs.Prelude.{◌≡◌, OnOk, map, string_bytes};
ghost use Rattle.option_words.specs.Reads.{Gives};
ghost use Rattle.command_words.specs.HostWords.{hosts_apart, is_hyphened, no_words, with_any};
ghost use Rattle.command_words.specs.HostWords.{with_host, with_kept, word_taken, words_taken};

use option_words::WordFault;
use std::alloc::{AllocError, Global};
use std::marker::Model;

/// What the next word is.
#[derive(Clone, Copy, Debug, PartialEq, Eq)]
pub enum Next {
    /// An option, another word, or the mark `--`.
    Any,
    /// The value of `--host`.
    Host,
    /// The value of `--who`.
    Who,
    /// A word behind the mark `--`.
    Plain,
}

/// The values of `--host` among words, and the other words.
#[derive(Debug, Drop)]
pub struct HostWords {
    hosts: Vec<String>,
    words: Vec<String>,
    next: Next,
}

impl Model for HostWords {
    ghost use Rattle.std.specs.Prelude.{map};
    ghost use Rattle.std.specs.String.{string_bytes};
    ghost use Rattle.command_words.specs.HostWords.{HostWordsData};

    ghost Value = { HostWordsData };

    ghost view = { λ w. record {
      hosts = map string_bytes w.hosts.items;
      words = map string_bytes w.words.items;
      next = w.next;
    } };
}

/// Whether a word begins with a hyphen.
fn is_hyphened(word: &[u8]) -> bool
    ensures { result ≡ is_hyphened word.now }
{
    match word {
        [] => false,
        [first, ..] => *first == b'-',
    }
}

impl HostWords {
    fn new(alloc: Global) -> HostWords
        ensures { result ≡ no_words }
    {
        HostWords {
            hosts: Vec::new(alloc),
            words: Vec::new(alloc),
            next: Next::Any,
        }
    }

    /// One more value.
    fn push_host(&mut self, alloc: Global, value: &str) -> Result<(), AllocError>
        ensures { OnOk result (self.new ≡ with_host value.now self.old) }
    {
        self.hosts.push(String::from_str(alloc, value)?)?;
        self.next = Next::Any;
        Ok(())
    }

    /// One more of the other words, behind which this comes.
    fn push_other(&mut self, alloc: Global, word: &str, next: Next) -> Result<(), AllocError>
        ensures { OnOk result (self.new ≡ with_kept word.now next self.old) }
    {
        self.words.push(String::from_str(alloc, word)?)?;
        self.next = next;
        Ok(())
    }

    /// A word before `--` that is no value of an option.
    fn take_any(&mut self, alloc: Global, word: &str) -> Result<(), AllocError>
        ensures { OnOk result (self.new ≡ with_any word.now self.old) }
    {
        match word {
            "--" => self.push_other(alloc, word, Next::Plain),
            "--who" => self.push_other(alloc, word, Next::Who),
            "--host" => {
                self.next = Next::Host;
                Ok(())
            }
            word => match word.strip_prefix("--host=") {
                Some(value) => self.push_host(alloc, value),
                None => self.push_other(alloc, word, Next::Any),
            },
        }
    }

    /// One word more.
    fn take(&mut self, alloc: Global, word: &str) -> Result<(), WordFault>
        ensures { Gives (λ _. self.new) result (word_taken self.old.next self.old word.now) }
    {
        match self.next {
            Next::Host if is_hyphened(word.as_bytes()) => return Err(WordFault::Usage),
            Next::Host => self.push_host(alloc, word)?,
            Next::Who => self.push_other(alloc, word, Next::Any)?,
            Next::Plain => self.push_other(alloc, word, Next::Plain)?,
            Next::Any => self.take_any(alloc, word)?,
        }
        Ok(())
    }

    /// The values, and the other words. It takes no memory.
    pub fn into_parts(self) -> (Vec<String>, Vec<String>)
        ensures hosts { map string_bytes result.0.items ≡ self.hosts }
        ensures words { map string_bytes result.1.items ≡ self.words }
    {
        (self.hosts, self.words)
    }
}

/// The words one after the other.
fn words_taken(alloc: Global, words: &[String]) -> Result<HostWords, WordFault>
    ensures { Gives (λ found. found) result (words_taken no_words (map string_bytes words.now)) }
{
    let mut found = HostWords::new(alloc);
    for word in words {
        found.take(alloc, word.as_str())?;
    }
    Ok(found)
}

/// The values of `--host` among the words behind `serve`, and the other words.
///
/// The option stands anywhere before the word `--`, as often as wanted, as `--host VALUE` or as
/// `--host=VALUE`; a value that begins with a hyphen is taken with `=` alone. `Usage` exactly where
/// one is missing. What stands behind `--who` is one of the other words.
pub fn hosts_apart(alloc: Global, words: &[String]) -> Result<HostWords, WordFault>
    ensures { Gives (λ found. found) result (hosts_apart (map string_bytes words.now)) }
{
    let found = words_taken(alloc, words)?;
    if found.next == Next::Host {
        return Err(WordFault::Usage);
    }
    Ok(found)
}
