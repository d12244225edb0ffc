// Histories of entries, and what a desk says of each.
ghost use Rattle.std.specs.Prelude.{◌≡◌};
ghost use Rattle.edit_rules.specs.Verdicts.{verdict};
ghost use Rattle.edit_rules.specs.declared.verdict.Verdict.TheVariants.{Accept};

use case_tables::{CaseFault, TableFiles, number_of, text_in};
use edit_desk::Desk;
use edit_entries::Entry;
use edit_rules::Verdict;
use http_lines::{entry_of, last_lines};
use project_model::Change;
use std::alloc::{AllocError, Global};

/// Takes an accepted entry, and puts its serial and the first id that was free before it.
fn accept(
    alloc: Global,
    out: &mut String,
    desk: &mut Desk,
    entry: Entry,
    change: Change,
) -> Result<(), AllocError>
    requires { verdict desk.old.history entry ≡ Accept change }
{
    desk.reserve(alloc, &change)?;
    let serial = desk.commit(entry, change);
    put_serial(out, desk, "Accept", serial)
}

fn put_serial(out: &mut String, desk: &Desk, word: &str, serial: u32) -> Result<(), AllocError> {
    match desk.first_id(serial) {
        Some(id) => writeln!(out, "> {word} {{ serial: {serial}, first_id: {id} }}"),
        None => writeln!(out, "> {word} {{ serial: {serial} }}"),
    }
}

/// Judges an entry, takes it where it is accepted, and puts the verdict.
fn take(alloc: Global, out: &mut String, desk: &mut Desk, entry: Entry) -> Result<(), AllocError> {
    match desk.judge(alloc, &entry)? {
        Verdict::Accept { change } => accept(alloc, out, desk, entry, change),
        Verdict::Repeat { serial } => {
            drop(entry);
            put_serial(out, desk, "Repeat", serial)
        }
        Verdict::Refused { fault } => {
            drop(entry);
            writeln!(out, "> {fault:?}")
        }
    }
}

/// Judges the entries of a file in their order. Answers the verdicts, a line each.
pub fn play(
    alloc: Global,
    desk: &mut Desk,
    file: &str,
    files: &TableFiles,
) -> Result<String, CaseFault> {
    let mut out = String::new(alloc);
    let text = text_in(alloc, files.find(file)?)?;
    for line in text.lines() {
        let entry = entry_of(alloc, line, files)?;
        take(alloc, &mut out, desk, entry)?;
    }
    Ok(out)
}

fn all_verdicts(alloc: Global, file: &str, files: &TableFiles) -> Result<String, CaseFault> {
    let mut desk = Desk::new(alloc);
    let text = play(alloc, &mut desk, file, files);
    drop(desk);
    text
}

/// The verdicts on the entries of a file, or so many at the end: `h`, `h last 2`.
pub fn verdicts(alloc: Global, words: &str, files: &TableFiles) -> Result<String, CaseFault> {
    match words.split_once(" last ") {
        None => all_verdicts(alloc, words, files),
        Some((file, count)) => {
            let text = all_verdicts(alloc, file, files)?;
            Ok(last_lines(alloc, text.as_str(), number_of(count)?)?)
        }
    }
}
