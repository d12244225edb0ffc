// A disk that stops at each of its calls in turn.
use crate::disks::Stop;
use crate::runs::{Outcome, put_and_stop};
use case_tables::{CaseFault, TableFiles, number_of};
use edit_entries::Entry;
use http_lines::entries_of;
use sqlite::Options;
use std::alloc::{AllocError, Global};
use std::collections::BTreeSet;

/// After so many calls it is given up that all rows are put.
const MOST_CALLS: u64 = 10_000;

/// So many pages are kept in memory: few, since they are made at each opening.
const CACHE_PAGES: usize = 16;

/// What was seen of all stops.
#[derive(Drop)]
struct Seen {
    /// How many rows were answered, where as many were there again, or one more.
    answered: BTreeSet<u32>,
    /// A line for each other outcome.
    wrong: String,
}

/// Whether the rows that were answered are there, and at most one more.
fn is_kept(outcome: Outcome) -> bool {
    match outcome.found {
        Some(found) => { found == outcome.answered || found == outcome.answered.saturating_add(1) }
        None => false,
    }
}

impl Seen {
    fn note(&mut self, stop: Stop, outcome: Outcome) -> Result<(), AllocError> {
        if is_kept(outcome) {
            self.answered.insert(outcome.answered)?;
            return Ok(());
        }
        writeln!(self.wrong, "> {stop:?} {outcome:?}")
    }

    fn into_lines(self, alloc: Global) -> Result<String, AllocError> {
        let mut lines = String::new(alloc);
        for count in self.answered.iter() {
            writeln!(lines, "> {count} answered, as many or one more there")?;
        }
        lines.push_str(self.wrong.as_str())?;
        Ok(lines)
    }
}

/// The stop of the log or of the database file behind so many calls.
fn stop_behind(calls: u64, is_of_log: bool, is_lossy: bool) -> Stop {
    let (log_calls, file_calls) = if is_of_log {
        (calls, u64::MAX)
    } else {
        (u64::MAX, calls)
    };
    Stop {
        log_calls,
        file_calls,
        is_lossy,
    }
}

/// Notes what comes of the stops of one of the disks, up to the number of calls behind which it
/// does not stop.
fn note_stops(
    alloc: Global,
    seen: &mut Seen,
    rows: &[Entry],
    options: Options,
    kind: (bool, bool),
) -> Result<(), CaseFault> {
    let (is_of_log, is_lossy) = kind;
    for calls in 0..MOST_CALLS {
        let stop = stop_behind(calls, is_of_log, is_lossy);
        let outcome = put_and_stop(alloc, rows, options, stop)?;
        seen.note(stop, outcome)?;
        if !outcome.has_stopped {
            return Ok(());
        }
    }
    Err(CaseFault::BadCase)
}

fn each_stop(alloc: Global, rows: &[Entry], options: Options) -> Result<String, CaseFault> {
    let mut seen = Seen {
        answered: BTreeSet::new(alloc),
        wrong: String::new(alloc),
    };
    for kind in [(true, true), (true, false), (false, true), (false, false)] {
        note_stops(alloc, &mut seen, rows, options, kind)?;
    }
    Ok(seen.into_lines(alloc)?)
}

/// How many rows of a file are answered, for each stop of the disks while they are put, where as
/// many are there again, or one more. The log is copied into the database file behind so many of
/// its pages: `rows behind 4 pages`.
pub fn answer(alloc: Global, words: &str, files: &TableFiles) -> Result<String, CaseFault> {
    let (file, rest) = words.split_once(" behind ").ok_or(CaseFault::BadCase)?;
    let pages = rest.strip_suffix(" pages").ok_or(CaseFault::BadCase)?;
    let mut options = Options::new(7);
    options.cache_pages = CACHE_PAGES;
    options.checkpoint_frames = number_of(pages)? as usize;
    let rows = entries_of(alloc, file, files)?;
    let told = each_stop(alloc, rows.as_slice(), options);
    drop(rows);
    told
}
