//! Computes again the cases of the tables that its arguments name, on an owner of a board over a
//! store in memory, and prints for each table how many cases there are, and each that came out
//! otherwise.
//!
//! The tables are in data/, with what each rule wants. A plan, which is a file of a table, has the
//! turn of each call of the store in a line: `answered`, or `unanswered` where no answer comes, and
//! behind `: ` what happens, as `taken, wrote 1 other, late 0, other`: another one takes the board;
//! it puts the row `other` under serial 1; the first transaction that was not answered is done;
//! something else is put. The question `first second by plan over old` has the board of the row
//! `old` taken, and two rows put. Rule: docs/RULES.md, "Boards on several machines".
#![tactic(auto)]

mod answers;
mod owners;
mod plans;

use std::rt::Files;
use std::{env, fs, io};

/// What there is to tell of the table at a path.
fn report_at<R: Files + AllocGlobal>(rt: &R, path: &str) -> io::Result<String> {
    let text = fs::read_to_string(rt, path)?;
    Ok(answers::table_report(rt.alloc(), path, text.as_str())?)
}

fn main(rt: HostRuntime) -> io::Result<()> {
    for argument in env::args(&rt)?.skip(1) {
        let report = report_at(&rt, argument.as_str())?;
        print!(rt; "{}", report.as_str())?;
    }
    Ok(())
}
