//! Computes again the cases of the tables that its arguments name, and prints for each table how
//! many cases there are, and each that came out otherwise.
//!
//! The tables are in data/, with what each rule wants; data/README.txt says how they are written.
//! The folder of a table says which crate works it out (src/tables.rt). Those of programs/ are
//! worked out here, by the whole program over what is in memory: commands over folders and outputs,
//! and `serve ADDRESS STORE` over connections and a keeper. The workers of a serving run at once.
//! Where a case has an order, its connections and its keeper wait for each other (scripted_edges).
#![tactic(auto)]

mod answers;
mod case_words;
mod programs;
mod rewrites;
mod served;
mod servings;
mod tables;

use std::{env, io};
use tables::report_at;

fn main(rt: HostRuntime) -> io::Result<()> {
    for argument in env::args(&rt)?.skip(1) {
        let report = report_at(&rt, argument.as_str())?;
        print!(rt; "{}", report.as_str())?;
    }
    Ok(())
}
