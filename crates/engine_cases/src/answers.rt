// The kinds of cases.
use crate::owners::outcome;
use crate::plans::turns_of;
use case_tables::{Asked, Case, CaseFault, TableFiles, report};
use std::alloc::{AllocError, Global};
use std::str;

/// What comes of rows that are put by a plan.
fn turns_answer(alloc: Global, words: &str, files: &TableFiles) -> Result<String, CaseFault> {
    let (words, rows) = words.split_once(" over ").unwrap_or((words, ""));
    let (bodies, plan) = words.split_once(" by ").ok_or(CaseFault::BadCase)?;
    let Ok(plan) = str::from_utf8(files.find(plan)?) else {
        return Err(CaseFault::BadCase);
    };
    outcome(alloc, turns_of(alloc, plan)?, rows, bodies)
}

fn answer(alloc: Global, case: &Case<'_>) -> Result<String, CaseFault> {
    match case.asked {
        Asked::Question(words) if case.kind == "turns" => turns_answer(alloc, words, case.files),
        _ => Err(CaseFault::BadCase),
    }
}

/// What there is to tell of a table.
pub fn table_report(alloc: Global, name: &str, text: &str) -> Result<String, AllocError> {
    report(alloc, answer, "", name, text)
}
