// The kinds of cases.
use crate::copies;
use case_tables::{Asked, Case, CaseFault, TableFiles, report};
use std::alloc::{AllocError, Global};

fn question(
    alloc: Global,
    kind: &str,
    words: &str,
    files: &TableFiles,
) -> Result<String, CaseFault> {
    match kind {
        "copies" => copies::copies_in(alloc, words, files),
        "copies without a table" => copies::copies_without_table(alloc, words, files),
        "copies out of a database" => copies::copies_out(alloc, words, files),
        _ => Err(CaseFault::BadCase),
    }
}

fn answer(alloc: Global, case: &Case<'_>) -> Result<String, CaseFault> {
    match case.asked {
        Asked::Row(_) => Err(CaseFault::BadCase),
        Asked::Question(words) => question(alloc, case.kind, words, case.files),
    }
}

/// What there is to tell of a table.
pub fn table_report(alloc: Global, name: &str, text: &str) -> Result<String, AllocError> {
    report(alloc, answer, "", name, text)
}
