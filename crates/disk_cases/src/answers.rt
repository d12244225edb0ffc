// The kinds of cases.
use crate::stops;
use case_tables::{Asked, Case, CaseFault, report};
use std::alloc::{AllocError, Global};

fn answer(alloc: Global, case: &Case<'_>) -> Result<String, CaseFault> {
    match case.asked {
        Asked::Question(words) if case.kind == "stops" => stops::answer(alloc, words, case.files),
        _ => Err(CaseFault::BadCase),
    }
}

/// What there is to tell of a table.
pub fn table_report(alloc: Global, name: &str, text: &str) -> Result<String, AllocError> {
    report(alloc, answer, "", name, text)
}
