// The kind of cases.
use crate::served::connections;
use case_tables::{Asked, Case, CaseFault, report};
use std::alloc::{AllocError, Global};
use std::sync::Wait;

fn answer<W: Wait>(rt: &W, alloc: Global, case: &Case<'_>) -> Result<String, CaseFault> {
    match case.asked {
        Asked::Question(words) if case.kind == "connections" => {
            connections(rt, alloc, words, case.files)
        }
        _ => Err(CaseFault::BadCase),
    }
}

/// What there is to tell of a table. `rt` is what its halls wait by.
pub fn table_report<W: Wait>(
    rt: &W,
    alloc: Global,
    name: &str,
    text: &str,
) -> Result<String, AllocError> {
    let answer = |alloc: Global, case: &Case<'_>| -> Result<String, CaseFault> {
        answer(rt, alloc, case)
    };
    report(alloc, answer, "", name, text)
}
