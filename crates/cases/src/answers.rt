// The kinds of cases.
use crate::{programs, rewrites, served};
use case_tables::{Asked, Case, CaseFault, TableFiles, cell, report};
use std::alloc::{AllocError, Global};
use std::sync::Wait;
use std::thread::Threads;
use std::time::Clock;

fn row<W: Threads + Wait + Clock + Sync>(
    rt: &W,
    alloc: Global,
    kind: &str,
    cells: &[&str],
    files: &TableFiles,
) -> Result<String, CaseFault> {
    match kind {
        "command" => programs::command(rt, alloc, cells, files),
        "work" => programs::work(rt, alloc, cells, files),
        "rewritten" => rewrites::rewritten(rt, alloc, cells, files),
        "status" => served::status(rt, alloc, cell(cells, 0), files),
        "given" => served::given(rt, alloc, cell(cells, 0), files),
        _ => Err(CaseFault::BadCase),
    }
}

fn question<W: Threads + Wait + Clock + Sync>(
    rt: &W,
    alloc: Global,
    kind: &str,
    words: &str,
    files: &TableFiles,
) -> Result<String, CaseFault> {
    match kind {
        "program" => programs::lines(rt, alloc, words, files),
        "contents" => rewrites::contents(rt, alloc, words, files),
        "serving" => served::serving(rt, alloc, words, files),
        _ => Err(CaseFault::BadCase),
    }
}

fn answer<W: Threads + Wait + Clock + Sync>(
    rt: &W,
    alloc: Global,
    case: &Case<'_>,
) -> Result<String, CaseFault> {
    match case.asked {
        Asked::Row(cells) => row(rt, alloc, case.kind, cells, case.files),
        Asked::Question(words) => question(rt, alloc, case.kind, words, case.files),
    }
}

/// What there is to tell of a table of programs/. `rt` is what servings make threads of, and wait
/// by.
pub fn table_report<W: Threads + Wait + Clock + Sync>(
    rt: &W,
    alloc: Global,
    shared: &str,
    name: &str,
    text: &str,
) -> Result<String, AllocError> {
    let answer = |alloc: Global, case: &Case<'_>| -> Result<String, CaseFault> {
        answer(rt, alloc, case)
    };
    report(alloc, answer, shared, name, text)
}
