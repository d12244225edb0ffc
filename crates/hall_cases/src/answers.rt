// The kinds of cases.
use crate::{inputs, made_inputs, questions};
use case_tables::{Asked, Case, CaseFault, TableFiles, report};
use std::alloc::{AllocError, Global};
use std::sync::Wait;

fn row(alloc: Global, kind: &str, cells: &[&str]) -> Result<String, CaseFault> {
    match kind {
        "connection" => inputs::whole(alloc, cells),
        "hosts" => inputs::of_hosts(alloc, cells),
        "users" => inputs::of_users(alloc, cells),
        "refused" => inputs::refused(alloc, cells),
        "cuts" => inputs::cuts(alloc, cells),
        "partings" => inputs::partings(alloc, cells),
        "failing" => inputs::failing(alloc, cells),
        "head of bytes" => made_inputs::head_of_bytes(alloc, cells),
        "headers" => made_inputs::headers(alloc, cells),
        "body of bytes" => made_inputs::body_of_bytes(alloc, cells),
        "target of bytes" => made_inputs::target_of_bytes(alloc, cells),
        "many" => made_inputs::many(alloc, cells),
        _ => Err(CaseFault::BadCase),
    }
}

fn question<W: Wait>(
    rt: &W,
    alloc: Global,
    kind: &str,
    words: &str,
    files: &TableFiles,
) -> Result<String, CaseFault> {
    match kind {
        "connections" => questions::connections(rt, alloc, words, files),
        "connections and groups" => questions::connections_and_groups(rt, alloc, words, files),
        "connections of users" => questions::connections_of_users(rt, alloc, words, files),
        "bodies" => questions::bodies(rt, alloc, words, files),
        "openings" => questions::opening(rt, alloc, words, files),
        "steps of groups" => questions::steps(rt, alloc, words, files),
        "each call of the keeper fails" => questions::each_call(rt, alloc, words, files),
        _ => Err(CaseFault::BadCase),
    }
}

fn answer<W: Wait>(rt: &W, alloc: Global, case: &Case<'_>) -> Result<String, CaseFault> {
    match case.asked {
        Asked::Row(cells) => row(alloc, case.kind, cells),
        Asked::Question(words) => question(rt, alloc, case.kind, words, case.files),
    }
}

/// What there is to tell of a table. `rt` is what its halls wait by.
pub fn table_report<W: Wait>(
    rt: &W,
    alloc: Global,
    name: &str,
    text: &str,
) -> Result<String, AllocError> {
    let answer = |alloc: Global, case: &Case<'_>| -> Result<String, CaseFault> {
        answer(rt, alloc, case)
    };
    report(alloc, answer, "", name, text)
}
