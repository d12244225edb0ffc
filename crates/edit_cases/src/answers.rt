// The kinds of cases.
use crate::{attributes, entries, histories, motions, numbers, project_reports};
use case_tables::{Asked, Case, CaseFault, TableFiles, report};
use std::alloc::{AllocError, Global};

fn row(alloc: Global, kind: &str, cells: &[&str], files: &TableFiles) -> Result<String, CaseFault> {
    match kind {
        "body" => entries::body(alloc, cells, files),
        "edit" => entries::edit(alloc, cells),
        "row" => entries::row(alloc, cells),
        "move" => motions::move_object(alloc, cells),
        "turn" => motions::turn_object(alloc, cells),
        "turn point" => motions::turn_point(alloc, cells),
        "set" => attributes::set(alloc, cells),
        "drop" => attributes::lose(alloc, cells),
        "has" => attributes::has(alloc, cells),
        "first point" => attributes::first(alloc, cells),
        _ => Err(CaseFault::BadCase),
    }
}

fn question(
    alloc: Global,
    kind: &str,
    words: &str,
    files: &TableFiles,
) -> Result<String, CaseFault> {
    match kind {
        "number" => numbers::number(alloc, words, files),
        "verdicts" => histories::verdicts(alloc, words, files),
        "report after" => project_reports::report_after(alloc, words, files),
        "runs after" => project_reports::runs_after(alloc, words, files),
        _ => Err(CaseFault::BadCase),
    }
}

fn answer(alloc: Global, case: &Case<'_>) -> Result<String, CaseFault> {
    match case.asked {
        Asked::Row(cells) => row(alloc, case.kind, cells, case.files),
        Asked::Question(words) => question(alloc, case.kind, words, case.files),
    }
}

/// What there is to tell of a table.
pub fn table_report(alloc: Global, name: &str, text: &str) -> Result<String, AllocError> {
    report(alloc, answer, "", name, text)
}
