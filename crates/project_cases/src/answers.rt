// The kinds of cases.
use crate::{boards, changes, hierarchies, spice_texts};
use case_tables::{Asked, Case, CaseFault, TableFiles, report};
use std::alloc::{AllocError, Global};

fn question(
    alloc: Global,
    kind: &str,
    words: &str,
    files: &TableFiles,
) -> Result<String, CaseFault> {
    match kind {
        "instances" => hierarchies::instances(alloc, words, files),
        "groups" => boards::groups(alloc, words, files),
        "groups again" => boards::groups_again(alloc, words, files),
        "bound" => boards::bound(alloc, words, files),
        "changed" => changes::changed(alloc, words, files),
        "spice text" => spice_texts::lines(alloc, words, files),
        _ => Err(CaseFault::BadCase),
    }
}

fn answer(alloc: Global, case: &Case<'_>) -> Result<String, CaseFault> {
    match (case.asked, case.kind) {
        (Asked::Row(cells), "spice fault") => spice_texts::fault(alloc, cells, case.files),
        (Asked::Row(_), _) => Err(CaseFault::BadCase),
        (Asked::Question(words), kind) => question(alloc, kind, words, case.files),
    }
}

/// What there is to tell of a table. `shared` has the files that it shares with others.
pub fn table_report(
    alloc: Global,
    shared: &str,
    name: &str,
    text: &str,
) -> Result<String, AllocError> {
    report(alloc, answer, shared, name, text)
}
