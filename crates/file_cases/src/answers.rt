// The kinds of cases.
use crate::{attributes, drawings, geometry, grouping, pins, readers, symbols, texts};
use case_tables::{Asked, Case, CaseFault, report};
use std::alloc::{AllocError, Global};

fn text_answer(alloc: Global, kind: &str, cells: &[&str]) -> Result<String, CaseFault> {
    match kind {
        "attribute" => attributes::split(alloc, cells),
        "pintype" => attributes::kind(alloc, cells),
        "slot" => attributes::slot(alloc, cells),
        "net" => attributes::net(alloc, cells),
        "name" => texts::kinds(alloc, cells),
        "content" => texts::content(alloc, cells),
        "number" => texts::number(alloc, cells),
        "fields" => texts::line_fields(alloc, cells),
        "lines" => texts::lines(alloc, cells),
        "touch" => geometry::touching(alloc, cells),
        "place" => geometry::placing(alloc, cells),
        "drawings" => drawings::first_wrong_drawing(alloc, cells),
        "groups" => grouping::groups(alloc, cells),
        _ => Err(CaseFault::BadCase),
    }
}

fn read_answer(alloc: Global, kind: &str, cells: &[&str]) -> Result<String, CaseFault> {
    match kind {
        "sheet bytes" => readers::sheet_bytes(alloc, cells),
        "sheet lines" => readers::sheet_lines(alloc, cells),
        "symbol lines" => readers::symbol_lines(alloc, cells),
        "object bytes" => readers::object_bytes(alloc, cells),
        "sheet repeated" => readers::sheet_repeated(alloc, cells),
        _ => text_answer(alloc, kind, cells),
    }
}

/// What a case comes to: a row, since no kind of this crate has questions.
fn answer(alloc: Global, case: &Case<'_>) -> Result<String, CaseFault> {
    let Asked::Row(cells) = case.asked else {
        return Err(CaseFault::BadCase);
    };
    match case.kind {
        "values" => attributes::values(alloc, cells, case.files),
        "value" => attributes::value(alloc, cells, case.files),
        "sheet again" => readers::sheet_again(alloc, cells, case.files),
        "symbol again" => readers::symbol_again(alloc, cells, case.files),
        "object again" => readers::object_again(alloc, cells, case.files),
        "head again" => readers::head_again(alloc, cells, case.files),
        "first lines" => readers::first_lines(alloc, cells, case.files),
        "symbol report" => symbols::one_report(alloc, cells, case.files),
        "symbol reports" => symbols::reports(alloc, cells, case.files),
        "symbol errors" => symbols::errors(alloc, cells, case.files),
        "pins" => pins::pins(alloc, cells, case.files),
        "conductors" => pins::conductors(alloc, cells, case.files),
        _ => read_answer(alloc, case.kind, cells),
    }
}

/// What there is to tell of a table.
pub fn table_report(alloc: Global, name: &str, text: &str) -> Result<String, AllocError> {
    report(alloc, answer, "", name, text)
}
