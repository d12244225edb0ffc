// Each report.
ghost use Rattle.std.specs.Prelude.{◌≡◌};
ghost use Rattle.std.specs.FinMap.{get};
ghost use Rattle.geda_grammar.specs.Canonical.{sheet_text as canonical, symbol_text};
ghost use Rattle.reports.specs.NetLists.{seen_text};
ghost use Rattle.reports.specs.SheetTexts.{objects_text, sheet_under};
ghost use Rattle.reports.specs.Reports.{Reports, text_or};
ghost use Rattle.reports.specs.steps.Faults.{Told};

use crate::fault::ReportFault;
use crate::net_lists::{board_check, board_report};
use crate::sheet_texts::{objects_text, sheet_text, sheets_text};
use crate::what::What;
use board_core::Board;
use drc_rules::Matrix;
use geda_model::Name;
use geda_write::symbol_text;
use project_model::Project;
use std::alloc::{AllocError, Global};

/// The canonical text of the sheet of a name.
fn sheet_report(alloc: Global, project: &Project, name: &Name) -> Result<Vec<u8>, ReportFault>
    ensures { Told (text_or ReportFault.NoSheet
        (λ head. canonical (sheet_under project.now.contents name.now head))
        (get project.now.contents.sheets name.now)) (seen_text result) }
{
    let head = project.head(name).ok_or(ReportFault::NoSheet)?;
    Ok(sheet_text(alloc, project, name, head)?)
}

/// The canonical text of the symbol of a name.
fn symbol_report(alloc: Global, project: &Project, name: &Name) -> Result<Vec<u8>, ReportFault>
    ensures { Told (text_or ReportFault.NoSymbol symbol_text
        (get project.now.contents.symbols name.now)) (seen_text result) }
{
    let symbol = project.symbol(name).ok_or(ReportFault::NoSymbol)?;
    Ok(symbol_text(alloc, symbol)?)
}

/// The lines of the objects of the sheet of a name.
fn objects_report(alloc: Global, project: &Project, name: &Name) -> Result<Vec<u8>, ReportFault>
    ensures { Told (text_or ReportFault.NoSheet (λ head. objects_text project.now.contents name.now)
        (get project.now.contents.sheets name.now)) (seen_text result) }
{
    if project.head(name).is_none() {
        return Err(ReportFault::NoSheet);
    }
    Ok(objects_text(alloc, project, name)?)
}

/// The text of a report on the project of a board (docs/FORMATS.md, "Reports"); the check is by the
/// matrix.
///
/// `NoSheet` and `NoSymbol` exactly where the named one is not there, and `TooManyInstances` for a
/// net list or the check exactly where the limits of a hierarchy are exceeded.
pub fn report(
    alloc: Global,
    board: &Board,
    what: &What,
    matrix: &Matrix,
) -> Result<Vec<u8>, ReportFault>
    ensures { Reports board.now.project matrix.now what.now
        (seen_text result) }
{
    let project = board.project();
    match what {
        What::Net(form) => Ok(board_report(alloc, *form, board)?),
        What::Drc => Ok(board_check(alloc, matrix, board)?.text),
        What::Sheet(name) => sheet_report(alloc, project, name),
        What::Symbol(name) => symbol_report(alloc, project, name),
        What::Objects(name) => objects_report(alloc, project, name),
        What::Sheets => Ok(sheets_text(alloc, project)?),
    }
}
