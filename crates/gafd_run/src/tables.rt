// The table of a sheet, and a table that is filled into one.
ghost use Rattle.std.specs.Prelude.{◌≡◌, ◌≤◌, IfOk, string_bytes};
ghost use Rattle.geda_defs.specs.Contents.{KeepsFiles};
ghost use Rattle.command_words.specs.declared.command.Command.TheVariants.{Fill, Table};
ghost use Rattle.outside.specs.Counts.{counts};
ghost use Rattle.attr_table.specs.SheetTables.{table_text};
ghost use Rattle.edit_rules.specs.Histories.{project};
ghost use Rattle.gafd_run.specs.Answers.{FillsTo, all_well, fill_line, fill_outcome, filled_down};
ghost use Rattle.gafd_run.specs.steps.Passing.{AnswerOf, ComesOf, Over};
ghost use Rattle.gafd_run.specs.steps.Tables.{OpenedFrom, OpensAs};

use crate::answer::Answer;
use crate::fault::RunFault;
use attr_table::table_text;
use edit_desk::Desk;
use geda_model::Name;
use project_files::Folder;
use std::alloc::{AllocError, Global};
use table_files::{FilledFile, filled_file, opened_file};

/// The sheet that these bytes spell, as the history of the edit that adds it.
fn opened_in(alloc: Global, sheet: &Name, bytes: &[u8]) -> Result<Desk, RunFault>
    ensures { ComesOf (OpensAs sheet.now bytes.now) result }
{
    Ok(opened_file(alloc, sheet, bytes)?)
}

/// The same of the file of a sheet.
fn opened<F: Folder>(alloc: Global, sheet: &Name, folder: &mut F) -> Result<Desk, RunFault>
    ensures opened { AnswerOf (counts (F.faults folder.old) (F.faults folder.new))
        (OpenedFrom (F.files folder.old) sheet.now) result }
    ensures later { F.faults folder.old ≤ F.faults folder.new }
    ensures files { KeepsFiles (F.files folder.old) (F.files folder.new) }
{
    match folder.read(alloc, sheet.as_str())? {
        Some(bytes) => opened_in(alloc, sheet, &bytes),
        None => Err(RunFault::Missing {
            file: sheet.clone()?,
        }),
    }
}

/// The answer with the table of a sheet.
fn tabled(alloc: Global, desk: &Desk, sheet: &Name) -> Result<Answer, AllocError>
    ensures { IfOk result
        (λ answer. answer ≡ all_well (table_text (project desk.now.history) sheet.now)) }
{
    let text = table_text(alloc, desk.project(), sheet)?;
    Ok(Answer::done(alloc, text))
}

/// The table of the file of a sheet.
pub(crate) fn table<F: Folder>(
    alloc: Global,
    sheet: Name,
    folder: &mut F,
) -> Result<Answer, RunFault>
    ensures answer { AnswerOf (counts (F.faults folder.old) (F.faults folder.new))
        (Over (F.files folder.old) (Table sheet)) result }
    ensures later { F.faults folder.old ≤ F.faults folder.new }
    ensures files { KeepsFiles (F.files folder.old) (F.files folder.new) }
{
    let desk = opened(alloc, &sheet, folder)?;
    let answer = tabled(alloc, &desk, &sheet)?;
    Ok(answer)
}

fn fill_line(alloc: Global, count: usize) -> Result<String, AllocError>
    ensures { IfOk result (λ line. string_bytes line ≡ fill_line count) }
{
    format!(in alloc; "filled {count}\n")
}

/// The answer of a filling.
fn filled_down(alloc: Global, filled: FilledFile) -> Result<Answer, AllocError>
    ensures { IfOk result (λ answer. answer ≡ filled_down filled) }
{
    let FilledFile { count, files } = filled;
    let line = fill_line(alloc, count)?;
    Ok(Answer {
        text: line.into_bytes(),
        status: 0,
        files,
    })
}

/// What filling a table of these bytes into a sheet comes to.
fn filled_in(
    alloc: Global,
    desk: Desk,
    sheet: &Name,
    table: &Name,
    bytes: &[u8],
) -> Result<Answer, RunFault>
    ensures { ComesOf
        (λ end. end ≡ fill_outcome sheet.now table.now desk.history bytes.now) result }
{
    let filled = filled_file(alloc, desk, sheet, table, bytes)?;
    Ok(filled_down(alloc, filled)?)
}

/// The same of the file of a table.
fn filled<F: Folder>(
    alloc: Global,
    desk: Desk,
    sheet: &Name,
    table: &Name,
    folder: &mut F,
) -> Result<Answer, RunFault>
    ensures answer { AnswerOf (counts (F.faults folder.old) (F.faults folder.new))
        (FillsTo (F.files folder.old) sheet.now table.now desk.history) result }
    ensures later { F.faults folder.old ≤ F.faults folder.new }
    ensures files { KeepsFiles (F.files folder.old) (F.files folder.new) }
{
    match folder.read(alloc, table.as_str())? {
        Some(bytes) => filled_in(alloc, desk, sheet, table, &bytes),
        None => Err(RunFault::Missing {
            file: table.clone()?,
        }),
    }
}

/// What it comes to that the file of a table is filled into that of a sheet, which is read first.
pub(crate) fn fill<F: Folder>(
    alloc: Global,
    sheet: Name,
    table: Name,
    folder: &mut F,
) -> Result<Answer, RunFault>
    ensures answer { AnswerOf (counts (F.faults folder.old) (F.faults folder.new))
        (Over (F.files folder.old) (Fill sheet table)) result }
    ensures later { F.faults folder.old ≤ F.faults folder.new }
    ensures files { KeepsFiles (F.files folder.old) (F.files folder.new) }
{
    let desk = opened(alloc, &sheet, folder)?;
    filled(alloc, desk, &sheet, &table, folder)
}
