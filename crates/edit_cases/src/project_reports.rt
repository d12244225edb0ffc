// Reports on the project of a history.
use crate::histories::play;
use board_core::Board;
use case_tables::{CaseFault, TableFiles, name_of, text_in};
use drc_rules::Matrix;
use edit_desk::Desk;
use geda_model::Name;
use http_lines::AnswerLines;
use project_model::Project;
use reports::{Form, ReportFault, What, report};
use std::alloc::Global;

/// What a word asks for of the whole project.
fn whole_of(asked: &str) -> Result<What, CaseFault> {
    match asked {
        "list" => Ok(What::Net(Form::List)),
        "drc" => Ok(What::Drc),
        "sheets" => Ok(What::Sheets),
        _ => Err(CaseFault::BadCase),
    }
}

/// What a word asks for of a sheet or a symbol.
fn part_of(asked: &str, name: Name) -> Result<What, CaseFault> {
    match asked {
        "objects" => Ok(What::Objects(name)),
        "sheet" => Ok(What::Sheet(name)),
        "symbol" => Ok(What::Symbol(name)),
        _ => Err(CaseFault::BadCase),
    }
}

/// What words ask for: `list`, `sheet s.sch`.
fn what_of(alloc: Global, asked: &str) -> Result<What, CaseFault> {
    match asked.split_once(' ') {
        None => whole_of(asked),
        Some((asked, name)) => part_of(asked, name_of(alloc, name)?),
    }
}

/// The text of a report, or its fault.
fn told(alloc: Global, board: &Board, what: &What) -> Result<String, CaseFault> {
    match report(alloc, board, what, &Matrix::usual()) {
        Ok(text) => text_in(alloc, text.as_slice()),
        Err(ReportFault::NoMemory) => Err(CaseFault::NoMemory),
        Err(fault) => Ok(format!(in alloc; "{fault:?}")?),
    }
}

fn report_on(alloc: Global, project: &Project, asked: &str) -> Result<String, CaseFault> {
    let what = what_of(alloc, asked)?;
    let board = Board::of(alloc, project)?;
    let text = told(alloc, &board, &what);
    drop(board);
    text
}

fn report_of(
    alloc: Global,
    desk: &mut Desk,
    words: &str,
    files: &TableFiles,
) -> Result<String, CaseFault> {
    let (file, asked) = words.split_once(": ").ok_or(CaseFault::BadCase)?;
    play(alloc, desk, file, files)?;
    report_on(alloc, desk.project(), asked)
}

fn text_after(alloc: Global, words: &str, files: &TableFiles) -> Result<String, CaseFault> {
    let mut desk = Desk::new(alloc);
    let text = report_of(alloc, &mut desk, words, files);
    drop(desk);
    text
}

/// A report after the entries of a file: `h: list`.
pub fn report_after(alloc: Global, words: &str, files: &TableFiles) -> Result<String, CaseFault> {
    let text = text_after(alloc, words, files)?;
    let mut out = String::new(alloc);
    for line in text.as_str().lines() {
        writeln!(out, "> {line}")?;
    }
    Ok(out)
}

/// The same, in which equal lines that follow each other stand once.
pub fn runs_after(alloc: Global, words: &str, files: &TableFiles) -> Result<String, CaseFault> {
    let text = text_after(alloc, words, files)?;
    let mut lines = AnswerLines::new(alloc);
    for line in text.as_str().lines() {
        lines.put(String::from_str(alloc, line)?)?;
    }
    Ok(lines.into_text()?)
}
