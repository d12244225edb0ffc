// Groups of a board, and what a change of it may cost.
ghost use Rattle.project_model.specs.Changes.{CanApply};

use crate::changes::change_of;
use board_core::Board;
use case_projects::project_in;
use case_tables::{CaseFault, TableFiles};
use project_model::Change;
use std::alloc::{AllocError, Global};

/// For each conductor the id of its object, and that of the first one of its group.
fn groups_text(alloc: Global, board: &Board) -> Result<String, AllocError> {
    let mut out = String::from_str(alloc, ">")?;
    for (key, first) in board.local_groups(alloc)? {
        write!(out, " {}:{}", key.id, first.id)?;
    }
    out.push_str("\n")?;
    Ok(out)
}

fn change_board(
    alloc: Global,
    board: &mut Board,
    change: &str,
    files: &TableFiles,
) -> Result<(), CaseFault> {
    let change = change_of(alloc, change, files)?;
    Ok(board.apply(alloc, &change)?)
}

fn groups_after(
    alloc: Global,
    board: &mut Board,
    change: Option<&str>,
    files: &TableFiles,
) -> Result<String, CaseFault> {
    if let Some(change) = change {
        change_board(alloc, board, change, files)?;
    }
    Ok(groups_text(alloc, board)?)
}

/// The groups of the board of a sheet, which may be changed first: `s.sch after 2`.
pub fn groups(alloc: Global, words: &str, files: &TableFiles) -> Result<String, CaseFault> {
    let (sheets, change) = match words.split_once(" after ") {
        Some((sheets, change)) => (sheets, Some(change)),
        None => (words, None),
    };
    let mut board = board_in(alloc, sheets, files)?;
    let text = groups_after(alloc, &mut board, change, files);
    drop(board);
    text
}

/// Whether the groups of all sheets are kept.
fn kept_line(board: &Board) -> &'static str {
    if board.is_fresh() {
        "> kept\n"
    } else {
        "> given up\n"
    }
}

/// Changes a board. Where memory runs out, it puts what the board then tells of its groups, and the
/// change comes once more.
fn put_change(
    alloc: Global,
    out: &mut String,
    board: &mut Board,
    change: &Change,
) -> Result<(), AllocError>
    requires { CanApply change.now.items }
{
    if board.apply(alloc, change).is_ok() {
        return Ok(());
    }
    out.push_str(kept_line(board))?;
    match groups_text(alloc, board) {
        Ok(text) => out.push_str(text.as_str())?,
        Err(_) => out.push_str("> NoMemory\n")?,
    }
    match board.apply(alloc, change) {
        Ok(()) => Ok(()),
        Err(_) => out.push_str("> NoMemory\n"),
    }
}

fn text_again(
    alloc: Global,
    board: &mut Board,
    change: &str,
    files: &TableFiles,
) -> Result<String, CaseFault> {
    let change = change_of(alloc, change, files)?;
    let mut out = String::new(alloc);
    put_change(alloc, &mut out, board, &change)?;
    out.push_str(groups_text(alloc, board)?.as_str())?;
    out.push_str(kept_line(board))?;
    Ok(out)
}

/// The groups of the board of a sheet after a change, `s.sch after 2`, which comes once more where
/// memory runs out, and whether those of all sheets are kept then.
pub fn groups_again(alloc: Global, words: &str, files: &TableFiles) -> Result<String, CaseFault> {
    let (sheets, change) = words.split_once(" after ").ok_or(CaseFault::BadCase)?;
    let mut board = board_in(alloc, sheets, files)?;
    let text = text_again(alloc, &mut board, change, files);
    drop(board);
    text
}

/// The board of the project of the sheets that words name.
fn board_in(alloc: Global, words: &str, files: &TableFiles) -> Result<Board, CaseFault> {
    let project = project_in(alloc, words, files)?;
    let board = Board::of(alloc, &project);
    drop(project);
    Ok(board?)
}

fn bound_text(
    alloc: Global,
    board: &Board,
    change: &str,
    files: &TableFiles,
) -> Result<String, CaseFault> {
    let change = change_of(alloc, change, files)?;
    let bound = board.bound(alloc, &change)?;
    Ok(format!(in alloc; "> {bound}\n")?)
}

/// How many steps a change of the board of a sheet may take.
pub fn bound(alloc: Global, words: &str, files: &TableFiles) -> Result<String, CaseFault> {
    let (sheets, change) = words.split_once(" after ").ok_or(CaseFault::BadCase)?;
    let board = board_in(alloc, sheets, files)?;
    let text = bound_text(alloc, &board, change, files);
    drop(board);
    text
}
