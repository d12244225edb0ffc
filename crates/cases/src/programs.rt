// The whole program on the files of a table.
use crate::servings::{outputs_of, status_in};
use case_projects::folder_of;
use case_tables::{CaseFault, TableFiles, arguments_of, cell, failing_calls, text_in, text_of};
use project_files::MemoryFolder;
use std::alloc::{AllocError, Global};
use std::sync::Wait;
use std::thread::Threads;
use std::time::Clock;

/// How many bytes an output of a command takes.
const ROOM: usize = 100_000;

/// What a run comes to.
#[derive(Drop)]
pub struct Ran {
    status: u8,
    out: String,
    err: String,
}

fn call_of(number: &str) -> Result<u64, CaseFault> {
    match number.parse::<u64>() {
        Ok(number) => Ok(number),
        Err(_) => Err(CaseFault::BadCase),
    }
}

/// Runs the program in a folder. Of the calls that `failing` names, those of the sinks fail.
pub fn run_in<W: Threads + Wait + Clock + Sync>(
    rt: &W,
    alloc: Global,
    arguments: &[String],
    folder: &mut MemoryFolder,
    failing: &str,
) -> Result<Ran, CaseFault> {
    let mut outputs = outputs_of(alloc, ROOM, failing)?;
    let status = status_in(rt, alloc, arguments, folder, &mut outputs)?;
    let out = text_in(alloc, outputs.out.written())?;
    let err = text_in(alloc, outputs.err.written())?;
    Ok(Ran { status, out, err })
}

/// Runs the program. The calls that `failing` names fail.
fn outcome_of<W: Threads + Wait + Clock + Sync>(
    rt: &W,
    alloc: Global,
    words: &str,
    failing: &str,
    files: &TableFiles,
) -> Result<Ran, CaseFault> {
    let arguments = arguments_of(alloc, words)?;
    let calls = failing_calls(alloc, failing, "folder")?;
    let mut folder = folder_of(alloc, files, calls)?;
    let ran = run_in(rt, alloc, &arguments, &mut folder, failing);
    drop(folder);
    ran
}

/// Puts a text behind a mark, without its last line feed.
pub fn put_marked(to: &mut String, mark: &str, text: &str) -> Result<(), AllocError> {
    if text.is_empty() {
        return Ok(());
    }
    let text = text.strip_suffix('\n').unwrap_or("no line feed at the end");
    write!(to, " {mark} {text}")
}

/// The status of a command, what goes to the output after `>`, and to the errors after `!`.
pub fn command<W: Threads + Wait + Clock + Sync>(
    rt: &W,
    alloc: Global,
    cells: &[&str],
    files: &TableFiles,
) -> Result<String, CaseFault> {
    let words = text_of(alloc, cell(cells, 0))?;
    let ran = outcome_of(rt, alloc, words.as_str(), cell(cells, 1), files)?;
    Ok(ran_text(alloc, &ran)?)
}

/// Words for a number of steps, of which the rules fix the bound alone.
fn steps_words(bound: &str, steps: &str) -> Result<&'static str, CaseFault> {
    let bound = call_of(bound)?;
    match call_of(steps)? {
        0 => Ok("none"),
        steps if steps <= bound => Ok("within the bound"),
        _ => Ok("beyond the bound"),
    }
}

/// What a command of the work comes to, as `command` tells it, with words for its calls.
pub fn work<W: Threads + Wait + Clock + Sync>(
    rt: &W,
    alloc: Global,
    cells: &[&str],
    files: &TableFiles,
) -> Result<String, CaseFault> {
    let told = command(rt, alloc, cells, files)?;
    let (before, counts) = told.split_once("\nbound ").ok_or(CaseFault::BadCase)?;
    let (bound, steps) = counts.split_once("\ncalls ").ok_or(CaseFault::BadCase)?;
    let words = steps_words(bound, steps)?;
    Ok(format!(in alloc; "{before}\nbound {bound}\ncalls {words}")?)
}

/// The status, the output and the errors, in a line.
pub fn ran_text(alloc: Global, ran: &Ran) -> Result<String, AllocError> {
    let mut text = format!(in alloc; "{}", ran.status)?;
    put_marked(&mut text, ">", ran.out.as_str())?;
    put_marked(&mut text, "!", ran.err.as_str())?;
    Ok(text)
}

/// Puts each line of a text behind a mark.
pub fn put_lines(to: &mut String, mark: &str, text: &str) -> Result<(), AllocError> {
    for line in text.split_inclusive('\n') {
        let end = if line.ends_with('\n') {
            ""
        } else {
            " (no line feed)\n"
        };
        write!(to, "{mark} {line}{end}")?;
    }
    Ok(())
}

/// The output of a command, its errors and its status, a line each.
pub fn lines<W: Threads + Wait + Clock + Sync>(
    rt: &W,
    alloc: Global,
    words: &str,
    files: &TableFiles,
) -> Result<String, CaseFault> {
    let ran = outcome_of(rt, alloc, words, "", files)?;
    Ok(ran_lines(alloc, &ran)?)
}

/// The output, the errors and the status, a line each.
pub fn ran_lines(alloc: Global, ran: &Ran) -> Result<String, AllocError> {
    let mut text = String::new(alloc);
    put_lines(&mut text, ">", ran.out.as_str())?;
    put_lines(&mut text, "!", ran.err.as_str())?;
    writeln!(text, "status {}", ran.status)?;
    Ok(text)
}
