// What is asked of servings.
use crate::case_words::serving_case;
use crate::programs::{put_lines, put_marked};
use crate::servings::{Ran, run_case};
use case_tables::{CaseFault, TableFiles, text_in};
use http_lines::lines_of;
use scripted_edges::{Progress, Traces, counted_name};
use std::alloc::{AllocError, Global};
use std::sync::{Mutex, Wait};
use std::thread::Threads;
use std::time::Clock;

/// The status, the output and the errors, in a line.
fn status_line(alloc: Global, ran: &Ran) -> Result<String, CaseFault> {
    let mut line = format!(in alloc; "{}", ran.status)?;
    let out = text_in(alloc, ran.outputs.out.written())?;
    let err = text_in(alloc, ran.outputs.err.written())?;
    put_marked(&mut line, ">", out.as_str())?;
    put_marked(&mut line, "!", err.as_str())?;
    Ok(line)
}

/// The status of a command, what goes to the output after `>`, and to the errors after `!`.
pub fn status<W: Threads + Wait + Clock + Sync>(
    rt: &W,
    alloc: Global,
    text: &str,
    files: &TableFiles,
) -> Result<String, CaseFault> {
    let ran = run_case(rt, alloc, &serving_case(text), files)?;
    status_line(alloc, &ran)
}

/// The address that the gate was given, and the stores that the keepers were, in the order in which
/// they were.
pub fn given<W: Threads + Wait + Clock + Sync>(
    rt: &W,
    alloc: Global,
    text: &str,
    files: &TableFiles,
) -> Result<String, CaseFault> {
    let ran = run_case(rt, alloc, &serving_case(text), files)?;
    Ok(Progress::new(rt, &ran.traces).given(alloc)?)
}

/// What so many connections have written, from a place on.
fn written_from<W: Wait + Clock>(
    alloc: Global,
    progress: &Progress<'_, W>,
    place: usize,
    count: usize,
) -> Result<Vec<u8>, AllocError> {
    let mut written = Vec::new(alloc);
    for next in 0..count {
        let one = progress.written(alloc, place.saturating_add(next))?;
        written.extend_from_slice(one.as_slice())?;
    }
    Ok(written)
}

/// Puts the replies of each connection behind its name, or of so many behind one: `900*ann`.
fn put_replies<W: Wait + Clock>(
    rt: &W,
    alloc: Global,
    to: &mut String,
    names: &str,
    traces: &Mutex<Traces>,
) -> Result<(), CaseFault> {
    let progress = Progress::new(rt, traces);
    let mut place = 0usize;
    for word in names.split_whitespace() {
        let (count, _) = counted_name(word)?;
        let written = written_from(alloc, &progress, place, count)?;
        let lines = lines_of(alloc, written.as_slice(), false)?;
        write!(to, "> {word}\n{}", lines.as_str())?;
        place = place.saturating_add(count);
    }
    Ok(())
}

/// The output, the replies on the connections of these names, the errors and the status, a line
/// each.
fn serving_lines<W: Wait + Clock>(
    rt: &W,
    alloc: Global,
    names: &str,
    ran: &Ran,
) -> Result<String, CaseFault> {
    let mut lines = String::new(alloc);
    let out = text_in(alloc, ran.outputs.out.written())?;
    let err = text_in(alloc, ran.outputs.err.written())?;
    put_lines(&mut lines, ">", out.as_str())?;
    put_replies(rt, alloc, &mut lines, names, &ran.traces)?;
    put_lines(&mut lines, "!", err.as_str())?;
    writeln!(lines, "status {}", ran.status)?;
    Ok(lines)
}

/// The output of a command, the replies on its connections, its errors and its status, a line each.
pub fn serving<W: Threads + Wait + Clock + Sync>(
    rt: &W,
    alloc: Global,
    text: &str,
    files: &TableFiles,
) -> Result<String, CaseFault> {
    let case = serving_case(text);
    let ran = run_case(rt, alloc, &case, files)?;
    serving_lines(rt, alloc, case.links, &ran)
}
