// What is asked of halls.
use crate::hall_fault::{HallFault, fault_line};
use crate::halls::{GroupsLook, Served, serve_new};
use crate::keepers::{keeper_failing_at, keeper_of};
use case_tables::{CaseFault, TableFiles, number_of};
use http_lines::{AnswerLines, input_of, last_lines, lines_of, put_bodies};
use std::alloc::Global;
use std::sync::Wait;
use web_heads::Access;

/// The replies of all connections, each with all its bytes, and how each connection ended.
fn whole_lines(alloc: Global, served: &Served) -> Result<String, CaseFault> {
    let mut out = String::new(alloc);
    for connection in served.connections.iter() {
        let lines = lines_of(alloc, connection.written(), false)?;
        out.push_str(lines.as_str())?;
        writeln!(out, "> {}", connection.end_name())?;
    }
    Ok(out)
}

/// Puts the status and the body of each reply.
fn put_brief(alloc: Global, out: &mut String, served: &Served) -> Result<(), CaseFault> {
    for connection in served.connections.iter() {
        let lines = lines_of(alloc, connection.written(), true)?;
        out.push_str(lines.as_str())?;
    }
    Ok(())
}

/// The bytes of the requests of files whose names are parted by blanks.
fn inputs_of(alloc: Global, names: &str, files: &TableFiles) -> Result<Vec<Vec<u8>>, CaseFault> {
    let mut inputs = Vec::new(alloc);
    for name in names.split(' ') {
        inputs.push(input_of(alloc, name, files)?)?;
    }
    Ok(inputs)
}

/// Has a new hall serve the requests of files over a keeper of no rows.
fn serve_failing<W: Wait>(
    rt: &W,
    alloc: Global,
    names: &str,
    call: u64,
    files: &TableFiles,
) -> Result<Served, HallFault> {
    let inputs = inputs_of(alloc, names, files)?;
    let keeper = keeper_failing_at(alloc, call)?;
    serve_new(rt, alloc, keeper, &Access::open(alloc), inputs)
}

fn all_connections<W: Wait>(
    rt: &W,
    alloc: Global,
    words: &str,
    files: &TableFiles,
) -> Result<String, CaseFault> {
    let (names, call) = words.split_once(" failing ").unwrap_or((words, "0"));
    let call = number_of(call)?;
    match serve_failing(rt, alloc, names, u64::from(call), files) {
        Ok(served) => whole_lines(alloc, &served),
        Err(fault) => fault_line(alloc, fault),
    }
}

/// The connections of files, by the two seats in turn: `ann bob`. A call of the keeper may be one
/// that fails: `ann failing 4`. So many lines at the end may be asked for alone: `ann last 9`.
pub fn connections<W: Wait>(
    rt: &W,
    alloc: Global,
    words: &str,
    files: &TableFiles,
) -> Result<String, CaseFault> {
    match words.split_once(" last ") {
        None => all_connections(rt, alloc, words, files),
        Some((words, count)) => {
            let text = all_connections(rt, alloc, words, files)?;
            Ok(last_lines(alloc, text.as_str(), number_of(count)?)?)
        }
    }
}

/// Has a new hall serve the requests of files over a keeper of no rows, where a header names the
/// user.
fn serve_users<W: Wait>(
    rt: &W,
    alloc: Global,
    names: &str,
    header: &str,
    files: &TableFiles,
) -> Result<Served, HallFault> {
    let inputs = inputs_of(alloc, names, files)?;
    let header = String::from_str(alloc, header)?;
    let access = Access::new(Vec::new(alloc), Some(header)).ok_or(CaseFault::BadCase)?;
    let keeper = keeper_failing_at(alloc, 0)?;
    serve_new(rt, alloc, keeper, &access, inputs)
}

/// The connections of files where a header names the user: `ann bob by X-User`.
pub fn connections_of_users<W: Wait>(
    rt: &W,
    alloc: Global,
    words: &str,
    files: &TableFiles,
) -> Result<String, CaseFault> {
    let (names, header) = words.split_once(" by ").ok_or(CaseFault::BadCase)?;
    match serve_users(rt, alloc, names, header, files) {
        Ok(served) => whole_lines(alloc, &served),
        Err(fault) => fault_line(alloc, fault),
    }
}

/// The status and the lines of the body of each reply; equal lines that follow each other stand
/// once.
fn body_lines(alloc: Global, served: &Served) -> Result<String, CaseFault> {
    let mut lines = AnswerLines::new(alloc);
    for connection in served.connections.iter() {
        put_bodies(alloc, &mut lines, connection.written())?;
    }
    Ok(lines.into_text()?)
}

/// The bodies of the replies on the connections of files, a line of a body in each line: `ann bob`.
pub fn bodies<W: Wait>(
    rt: &W,
    alloc: Global,
    words: &str,
    files: &TableFiles,
) -> Result<String, CaseFault> {
    match serve_failing(rt, alloc, words, 0, files) {
        Ok(served) => body_lines(alloc, &served),
        Err(fault) => fault_line(alloc, fault),
    }
}

/// The connections, and whether the groups of all sheets of the board are kept in the end.
fn lines_and_groups(alloc: Global, served: &Served) -> Result<String, CaseFault> {
    let mut out = whole_lines(alloc, served)?;
    out.push_str(match served.last_look {
        Some((_, GroupsLook { are_kept: true, .. })) => "> groups kept\n",
        Some(_) => "> groups given up\n",
        None => "> NoEntry\n",
    })?;
    Ok(out)
}

/// The same as of `connections`, and what became of the groups of the board.
pub fn connections_and_groups<W: Wait>(
    rt: &W,
    alloc: Global,
    words: &str,
    files: &TableFiles,
) -> Result<String, CaseFault> {
    match serve_failing(rt, alloc, words, 0, files) {
        Ok(served) => lines_and_groups(alloc, &served),
        Err(fault) => fault_line(alloc, fault),
    }
}

/// How many entries a hall has that was opened over the rows of a file, or why it does not open.
pub fn opening<W: Wait>(
    rt: &W,
    alloc: Global,
    words: &str,
    files: &TableFiles,
) -> Result<String, CaseFault> {
    let keeper = keeper_of(alloc, words, files)?;
    match serve_new(rt, alloc, keeper, &Access::open(alloc), Vec::new(alloc)) {
        Ok(served) => front_line(alloc, &served),
        Err(fault) => fault_line(alloc, fault),
    }
}

fn front_line(alloc: Global, served: &Served) -> Result<String, CaseFault> {
    match served.last_look {
        Some((front, _)) => Ok(format!(in alloc; "> front {front}\n")?),
        None => Ok(String::from_str(alloc, "> NoEntry\n")?),
    }
}

/// Words for the steps of a board, of which the rules fix the greatest number alone.
fn steps_line(alloc: Global, served: &Served, most: u32) -> Result<String, CaseFault> {
    let Some((_, GroupsLook { steps, .. })) = served.last_look else {
        return Ok(String::from_str(alloc, "> NoEntry\n")?);
    };
    match steps {
        0 => Ok(String::from_str(alloc, "> none\n")?),
        steps if steps <= u64::from(most) => Ok(String::from_str(alloc, "> some\n")?),
        steps => Ok(format!(in alloc; "> {steps}\n")?),
    }
}

/// Whether the groups of the board took any steps, and at most so many, after the connections of
/// files: `ann bob at most 9`.
pub fn steps<W: Wait>(
    rt: &W,
    alloc: Global,
    words: &str,
    files: &TableFiles,
) -> Result<String, CaseFault> {
    let (names, most) = words.split_once(" at most ").ok_or(CaseFault::BadCase)?;
    let most = number_of(most)?;
    match serve_failing(rt, alloc, names, 0, files) {
        Ok(served) => steps_line(alloc, &served, most),
        Err(fault) => fault_line(alloc, fault),
    }
}

/// Opens a hall again over the keeper of a closed one, and puts the replies to the requests of a
/// file. It gives the calls of the keeper in all.
fn put_again<W: Wait>(
    rt: &W,
    alloc: Global,
    out: &mut String,
    served: Served,
    names: &str,
    files: &TableFiles,
) -> Result<u64, HallFault> {
    put_brief(alloc, out, &served)?;
    writeln!(out, "> held {}", served.held)?;
    let inputs = inputs_of(alloc, names, files)?;
    let again = serve_new(rt, alloc, served.keeper, &Access::open(alloc), inputs)?;
    put_brief(alloc, out, &again)?;
    Ok(again.keeper.calls())
}

/// The same where a call of the keeper fails.
fn put_failing<W: Wait>(
    rt: &W,
    alloc: Global,
    out: &mut String,
    call: u64,
    names: (&str, &str),
    files: &TableFiles,
) -> Result<u64, HallFault> {
    let served = serve_failing(rt, alloc, names.0, call, files)?;
    put_again(rt, alloc, out, served, names.1, files)
}

/// Puts what comes where a call of the keeper fails, and says whether there was such a call.
fn put_call<W: Wait>(
    rt: &W,
    alloc: Global,
    out: &mut String,
    call: u64,
    names: (&str, &str),
    files: &TableFiles,
) -> Result<bool, CaseFault> {
    writeln!(out, "> call {call}")?;
    match put_failing(rt, alloc, out, call, names, files) {
        Ok(calls) => Ok(call <= calls),
        Err(fault) => {
            out.push_str(fault_line(alloc, fault)?.as_str())?;
            Ok(true)
        }
    }
}

/// The requests of a file where the first call of the keeper fails, then those of another file at a
/// hall that is opened over the keeper again; the same of the second call, and so on, as far as one
/// fails: `edits then reads`.
pub fn each_call<W: Wait>(
    rt: &W,
    alloc: Global,
    words: &str,
    files: &TableFiles,
) -> Result<String, CaseFault> {
    let names = words.split_once(" then ").ok_or(CaseFault::BadCase)?;
    let mut out = String::new(alloc);
    for call in 1..1000u64 {
        if !put_call(rt, alloc, &mut out, call, names, files)? {
            return Ok(out);
        }
    }
    Ok(out)
}
