// Bytes that come in on a connection, which a service with no entries serves.
use crate::connections::{Connection, link_of};
use crate::empty_service::EmptyService;
use case_tables::{CaseFault, bytes_of, cell, number_of, text_in};
use hall_server::{LinkEnd, serve_requests};
use std::alloc::Global;
use web_heads::Access;

/// How a connection ended, and all that went out.
fn told(alloc: Global, connection: &Connection) -> Result<String, CaseFault> {
    let text = text_in(alloc, connection.written())?;
    Ok(format!(in alloc; "{} {}", connection.end_name(), text.as_str())?)
}

/// Serves an input by some options. The calls of these numbers fail, and so many looks are refused.
fn connect_by(
    alloc: Global,
    access: &Access,
    input: Vec<u8>,
    failing: Vec<u64>,
    refusing: u64,
) -> Result<Connection, CaseFault> {
    let mut service = EmptyService::new(alloc, refusing);
    let mut link = link_of(alloc, input, failing)?;
    let end = serve_requests(alloc, &mut service, access, &mut link);
    Ok(Connection { end, link })
}

/// Serves an input without options. The calls of these numbers fail, and so many looks are refused.
fn connect(
    alloc: Global,
    input: Vec<u8>,
    failing: Vec<u64>,
    refusing: u64,
) -> Result<Connection, CaseFault> {
    connect_by(alloc, &Access::open(alloc), input, failing, refusing)
}

/// Serves an input where nothing fails.
pub fn answered(alloc: Global, input: Vec<u8>) -> Result<Connection, CaseFault> {
    connect(alloc, input, Vec::new(alloc), 0)
}

/// Bytes that come in: the end, and what goes out.
pub fn whole(alloc: Global, cells: &[&str]) -> Result<String, CaseFault> {
    let input = bytes_of(alloc, cell(cells, 0))?;
    told(alloc, &answered(alloc, input)?)
}

fn whole_by(alloc: Global, access: Option<Access>, text: &str) -> Result<String, CaseFault> {
    let access = access.ok_or(CaseFault::BadCase)?;
    let input = bytes_of(alloc, text)?;
    told(
        alloc,
        &connect_by(alloc, &access, input, Vec::new(alloc), 0)?,
    )
}

/// The same where hosts are answered whose names are parted by blanks.
pub fn of_hosts(alloc: Global, cells: &[&str]) -> Result<String, CaseFault> {
    let mut hosts = Vec::new(alloc);
    for host in cell(cells, 0).split(' ') {
        hosts.push(String::from_str(alloc, host)?)?;
    }
    whole_by(alloc, Access::new(hosts, None), cell(cells, 1))
}

/// The same where a header names the user.
pub fn of_users(alloc: Global, cells: &[&str]) -> Result<String, CaseFault> {
    let header = String::from_str(alloc, cell(cells, 0))?;
    whole_by(
        alloc,
        Access::new(Vec::new(alloc), Some(header)),
        cell(cells, 1),
    )
}

/// The same where so many looks are refused.
pub fn refused(alloc: Global, cells: &[&str]) -> Result<String, CaseFault> {
    let input = bytes_of(alloc, cell(cells, 1))?;
    let refusing = u64::from(number_of(cell(cells, 0))?);
    told(alloc, &connect(alloc, input, Vec::new(alloc), refusing)?)
}

/// How an input ends that is cut behind so many bytes, and how many bytes go out; a line where that
/// is not as one byte before.
pub fn cuts(alloc: Global, cells: &[&str]) -> Result<String, CaseFault> {
    let input = bytes_of(alloc, cell(cells, 0))?;
    let mut front = Vec::new(alloc);
    let mut out = first_cut(alloc)?;
    let mut last = answered(alloc, Vec::new(alloc))?;
    for byte in input.as_slice() {
        front.push(*byte)?;
        let now = answered(alloc, front.clone()?)?;
        if now.end != last.end || now.written() != last.written() {
            put_cut(&mut out, front.len(), &now)?;
        }
        last = now;
    }
    Ok(out)
}

fn first_cut(alloc: Global) -> Result<String, CaseFault> {
    let mut out = String::new(alloc);
    let now = answered(alloc, Vec::new(alloc))?;
    write!(out, "0 {} {}", now.end_name(), now.written().len())?;
    Ok(out)
}

fn put_cut(out: &mut String, count: usize, now: &Connection) -> Result<(), CaseFault> {
    write!(out, "\n{count} {} {}", now.end_name(), now.written().len())?;
    Ok(())
}

/// Whether two connections one after the other wrote what one alone did.
fn is_together(first: &Connection, rest: &Connection, whole: &Connection) -> bool {
    let Some(left) = whole.written().strip_prefix(first.written()) else {
        return false;
    };
    first.end == LinkEnd::Closed && rest.end == whole.end && rest.written() == left
}

/// The places where an input may go on with another connection: what goes out on both is what goes
/// out on one.
pub fn partings(alloc: Global, cells: &[&str]) -> Result<String, CaseFault> {
    let input = bytes_of(alloc, cell(cells, 0))?;
    let whole = answered(alloc, input.clone()?)?;
    let mut out = String::new(alloc);
    for place in 0..=input.len() {
        let (front, back) = input.as_slice().split_at(place);
        let first = answered(alloc, front.to_vec(alloc)?)?;
        let rest = answered(alloc, back.to_vec(alloc)?)?;
        if is_together(&first, &rest, &whole) {
            let between = if out.is_empty() { "" } else { " " };
            write!(out, "{between}{place}")?;
        }
    }
    Ok(out)
}

/// How an input ends where the first call fails, and how many bytes go out; the same of the second
/// call, and so on, as far as one fails.
pub fn failing(alloc: Global, cells: &[&str]) -> Result<String, CaseFault> {
    let input = bytes_of(alloc, cell(cells, 0))?;
    let mut out = String::new(alloc);
    for call in 1..1000u64 {
        let failing = Vec::from_slice(alloc, &[call])?;
        let now = connect(alloc, input.clone()?, failing, 0)?;
        writeln!(out, "{call} {} {}", now.end_name(), now.written().len())?;
        if now.end == LinkEnd::Closed {
            return Ok(out);
        }
    }
    Ok(out)
}
