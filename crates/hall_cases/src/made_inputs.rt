// Connections whose input is made.
use crate::connections::Connection;
use crate::inputs::answered;
use case_tables::{CaseFault, bytes_of, cell, number_of, text_in};
use std::alloc::{AllocError, Global};

/// The end, and the first line of what went out.
fn first_line(alloc: Global, served: &Connection) -> Result<String, CaseFault> {
    let text = text_in(alloc, served.written())?;
    let line = match text.as_str().lines().next() {
        Some(line) => line,
        None => "",
    };
    Ok(format!(in alloc; "{} {line}", served.end_name())?)
}

fn put_times(bytes: &mut Vec<u8>, count: u32, piece: &[u8]) -> Result<(), AllocError> {
    for _ in 0..count {
        bytes.extend_from_slice(piece)?;
    }
    Ok(())
}

/// A request whose head has so many bytes.
pub fn head_of_bytes(alloc: Global, cells: &[&str]) -> Result<String, CaseFault> {
    let mut input = b"GET /sheets HTTP/1.1\r\nX: ".to_vec(alloc)?;
    let fixed = 29;
    let more = number_of(cell(cells, 0))?.saturating_sub(fixed);
    put_times(&mut input, more, b"x")?;
    input.extend_from_slice(b"\r\n\r\n")?;
    let served = answered(alloc, input)?;
    first_line(alloc, &served)
}

/// A request whose target has so many bytes, and begins like this.
pub fn target_of_bytes(alloc: Global, cells: &[&str]) -> Result<String, CaseFault> {
    let count = number_of(cell(cells, 0))?;
    let front = cell(cells, 1);
    let mut input = format!(in alloc; "GET {front}")?.into_bytes();
    for _ in front.len()..count as usize {
        input.push(b'x')?;
    }
    input.extend_from_slice(b" HTTP/1.1\r\n\r\n")?;
    let served = answered(alloc, input)?;
    first_line(alloc, &served)
}

/// A request with so many headers.
pub fn headers(alloc: Global, cells: &[&str]) -> Result<String, CaseFault> {
    let mut input = b"GET /sheets HTTP/1.1\r\n".to_vec(alloc)?;
    put_times(&mut input, number_of(cell(cells, 0))?, b"A: b\r\n")?;
    input.extend_from_slice(b"\r\n")?;
    let served = answered(alloc, input)?;
    first_line(alloc, &served)
}

/// An edit whose body is so many spaces: the end, and the body of the reply.
pub fn body_of_bytes(alloc: Global, cells: &[&str]) -> Result<String, CaseFault> {
    let count = number_of(cell(cells, 0))?;
    let head = format!(in alloc; "POST /edits HTTP/1.1\r\nContent-Length: {count}\r\n\r\n")?;
    let mut input = head.as_bytes().to_vec(alloc)?;
    put_times(&mut input, count, b" ")?;
    let served = answered(alloc, input)?;
    let text = text_in(alloc, served.written())?;
    let body = match text.as_str().lines().last() {
        Some(line) => line,
        None => "",
    };
    Ok(format!(in alloc; "{} {body}", served.end_name())?)
}

/// How often a text has another one.
fn times_in(text: &str, piece: &str) -> u32 {
    let mut count: u32 = 0;
    for _ in text.split(piece).skip(1) {
        count = count.saturating_add(1);
    }
    count
}

/// So many times one request: the end, how many replies are 200, and how many say close.
pub fn many(alloc: Global, cells: &[&str]) -> Result<String, CaseFault> {
    let request = bytes_of(alloc, cell(cells, 1))?;
    let mut input = Vec::new(alloc);
    put_times(&mut input, number_of(cell(cells, 0))?, request.as_slice())?;
    let served = answered(alloc, input)?;
    let text = text_in(alloc, served.written())?;
    let replies = times_in(text.as_str(), "HTTP/1.1 200 OK\r\n");
    let closing = times_in(text.as_str(), "Connection: close\r\n");
    Ok(format!(in alloc; "{} {replies} {closing}", served.end_name())?)
}
