// Cells of a row: ` / ` ends a line, and a backslash begins what cannot stand in a row.
use crate::case_fault::CaseFault;
use geda_model::{Name, NameFault};
use std::alloc::{AllocError, Global};
use std::str;

fn digit(byte: u8) -> Result<u8, CaseFault> {
    match byte {
        b'0'..=b'9' => Ok(byte.wrapping_sub(b'0')),
        b'a'..=b'f' => Ok(byte.wrapping_sub(b'a').wrapping_add(10)),
        _ => Err(CaseFault::BadCase),
    }
}

fn byte_of(high: u8, low: u8) -> Result<u8, CaseFault> {
    let high = digit(high)?;
    let low = digit(low)?;
    Ok(high.wrapping_mul(16).wrapping_add(low))
}

/// The byte that a letter behind a backslash stands for.
fn named_byte(letter: u8) -> Result<u8, CaseFault> {
    match letter {
        b'n' => Ok(b'\n'),
        b'r' => Ok(b'\r'),
        b's' => Ok(b' '),
        b't' => Ok(b'\t'),
        _ => Err(CaseFault::BadCase),
    }
}

fn put_byte(out: &mut Vec<u8>, byte: u8, rest: &[u8]) -> Result<(), CaseFault> {
    out.push(byte)?;
    out.extend_from_slice(rest)?;
    Ok(())
}

/// Puts what stands after a backslash.
fn put_escaped(out: &mut Vec<u8>, piece: &[u8]) -> Result<(), CaseFault> {
    match piece {
        [b'e', rest @ ..] => Ok(out.extend_from_slice(rest)?),
        [b'x', high, low, rest @ ..] => put_byte(out, byte_of(*high, *low)?, rest),
        [letter, rest @ ..] => put_byte(out, named_byte(*letter)?, rest),
        [] => Err(CaseFault::BadCase),
    }
}

fn put_line(out: &mut Vec<u8>, line: &str) -> Result<(), CaseFault> {
    let mut is_first = true;
    for piece in line.split('\\') {
        if is_first {
            out.extend_from_slice(piece.as_bytes())?;
        } else {
            put_escaped(out, piece.as_bytes())?;
        }
        is_first = false;
    }
    Ok(())
}

/// The bytes that a cell stands for.
pub fn bytes_of(alloc: Global, cell: &str) -> Result<Vec<u8>, CaseFault> {
    let mut out = Vec::new(alloc);
    let mut is_first = true;
    for line in cell.split(" / ") {
        if !is_first {
            out.push(b'\n')?;
        }
        is_first = false;
        put_line(&mut out, line)?;
    }
    Ok(out)
}

/// A copy of bytes that are text.
pub fn text_in(alloc: Global, bytes: &[u8]) -> Result<String, CaseFault> {
    match str::from_utf8(bytes) {
        Ok(text) => Ok(String::from_str(alloc, text)?),
        Err(_) => Err(CaseFault::BadCase),
    }
}

/// The text that a cell stands for.
pub fn text_of(alloc: Global, cell: &str) -> Result<String, CaseFault> {
    let bytes = bytes_of(alloc, cell)?;
    text_in(alloc, bytes.as_slice())
}

/// The name that a text is.
pub fn name_of(alloc: Global, text: &str) -> Result<Name, CaseFault> {
    match Name::new(alloc, text) {
        Ok(name) => Ok(name),
        Err(NameFault::NotAName) => Err(CaseFault::BadCase),
        Err(NameFault::NoMemory) => Err(CaseFault::NoMemory),
    }
}

/// The number that a cell is.
pub fn number_of(cell: &str) -> Result<u32, CaseFault> {
    match cell.parse::<u32>() {
        Ok(number) => Ok(number),
        Err(_) => Err(CaseFault::BadCase),
    }
}

/// A text in which a number stands for each `#`.
pub fn numbered(alloc: Global, text: &str, number: u32) -> Result<String, AllocError> {
    let mut out = String::new(alloc);
    let mut is_first = true;
    for piece in text.split('#') {
        if !is_first {
            write!(out, "{number}")?;
        }
        is_first = false;
        out.push_str(piece)?;
    }
    Ok(out)
}

/// The cell at a place of a row, from 0; the empty one behind its end.
pub fn cell<'a>(cells: &[&'a str], place: usize) -> &'a str {
    match cells.get(place) {
        Some(cell) => cell,
        None => "",
    }
}

/// A cell that may be `-`, which stands for none.
pub fn option_in<'a>(cell: &'a str) -> Option<&'a str> {
    if cell == "-" { None } else { Some(cell) }
}
