// Names, words, lines and numbers.
use case_tables::{CaseFault, bytes_of, cell, text_in, text_of};
use geda_model::{Line, Name, NameFault, Word, is_content, line_feeds};
use geda_text::{Cutter, fields, whole};
use std::alloc::Global;

/// Puts a word where a value was made.
fn put_made<T: Drop>(
    out: &mut String,
    made: Result<T, NameFault>,
    word: &str,
) -> Result<(), CaseFault> {
    match made {
        Ok(_) => Ok(out.push_str(word)?),
        Err(NameFault::NotAName) => Ok(()),
        Err(NameFault::NoMemory) => Err(CaseFault::NoMemory),
    }
}

/// What a text is of a name, a word and a line.
pub fn kinds(alloc: Global, cells: &[&str]) -> Result<String, CaseFault> {
    let text = text_of(alloc, cell(cells, 0))?;
    let mut out = String::new(alloc);
    put_made(&mut out, Name::new(alloc, text.as_str()), "name ")?;
    put_made(&mut out, Word::new(alloc, text.as_str()), "word ")?;
    put_made(&mut out, Line::new(alloc, text.as_str()), "line")?;
    Ok(out)
}

/// Whether a text is a content, and its line feeds.
pub fn content(alloc: Global, cells: &[&str]) -> Result<String, CaseFault> {
    let text = text_of(alloc, cell(cells, 0))?;
    let is = if is_content(text.as_str()) {
        "yes"
    } else {
        "no"
    };
    let feeds = line_feeds(text.as_str());
    Ok(format!(in alloc; "{is} {feeds}")?)
}

/// The number of a word.
pub fn number(alloc: Global, cells: &[&str]) -> Result<String, CaseFault> {
    match whole(cell(cells, 0).as_bytes()) {
        Some(number) => Ok(format!(in alloc; "{number}")?),
        None => Ok(String::from_str(alloc, "none")?),
    }
}

fn put_piece(alloc: Global, out: &mut String, piece: &[u8]) -> Result<(), CaseFault> {
    let text = text_in(alloc, piece)?;
    write!(out, "[{}]", text.as_str())?;
    Ok(())
}

/// The fields of a line, each in brackets.
pub fn line_fields(alloc: Global, cells: &[&str]) -> Result<String, CaseFault> {
    let bytes = bytes_of(alloc, cell(cells, 0))?;
    let mut out = String::new(alloc);
    for field in fields(bytes.as_slice()) {
        put_piece(alloc, &mut out, field)?;
    }
    Ok(out)
}

/// The lines of a file, each in brackets.
pub fn lines(alloc: Global, cells: &[&str]) -> Result<String, CaseFault> {
    let bytes = bytes_of(alloc, cell(cells, 0))?;
    let bytes = bytes.as_slice();
    if bytes.len() > 4294967295 {
        return Err(CaseFault::BadCase);
    }
    let mut cutter = Cutter::new(bytes);
    let mut out = String::new(alloc);
    for _ in 0..u64::MAX {
        let Some(line) = cutter.next() else {
            break;
        };
        put_piece(alloc, &mut out, line)?;
    }
    Ok(out)
}
