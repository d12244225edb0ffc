// The requests of a connection, a line of a file each: a method and a target; an entry as JSON,
// which is an edit; `blanks N`, an edit whose body is so many blanks; or all the bytes of a request
// as a cell.
use crate::ids::with_ids;
use case_tables::{CaseFault, TableFiles, number_of, text_in, text_of};
use std::alloc::{AllocError, Global};

/// Puts a letter as it stands in a text of JSON.
fn put_letter(out: &mut String, letter: char) -> Result<(), AllocError> {
    match letter {
        '\n' => out.push_str("\\n"),
        '"' => out.push_str("\\\""),
        '\\' => out.push_str("\\\\"),
        letter => out.push(letter),
    }
}

fn put_quoted(out: &mut String, text: &str) -> Result<(), AllocError> {
    out.push('"')?;
    for letter in text.chars() {
        put_letter(out, letter)?;
    }
    out.push('"')
}

/// An entry as JSON, in which the text of a file stands for its name behind `@`.
fn entry_json(alloc: Global, line: &str, files: &TableFiles) -> Result<String, CaseFault> {
    let Some((before, rest)) = line.split_once("\"@") else {
        return Ok(String::from_str(alloc, line)?);
    };
    let (name, after) = rest.split_once('"').ok_or(CaseFault::BadCase)?;
    let text = text_in(alloc, files.find(name)?)?;
    let mut out = String::from_str(alloc, before)?;
    put_quoted(&mut out, text.as_str())?;
    out.push_str(after)?;
    Ok(out)
}

fn put_edit_head(out: &mut String, length: usize) -> Result<(), AllocError> {
    write!(
        out,
        "POST /edits HTTP/1.1\r\nContent-Length: {length}\r\n\r\n"
    )
}

fn put_edit(
    alloc: Global,
    out: &mut String,
    line: &str,
    files: &TableFiles,
) -> Result<(), CaseFault> {
    let line = with_ids(alloc, line)?;
    let body = entry_json(alloc, line.as_str(), files)?;
    put_edit_head(out, body.as_str().len())?;
    Ok(out.push_str(body.as_str())?)
}

fn put_blanks(out: &mut String, count: u32) -> Result<(), AllocError> {
    put_edit_head(out, count as usize)?;
    for _ in 0..count {
        out.push(' ')?;
    }
    Ok(())
}

fn put_target(out: &mut String, line: &str) -> Result<(), AllocError> {
    write!(out, "{line} HTTP/1.1\r\nHost: x\r\n\r\n")
}

fn put_cell(alloc: Global, out: &mut String, line: &str) -> Result<(), CaseFault> {
    let bytes = text_of(alloc, line)?;
    Ok(out.push_str(bytes.as_str())?)
}

/// Puts the bytes of the request of a line.
pub fn put_request(
    alloc: Global,
    out: &mut String,
    line: &str,
    files: &TableFiles,
) -> Result<(), CaseFault> {
    if line.starts_with('{') {
        return put_edit(alloc, out, line, files);
    }
    if line.contains(" HTTP/") {
        return put_cell(alloc, out, line);
    }
    match line.strip_prefix("blanks ") {
        Some(count) => Ok(put_blanks(out, number_of(count)?)?),
        None => Ok(put_target(out, line)?),
    }
}

/// The bytes of the requests of a file.
pub fn input_of(alloc: Global, file: &str, files: &TableFiles) -> Result<Vec<u8>, CaseFault> {
    let text = text_in(alloc, files.find(file)?)?;
    let mut out = String::new(alloc);
    for line in text.as_str().lines() {
        put_request(alloc, &mut out, line, files)?;
    }
    Ok(out.into_bytes())
}
