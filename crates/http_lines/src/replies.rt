// The replies that went out, a line each. What comes again at once stands once, with how often it
// came.
use case_tables::{CaseFault, text_in};
use std::alloc::{AllocError, Global};

/// Lines of an answer, in which one that comes again at once stands once: `> 9999 times x`.
#[derive(Drop)]
pub struct AnswerLines {
    out: String,
    last: String,
    count: u32,
}

impl AnswerLines {
    /// No lines.
    pub fn new(alloc: Global) -> AnswerLines {
        AnswerLines {
            out: String::new(alloc),
            last: String::new(alloc),
            count: 0,
        }
    }

    /// Puts the line that came last.
    fn settle(&mut self) -> Result<(), AllocError> {
        let last = self.last.as_str();
        match self.count {
            0 => Ok(()),
            1 => writeln!(self.out, "> {last}"),
            count => writeln!(self.out, "> {count} times {last}"),
        }
    }

    /// One more line.
    pub fn put(&mut self, line: String) -> Result<(), AllocError> {
        if self.count > 0 && self.last == line {
            self.count = self.count.saturating_add(1);
            return Ok(());
        }
        self.settle()?;
        self.last = line;
        self.count = 1;
        Ok(())
    }

    /// All lines.
    pub fn into_text(self) -> Result<String, AllocError> {
        let mut lines = self;
        lines.settle()?;
        Ok(lines.out)
    }
}

/// Puts a letter as it stands in a cell.
fn put_letter(out: &mut String, letter: char) -> Result<(), AllocError> {
    match letter {
        '\r' => out.push_str("\\r"),
        '\n' => out.push_str(" / "),
        '\t' => out.push_str("\\t"),
        letter => out.push(letter),
    }
}

/// Puts a text as a cell.
fn put_cell(out: &mut String, text: &str) -> Result<(), AllocError> {
    if text.is_empty() {
        return out.push_str("\\e");
    }
    let (text, end) = match text.strip_suffix('\n') {
        Some(text) => (text, "\\n"),
        None => (text, ""),
    };
    for letter in text.chars() {
        put_letter(out, letter)?;
    }
    out.push_str(end)
}

/// All the bytes of a reply, which are behind its version here.
fn whole(alloc: Global, reply: &str) -> Result<String, AllocError> {
    let mut out = String::from_str(alloc, "HTTP/1.1 ")?;
    put_cell(&mut out, reply)?;
    Ok(out)
}

/// The status and the body of a reply.
fn brief(alloc: Global, reply: &str) -> Result<String, AllocError> {
    let (status, _) = reply.split_once(' ').unwrap_or((reply, ""));
    let (_, body) = reply.split_once("\r\n\r\n").unwrap_or(("", reply));
    let mut out = String::from_str(alloc, status)?;
    out.push(' ')?;
    put_cell(&mut out, body)?;
    Ok(out)
}

/// The replies of a connection as lines, with all their bytes, or with status and body alone.
pub fn lines_of(alloc: Global, written: &[u8], is_brief: bool) -> Result<String, CaseFault> {
    let text = text_in(alloc, written)?;
    let mut lines = AnswerLines::new(alloc);
    for reply in text.as_str().split("HTTP/1.1 ").skip(1) {
        let line = if is_brief {
            brief(alloc, reply)?
        } else {
            whole(alloc, reply)?
        };
        lines.put(line)?;
    }
    Ok(lines.into_text()?)
}

/// Puts the status of a reply, and the lines of its body.
fn put_body(alloc: Global, lines: &mut AnswerLines, reply: &str) -> Result<(), AllocError> {
    let (status, _) = reply.split_once(' ').unwrap_or((reply, ""));
    lines.put(String::from_str(alloc, status)?)?;
    let (_, body) = reply.split_once("\r\n\r\n").unwrap_or(("", reply));
    for line in body.lines() {
        lines.put(String::from_str(alloc, line)?)?;
    }
    Ok(())
}

/// Puts the replies of a connection: the status of each, and the lines of its body.
pub fn put_bodies(alloc: Global, lines: &mut AnswerLines, written: &[u8]) -> Result<(), CaseFault> {
    let text = text_in(alloc, written)?;
    for reply in text.as_str().split("HTTP/1.1 ").skip(1) {
        put_body(alloc, lines, reply)?;
    }
    Ok(())
}

/// So many lines at the end of a text.
pub fn last_lines(alloc: Global, text: &str, count: u32) -> Result<String, AllocError> {
    let before = text.lines().count().saturating_sub(count as usize);
    let mut out = String::new(alloc);
    for line in text.lines().skip(before) {
        writeln!(out, "{line}")?;
    }
    Ok(out)
}
