// The lines of a reply before its body.
ghost use Rattle.std.specs.Prelude.{◌≡◌, ◌++◌, ℕ, List, OnOk, decimal};
ghost use Rattle.web_requests.specs.Answers.{report_reply};
ghost use Rattle.web_requests.specs.Texts as spec;
ghost use Rattle.web_requests.specs.Texts.{allow_lines, close_lines, content_type, first_lines};
ghost use Rattle.web_requests.specs.Texts.{front_lines, header, last_lines, reply_text, status_line};

use crate::reply_buffer::ReplyBuffer;
use crate::request::Allowed;
use http::StatusCode;
use itoa::Buffer;
use std::alloc::AllocError;

/// What a body is.
#[derive(Clone, Copy, Debug, PartialEq, Eq)]
pub enum Content {
    /// The text of a report.
    Text,
    /// JSON.
    Json,
}

/// What the lines of a reply before its body say.
#[derive(Clone, Copy)]
pub struct Head {
    /// The status.
    pub status: StatusCode,
    /// What the body is.
    pub content: Content,
    /// The length of the history on which the reply stands, if it stands on one.
    pub front: Option<u32>,
    /// The one method of the route, where another was asked for.
    pub allowed: Option<Allowed>,
    /// Whether the connection closes after it.
    pub closing: bool,
}

/// The head of the reply with the text of a report.
pub fn report_head(front: u32, closing: bool) -> Head
    ensures { (body : List ℕ) → reply_text result body ≡ report_reply front closing body }
{
    Head {
        status: StatusCode::OK,
        content: Content::Text,
        front: Some(front),
        allowed: None,
        closing,
    }
}

/// Adds a header.
fn push_header(text: &mut ReplyBuffer, name: &[u8], value: &[u8]) -> Result<(), AllocError>
    ensures { OnOk result (text.new ≡ text.old ++ header name.now value.now) }
{
    text.push(name)?;
    text.push(b": ")?;
    text.push(value)?;
    text.push(b"\r\n")
}

/// Adds a header whose value is a number.
fn push_number(text: &mut ReplyBuffer, name: &[u8], number: u64) -> Result<(), AllocError>
    ensures { OnOk result (text.new ≡ text.old ++ header name.now (decimal number)) }
{
    let mut digits = Buffer::new();
    push_header(text, name, digits.format(number).as_bytes())
}

/// The phrase of a status.
fn phrase(status: StatusCode) -> &'static str
    ensures { result.now ≡ spec.phrase status }
{
    match status.canonical_reason() {
        Some(phrase) => phrase,
        None => "",
    }
}

/// Adds the status line.
#[tactic(auto, unfolding(crate::specs::Texts::status_line))]
fn push_status(text: &mut ReplyBuffer, status: StatusCode) -> Result<(), AllocError>
    ensures { OnOk result (text.new ≡ text.old ++ status_line status) }
{
    text.push(b"HTTP/1.1 ")?;
    text.push(status.as_str().as_bytes())?;
    text.push(b" ")?;
    text.push(phrase(status).as_bytes())?;
    text.push(b"\r\n")
}

fn content_name(content: Content) -> &'static [u8]
    ensures { result.now ≡ content_type content }
{
    match content {
        Content::Text => b"text/plain; charset=utf-8",
        Content::Json => b"application/json",
    }
}

fn push_front(text: &mut ReplyBuffer, front: Option<u32>) -> Result<(), AllocError>
    ensures { OnOk result (text.new ≡ text.old ++ front_lines front) }
{
    match front {
        Some(front) => push_number(text, b"Front", u64::from(front)),
        None => Ok(()),
    }
}

fn push_allowed(text: &mut ReplyBuffer, allowed: Option<Allowed>) -> Result<(), AllocError>
    ensures { OnOk result (text.new ≡ text.old ++ allow_lines allowed) }
{
    match allowed {
        Some(allowed) => push_header(text, b"Allow", allowed.name().as_bytes()),
        None => Ok(()),
    }
}

fn push_close(text: &mut ReplyBuffer, closing: bool) -> Result<(), AllocError>
    ensures { OnOk result (text.new ≡ text.old ++ close_lines closing) }
{
    if closing {
        return push_header(text, b"Connection", b"close");
    }
    Ok(())
}

/// Adds the lines of the head as far as Front.
fn push_first(text: &mut ReplyBuffer, head: &Head) -> Result<(), AllocError>
    ensures { OnOk result (text.new ≡ text.old ++ first_lines head.now) }
{
    push_status(text, head.status)?;
    push_header(text, b"Content-Type", content_name(head.content))?;
    push_front(text, head.front)
}

/// Adds the other lines of the head.
fn push_last(text: &mut ReplyBuffer, head: &Head, size: usize) -> Result<(), AllocError>
    ensures { OnOk result (text.new ≡ text.old ++ last_lines head.now size) }
{
    push_allowed(text, head.allowed)?;
    push_close(text, head.closing)?;
    push_number(text, b"Content-Length", size as u64)?;
    text.push(b"\r\n")
}

/// Writes a reply in place of what stood there.
#[tactic(auto, unfolding(crate::specs::Texts::reply_text))]
pub fn write_reply(text: &mut ReplyBuffer, head: &Head, body: &[u8]) -> Result<(), AllocError>
    ensures { OnOk result (text.new ≡ reply_text head.now body.now) }
{
    text.clear();
    push_first(text, head)?;
    push_last(text, head, body.len())?;
    text.push(body)
}
