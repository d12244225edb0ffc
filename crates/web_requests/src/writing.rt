// The replies to requests, each in place of what stood there.
ghost use Rattle.std.specs.Prelude.{◌≡◌, OnOk, codes, Some, None};
ghost use Rattle.serde_json.specs.Written.{compact_text};
ghost use Rattle.web_requests.specs.Bodies.{bad_edit, done_entry, fault_data, named_fault};
ghost use Rattle.web_requests.specs.Bodies.{numbered_fault};
ghost use Rattle.web_requests.specs.Bodies as bodies;
ghost use Rattle.web_requests.specs.Texts.{reply_text};
ghost use Rattle.web_requests.specs.Answers.{fixed_reply, json_reply, method_reply, report_reply};

use crate::body::{done_body, fault_body, named_body, numbered_body, pointed_body};
use crate::head::{Content, Head, report_head};
use crate::reply_text::ReplyText;
use crate::report_bytes::Bytes;
use crate::request::{Allowed, FixedRequest};
use edit_entries::EditFault;
use http::StatusCode;
use std::alloc::{AllocError, Global};

/// A reply in JSON.
fn write_json(
    text: &mut ReplyText,
    status: StatusCode,
    front: u32,
    closing: bool,
    body: &str,
) -> Result<(), AllocError>
    ensures { OnOk result (text.new ≡ reply_text (record {
      status = status;
      content = Content.Json;
      front = Some front;
      allowed = None;
      closing = closing;
    }) body.now) }
{
    let head = Head {
        status,
        content: Content::Json,
        front: Some(front),
        allowed: None,
        closing,
    };
    text.write(&head, body.as_bytes())
}

/// The reply with the text of a report. It is shared where the text stands in it.
pub fn write_report(
    text: &mut ReplyText,
    front: u32,
    closing: bool,
    body: &Bytes,
) -> Result<(), AllocError>
    ensures { OnOk result (text.new ≡ report_reply front closing body.now) }
{
    match body.reply(front, closing) {
        Some(reply) => {
            text.share(reply);
            Ok(())
        }
        None => text.write(&report_head(front, closing), body.as_slice()),
    }
}

/// The reply to another method than the one of a route.
fn write_method(
    alloc: Global,
    text: &mut ReplyText,
    allowed: Allowed,
    front: u32,
    closing: bool,
) -> Result<(), AllocError>
    ensures { OnOk result (text.new ≡ method_reply allowed front closing) }
{
    let body = named_body(alloc, "Method")?;
    let head = Head {
        status: StatusCode::METHOD_NOT_ALLOWED,
        content: Content::Json,
        front: Some(front),
        allowed: Some(allowed),
        closing,
    };
    text.write(&head, body.as_bytes())
}

/// The reply that tells a fault by its name alone.
pub fn write_named(
    alloc: Global,
    text: &mut ReplyText,
    status: StatusCode,
    front: u32,
    closing: bool,
    name: &str,
) -> Result<(), AllocError>
    ensures { OnOk result (text.new ≡ json_reply status front closing (named_fault name.now)) }
{
    let body = named_body(alloc, name)?;
    write_json(text, status, front, closing, body.as_str())
}

/// The reply to a report that wants a longer history.
pub fn write_behind(
    alloc: Global,
    text: &mut ReplyText,
    front: u32,
    closing: bool,
) -> Result<(), AllocError>
    ensures { OnOk result (text.new ≡ json_reply 409 front closing
        (numbered_fault (codes "Behind") (codes "front") front)) }
{
    let body = numbered_body(alloc, "Behind", "front", front)?;
    write_json(text, StatusCode::CONFLICT, front, closing, body.as_str())
}

/// The reply to a body that is no entry.
fn write_bad_edit(
    alloc: Global,
    text: &mut ReplyText,
    front: u32,
    closing: bool,
    pointer: &str,
) -> Result<(), AllocError>
    ensures { OnOk result (text.new ≡ json_reply 400 front closing (bad_edit pointer.now)) }
{
    let body = pointed_body(alloc, pointer)?;
    write_json(text, StatusCode::BAD_REQUEST, front, closing, body.as_str())
}

/// The reply to an edit whose entry stands in the history.
pub fn write_done(
    alloc: Global,
    text: &mut ReplyText,
    first_id: u32,
    serial: u32,
    front: u32,
    closing: bool,
) -> Result<(), AllocError>
    ensures { OnOk result (text.new ≡ json_reply 200 front closing (done_entry first_id serial)) }
{
    let body = done_body(alloc, first_id, serial)?;
    write_json(text, StatusCode::OK, front, closing, body.as_str())
}

/// The status for a refused edit.
fn fault_status(fault: EditFault) -> StatusCode
    ensures { result ≡ bodies.fault_status fault }
{
    match fault {
        EditFault::Stale { .. }
        | EditFault::BaseAhead { .. }
        | EditFault::NumberGap { .. }
        | EditFault::NumberReused { .. }
        | EditFault::UndoBlocked { .. } => StatusCode::CONFLICT,
        _ => StatusCode::UNPROCESSABLE_ENTITY,
    }
}

/// The reply to a refused edit.
pub fn write_fault(
    alloc: Global,
    text: &mut ReplyText,
    fault: EditFault,
    front: u32,
    closing: bool,
) -> Result<(), AllocError>
    ensures { OnOk result (text.new ≡ json_reply (bodies.fault_status fault) front closing
        (fault_data fault)) }
{
    let body = fault_body(alloc, fault)?;
    write_json(text, fault_status(fault), front, closing, body.as_str())
}

/// The reply to a path or a name that leads to nothing.
fn write_missing(
    alloc: Global,
    text: &mut ReplyText,
    front: u32,
    closing: bool,
    name: &str,
) -> Result<(), AllocError>
    ensures { OnOk result (text.new ≡ json_reply 404 front closing (named_fault name.now)) }
{
    write_named(alloc, text, StatusCode::NOT_FOUND, front, closing, name)
}

/// The reply to a query that says `min` wrongly.
fn write_bad_query(
    alloc: Global,
    text: &mut ReplyText,
    front: u32,
    closing: bool,
) -> Result<(), AllocError>
    ensures { OnOk result
        (text.new ≡ json_reply 400 front closing (named_fault (codes "BadQuery"))) }
{
    let status = StatusCode::BAD_REQUEST;
    write_named(alloc, text, status, front, closing, "BadQuery")
}

/// The reply to a request that asks neither for an edit nor for a report (docs/RULES.md,
/// "Answers").
pub fn write_fixed(
    alloc: Global,
    text: &mut ReplyText,
    request: &FixedRequest,
    front: u32,
    closing: bool,
) -> Result<(), AllocError>
    ensures { OnOk result (text.new ≡ fixed_reply request.now front closing) }
{
    match request {
        FixedRequest::BadEdit(pointer) => {
            write_bad_edit(alloc, text, front, closing, pointer.as_str())
        }
        FixedRequest::BadQuery => write_bad_query(alloc, text, front, closing),
        FixedRequest::NoRoute => write_missing(alloc, text, front, closing, "NoRoute"),
        FixedRequest::NotAllowed(allowed) => write_method(alloc, text, *allowed, front, closing),
        FixedRequest::NoSheet => write_missing(alloc, text, front, closing, "NoSheet"),
        FixedRequest::NoSymbol => write_missing(alloc, text, front, closing, "NoSymbol"),
    }
}
