// The reply to one message.
ghost use Rattle.std.specs.Prelude.{◌≡◌};
ghost use Rattle.hall_server.specs.Services.{stand};
ghost use Rattle.hall_server.specs.steps.Pieces.{IsEditPiece, IsShownPiece, kind_written, piece_of};
ghost use Rattle.hall_server.specs.steps.Responding.{Declines, Responds, RespondsTo};
ghost use Rattle.web_requests.specs.Requests.{IsRequest};

use crate::reply_kind::ReplyKind;
use crate::service::Service;
use crate::shown::Shown;
use edit_entries::Entry;
use http::StatusCode;
use keeper_core::Reply;
use reports::{ReportFault, What};
use std::alloc::{AllocError, Global};
use web_heads::Message;
use web_requests::{
    FixedRequest, ReplyText, Request, Routes, no_entry_text, no_memory_text, request_of,
    write_behind, write_done, write_fault, write_fixed, write_named, write_report,
};

/// An answer, where there was memory for its text.
fn answered(written: Result<(), AllocError>) -> ReplyKind
    ensures { result ≡ kind_written written }
{
    match written {
        Ok(()) => ReplyKind::Answer,
        Err(_) => ReplyKind::NoMemory,
    }
}

/// Writes what came of an edit.
fn write_edit(alloc: Global, text: &mut ReplyText, reply: Reply, closing: bool) -> ReplyKind
    ensures { IsEditPiece reply closing (piece_of result text.new) result }
{
    match reply {
        Reply::Done {
            serial,
            first_id,
            front,
        }
        | Reply::Repeat {
            serial,
            first_id,
            front,
        } => answered(write_done(alloc, text, first_id, serial, front, closing)),
        Reply::Refused { fault, front } => {
            answered(write_fault(alloc, text, fault, front, closing))
        }
        Reply::KeeperFault { front } => {
            text.write_lost(front, closing);
            ReplyKind::Lost
        }
        Reply::NoEntry => ReplyKind::NoEntry,
        Reply::NoMemory => ReplyKind::NoMemory,
    }
}

/// Brings an entry, and writes what came of it.
fn respond_edit<S: Service>(
    alloc: Global,
    service: &mut S,
    entry: Entry,
    closing: bool,
    text: &mut ReplyText,
) -> ReplyKind
    ensures responds { Responds
        (stand (S.seen service.old) (S.losses service.old) (S.refusals service.old))
        (stand (S.seen service.new) (S.losses service.new) (S.refusals service.new))
        (Request.Edit entry) closing (piece_of result text.new) result }
    ensures same_reference { S.reference service.new ≡ S.reference service.old }
{
    let reply = service.edit(alloc, entry);
    write_edit(alloc, text, reply, closing)
}

/// Writes why there is no report.
fn write_no_report(
    alloc: Global,
    text: &mut ReplyText,
    fault: ReportFault,
    front: u32,
    closing: bool,
) -> ReplyKind
    ensures { IsShownPiece (Shown.Fault front fault) closing (piece_of result text.new) result }
{
    match fault {
        ReportFault::NoSheet => {
            answered(write_named(
                alloc,
                text,
                StatusCode::NOT_FOUND,
                front,
                closing,
                "NoSheet",
            ))
        }
        ReportFault::NoSymbol => {
            answered(write_named(
                alloc,
                text,
                StatusCode::NOT_FOUND,
                front,
                closing,
                "NoSymbol",
            ))
        }
        ReportFault::TooManyInstances => {
            let status = StatusCode::UNPROCESSABLE_ENTITY;
            answered(write_named(alloc, text, status, front, closing, "TooManyInstances"))
        }
        ReportFault::NoMemory => ReplyKind::NoMemory,
    }
}

/// Writes what a report comes to.
fn write_shown(alloc: Global, text: &mut ReplyText, shown: &Shown, closing: bool) -> ReplyKind
    ensures { IsShownPiece shown.now closing (piece_of result text.new) result }
{
    match shown {
        Shown::Text { front, body } => answered(write_report(text, *front, closing, body)),
        Shown::Behind { front } => answered(write_behind(alloc, text, *front, closing)),
        Shown::Fault { front, fault } => write_no_report(alloc, text, *fault, *front, closing),
        Shown::NoEntry => ReplyKind::NoEntry,
        Shown::NoMemory => ReplyKind::NoMemory,
    }
}

/// Asks for a report, and writes what it comes to.
fn respond_report<S: Service>(
    alloc: Global,
    service: &mut S,
    least: Option<u64>,
    what: &What,
    closing: bool,
    text: &mut ReplyText,
) -> ReplyKind
    ensures responds { Responds
        (stand (S.seen service.old) (S.losses service.old) (S.refusals service.old))
        (stand (S.seen service.new) (S.losses service.new) (S.refusals service.new))
        (Request.Report least what.now) closing (piece_of result text.new) result }
    ensures same_reference { S.reference service.new ≡ S.reference service.old }
{
    let shown = service.report(alloc, least, what);
    write_shown(alloc, text, &shown, closing)
}

/// Looks, and writes the reply to a request that asks neither for an edit nor for a report.
fn respond_fixed<S: Service>(
    alloc: Global,
    service: &mut S,
    request: &FixedRequest,
    closing: bool,
    text: &mut ReplyText,
) -> ReplyKind
    ensures responds { Responds
        (stand (S.seen service.old) (S.losses service.old) (S.refusals service.old))
        (stand (S.seen service.new) (S.losses service.new) (S.refusals service.new))
        (Request.Fixed request.now) closing (piece_of result text.new) result }
    ensures same_reference { S.reference service.new ≡ S.reference service.old }
{
    let front = service.front();
    answered(write_fixed(alloc, text, request, front, closing))
}

/// Looks, and writes the reply to an entry of a session as which its message does not speak.
fn decline<S: Service>(
    alloc: Global,
    service: &mut S,
    closing: bool,
    text: &mut ReplyText,
) -> ReplyKind
    ensures declines { Declines
        (stand (S.seen service.old) (S.losses service.old) (S.refusals service.old))
        (stand (S.seen service.new) (S.losses service.new) (S.refusals service.new))
        closing (piece_of result text.new) result }
    ensures same_reference { S.reference service.new ≡ S.reference service.old }
{
    let front = service.front();
    let status = StatusCode::FORBIDDEN;
    answered(write_named(alloc, text, status, front, closing, "NotYou"))
}

/// Answers a message that brings an entry, which it may where it speaks as the entry's session.
fn respond_entry<S: Service>(
    alloc: Global,
    service: &mut S,
    message: &Message,
    entry: Entry,
    closing: bool,
    text: &mut ReplyText,
) -> ReplyKind
    requires { IsRequest message.now.method message.now.target message.now.body
        (Request.Edit entry) }
    ensures responds { RespondsTo
        (stand (S.seen service.old) (S.losses service.old) (S.refusals service.old))
        (stand (S.seen service.new) (S.losses service.new) (S.refusals service.new))
        message.now closing (piece_of result text.new) result }
    ensures same_reference { S.reference service.new ≡ S.reference service.old }
{
    if !message.speaks_as(entry.session.as_str().as_bytes()) {
        drop(entry);
        return decline(alloc, service, closing, text);
    }
    respond_edit(alloc, service, entry, closing, text)
}

/// Answers a message: the kind of the reply, and its text where that is not a fixed one.
#[tactic(auto, using(crate::proofs::Responses::of_request))]
pub fn respond<S: Service>(
    alloc: Global,
    service: &mut S,
    routes: &Routes,
    message: &Message,
    closing: bool,
    text: &mut ReplyText,
) -> ReplyKind
    ensures responds { RespondsTo
        (stand (S.seen service.old) (S.losses service.old) (S.refusals service.old))
        (stand (S.seen service.new) (S.losses service.new) (S.refusals service.new))
        message.now closing (piece_of result text.new) result }
    ensures same_reference { S.reference service.new ≡ S.reference service.old }
{
    match request_of(
        alloc,
        routes,
        message.method(),
        message.target(),
        message.body(),
    ) {
        Ok(Request::Edit(entry)) => { respond_entry(alloc, service, message, entry, closing, text) }
        Ok(Request::Report { least, what }) => {
            respond_report(alloc, service, least, &what, closing, text)
        }
        Ok(Request::Fixed(request)) => respond_fixed(alloc, service, &request, closing, text),
        Err(_) => ReplyKind::NoMemory,
    }
}

/// The text of a reply of this kind.
pub fn piece<'a>(kind: ReplyKind, text: &'a ReplyText) -> &'a [u8]
    ensures { result.now ≡ piece_of kind text.now }
{
    match kind {
        ReplyKind::Answer | ReplyKind::Lost => text.as_slice(),
        ReplyKind::NoEntry => no_entry_text(),
        ReplyKind::NoMemory => no_memory_text(),
    }
}
