// The loop over the messages of a connection.
ghost use Rattle.std.specs.Prelude.{◌≡◌, ◌≢◌, ◌≤◌, []};
ghost use Rattle.geda_defs.specs.Causes.{HasRisen};
ghost use Rattle.hall_server.specs.Completeness.{CompletesConnection};
ghost use Rattle.hall_server.specs.Services.{stand};
ghost use Rattle.hall_server.specs.Connections.{Serves};
ghost use Rattle.hall_server.specs.Transcripts.{closes, end_reply, link_end};
ghost use Rattle.hall_server.specs.steps.Responding.{EndWrites};

use crate::link_end::LinkEnd;
use crate::respond::{piece, respond};
use crate::service::Service;
use std::alloc::{AllocError, Global};
use web_heads::{Access, Buffer, CutEnd, Link, Message, Next, next_message};
use web_requests::{ReplyText, Routes};

/// What a connection answers at an end.
fn as_link_end(end: CutEnd) -> LinkEnd
    ensures { result ≡ link_end end }
{
    match end {
        CutEnd::Closed => LinkEnd::Closed,
        CutEnd::CutShort => LinkEnd::CutShort,
        CutEnd::BadHead => LinkEnd::BadHead,
        CutEnd::LargeHead => LinkEnd::TooLarge,
        CutEnd::LargeBody => LinkEnd::TooLarge,
        CutEnd::Unsupported => LinkEnd::Unsupported,
        CutEnd::Foreign => LinkEnd::Foreign,
        CutEnd::Spent => LinkEnd::Spent,
    }
}

/// What is written at an end.
fn end_text(end: CutEnd) -> &'static [u8]
    ensures { result.now ≡ end_reply end }
{
    match end {
        CutEnd::Closed | CutEnd::CutShort | CutEnd::Spent => b"",
        CutEnd::BadHead => {
            b"HTTP/1.1 400 Bad Request\r\nContent-Type: application/json\r\n\
Connection: close\r\nContent-Length: 19\r\n\r\n{\"fault\":\"BadHead\"}"
        }
        CutEnd::LargeHead => {
            b"HTTP/1.1 431 Request Header Fields Too Large\r\nContent-Type: application/json\r\n\
Connection: close\r\nContent-Length: 20\r\n\r\n{\"fault\":\"TooLarge\"}"
        }
        CutEnd::LargeBody => {
            b"HTTP/1.1 413 Payload Too Large\r\nContent-Type: application/json\r\n\
Connection: close\r\nContent-Length: 20\r\n\r\n{\"fault\":\"TooLarge\"}"
        }
        CutEnd::Unsupported => {
            b"HTTP/1.1 501 Not Implemented\r\nContent-Type: application/json\r\n\
Connection: close\r\nContent-Length: 23\r\n\r\n{\"fault\":\"Unsupported\"}"
        }
        CutEnd::Foreign => {
            b"HTTP/1.1 403 Forbidden\r\nContent-Type: application/json\r\n\
Connection: close\r\nContent-Length: 19\r\n\r\n{\"fault\":\"Foreign\"}"
        }
    }
}

/// Writes what is written at an end.
fn finish<L: Link>(link: &mut L, end: CutEnd) -> LinkEnd
    ensures end { EndWrites (L.output link.old) (L.output link.new) end result }
    ensures input { L.input link.new ≡ L.input link.old }
    ensures later { L.read_faults link.old ≤ L.read_faults link.new }
    ensures cause { result ≡ LinkEnd.WriteFault →
        HasRisen (L.write_faults link.old) (L.write_faults link.new) }
    ensures not_read { result ≢ LinkEnd.ReadFault }
    ensures memory { result ≢ LinkEnd.NoMemory }
{
    let text = end_text(end);
    if text.is_empty() {
        return as_link_end(end);
    }
    match link.write(text) {
        Ok(()) => as_link_end(end),
        Err(_) => LinkEnd::WriteFault,
    }
}

/// Whether the reply says close: the message does, or it is the 10,000th.
fn is_closing(message: &Message, turn: u32) -> bool
    ensures { result ≡ closes turn message.now }
{
    message.closing() || turn == 9_999
}

/// Answers the messages one after the other.
fn serve_messages<S: Service, L: Link>(
    alloc: Global,
    service: &mut S,
    link: &mut L,
    access: &Access,
    routes: &Routes,
    buffer: &mut Buffer,
    message: &mut Message,
    text: &mut ReplyText,
) -> LinkEnd
    requires { buffer.old ≡ [] }
    ensures serves { Serves access.now
        (stand (S.seen service.old) (S.losses service.old) (S.refusals service.old))
        (stand (S.seen service.new) (S.losses service.new) (S.refusals service.new))
        (L.input link.old) (L.input link.new) (L.output link.old) (L.output link.new) result }
    ensures read_cause { result ≡ LinkEnd.ReadFault →
        HasRisen (L.read_faults link.old) (L.read_faults link.new) }
    ensures write_cause { result ≡ LinkEnd.WriteFault →
        HasRisen (L.write_faults link.old) (L.write_faults link.new) }
    ensures memory { result ≢ LinkEnd.NoMemory }
    ensures same_reference { S.reference service.new ≡ S.reference service.old }
{
    for turn in 0..10_000u32 {
        match next_message(link, buffer, access, message) {
            Next::Message => {}
            Next::End(end) => return finish(link, end),
            Next::Fault => return LinkEnd::ReadFault,
        }
        let closing = is_closing(message, turn);
        let kind = respond(alloc, service, routes, message, closing, text);
        match link.write(piece(kind, text)) {
            Ok(()) => {}
            Err(_) => return LinkEnd::WriteFault,
        }
        if message.closing() {
            return LinkEnd::Closed;
        }
    }
    LinkEnd::Spent
}

/// Memory that links are served in, one after the other.
#[derive(Drop)]
pub(crate) struct LinkMemory {
    routes: Routes,
    buffer: Buffer,
    message: Message,
    text: ReplyText,
}

impl LinkMemory {
    /// Memory for one link at a time.
    pub fn new(alloc: Global) -> Result<LinkMemory, AllocError> {
        Ok(LinkMemory {
            routes: Routes::new(alloc)?,
            buffer: Buffer::new(alloc)?,
            message: Message::new(alloc)?,
            text: ReplyText::new(alloc)?,
        })
    }
}

/// Answers the messages of a link as `serve_requests` does, in memory that there is.
pub(crate) fn serve_requests_with<S: Service, L: Link>(
    alloc: Global,
    service: &mut S,
    access: &Access,
    memory: &mut LinkMemory,
    link: &mut L,
) -> LinkEnd
    // what was answered, and how it ended
    ensures serves { Serves access.now
        (stand (S.seen service.old) (S.losses service.old) (S.refusals service.old))
        (stand (S.seen service.new) (S.losses service.new) (S.refusals service.new))
        (L.input link.old) (L.input link.new) (L.output link.old) (L.output link.new) result }
    // the causes of the ends that are none of the input
    ensures read_cause { result ≡ LinkEnd.ReadFault →
        HasRisen (L.read_faults link.old) (L.read_faults link.new) }
    ensures write_cause { result ≡ LinkEnd.WriteFault →
        HasRisen (L.write_faults link.old) (L.write_faults link.new) }
    ensures no_memory { result ≢ LinkEnd.NoMemory }
    // what was lent to the service is what was served
    ensures same_reference { S.reference service.new ≡ S.reference service.old }
    // all was answered where nothing failed
    ensures complete { CompletesConnection access.now
        (stand (S.seen service.old) (S.losses service.old) (S.refusals service.old))
        (stand (S.seen service.new) (S.losses service.new) (S.refusals service.new))
        (L.read_faults link.old) (L.read_faults link.new)
        (L.write_faults link.old) (L.write_faults link.new)
        (L.input link.old) (L.output link.old) (L.output link.new) result }
{
    memory.buffer.clear();
    let end = serve_messages(
        alloc,
        service,
        link,
        access,
        &memory.routes,
        &mut memory.buffer,
        &mut memory.message,
        &mut memory.text,
    );
    memory.text.clear();
    end
}

/// Answers the messages of a link in order until it ends, at most 10,000 (docs/RULES.md,
/// "Transcripts" and "Ends of connections"). It waits for the link.
///
/// `access` says which heads are let in, and as whom a message speaks ("Foreign heads", "Users").
/// Each reply is what `service` makes of the request, byte for byte, for a prefix of what it has
/// seen in the end; the prefixes never shrink. It is one write. After `NoMemory` nothing was read
/// or written, and what was seen is as before.
pub fn serve_requests<S: Service, L: Link>(
    alloc: Global,
    service: &mut S,
    access: &Access,
    link: &mut L,
) -> LinkEnd
    // what was answered, and how it ended
    ensures serves { Serves access.now
        (stand (S.seen service.old) (S.losses service.old) (S.refusals service.old))
        (stand (S.seen service.new) (S.losses service.new) (S.refusals service.new))
        (L.input link.old) (L.input link.new) (L.output link.old) (L.output link.new) result }
    // the causes of the ends that are none of the input
    ensures read_cause { result ≡ LinkEnd.ReadFault →
        HasRisen (L.read_faults link.old) (L.read_faults link.new) }
    ensures write_cause { result ≡ LinkEnd.WriteFault →
        HasRisen (L.write_faults link.old) (L.write_faults link.new) }
    ensures no_memory { result ≡ LinkEnd.NoMemory → S.seen service.new ≡ S.seen service.old }
    // what was lent to the service is what was served
    ensures same_reference { S.reference service.new ≡ S.reference service.old }
    // all was answered where nothing failed
    ensures complete { CompletesConnection access.now
        (stand (S.seen service.old) (S.losses service.old) (S.refusals service.old))
        (stand (S.seen service.new) (S.losses service.new) (S.refusals service.new))
        (L.read_faults link.old) (L.read_faults link.new)
        (L.write_faults link.old) (L.write_faults link.new)
        (L.input link.old) (L.output link.old) (L.output link.new) result }
{
    let Ok(mut memory) = LinkMemory::new(alloc) else {
        return LinkEnd::NoMemory;
    };
    serve_requests_with(alloc, service, access, &mut memory, link)
}
