// The next message of a connection.
ghost use Rattle.std.specs.Prelude.{◌≡◌, ◌≢◌, ◌<◌, ◌≤◌, ℕ, List, Option, [], ◌++◌, length, drop};
ghost use Rattle.httparse.specs.Spans.{span_bytes};
ghost use Rattle.geda_defs.specs.Causes.{HasRisen};
ghost use Rattle.web_heads.specs.Accesses.{AccessData};
ghost use Rattle.web_heads.specs.Messages.{Nexts};
ghost use Rattle.web_heads.specs.steps.Reading.{FillsEmpty, IsBodyNext, IsHeadNext, IsUserWithin};
ghost use Rattle.web_heads.specs.steps.Reading.{IsWhole, MovesSome, NextHead, SameHead, user_at};

use crate::access::Access;
use crate::buffer::{Buffer, Filled};
use crate::cut_end::CutEnd;
use crate::heads::{Head, Judged, Speaker, judge};
use crate::link::{Link, Part};
use crate::message::Message;

/// What comes next of a connection.
#[derive(Clone, Copy, Debug)]
pub enum Next {
    /// A whole message.
    Message,
    /// No further message, for this reason.
    End(CutEnd),
    /// A read failed.
    Fault,
}

/// The next head.
#[derive(Clone, Copy, Debug)]
pub enum HeadNext {
    /// A whole head.
    Whole(Head),
    /// The end.
    End(CutEnd),
    /// A read failed.
    Fault,
}

/// The next body.
#[derive(Clone, Copy, Debug)]
pub enum BodyNext {
    /// All of it.
    Whole,
    /// The end of the input.
    End,
    /// A read failed.
    Fault,
}

/// What stands at the front of 8,192 bytes.
fn full_head(buffer: &Buffer, access: &Access) -> HeadNext
    requires { 8192 ≤ length buffer.now }
    ensures next { (after : Option (List ℕ)) → IsHeadNext access.now after buffer.now result }
    ensures no_fault { result ≢ HeadNext.Fault }
{
    match judge(buffer.bytes(), access.hosts(), access.user()) {
        Judged::Whole(head) => HeadNext::Whole(head),
        Judged::Refused(end) => HeadNext::End(end),
        Judged::Open => HeadNext::End(CutEnd::LargeHead),
    }
}

/// Reads on until it is known what stands at the front.
fn next_head<L: Link>(link: &mut L, buffer: &mut Buffer, access: &Access) -> HeadNext
    ensures next { NextHead access.now (L.input link.old) (L.input link.new) buffer.old buffer.new result }
    ensures output { L.output link.new ≡ L.output link.old }
    ensures later { L.read_faults link.old ≤ L.read_faults link.new }
    ensures write_later { L.write_faults link.old ≤ L.write_faults link.new }
    ensures cause { result ≡ HeadNext.Fault →
        HasRisen (L.read_faults link.old) (L.read_faults link.new) }
{
    while buffer.bytes().len() < 8192 {
        match judge(buffer.bytes(), access.hosts(), access.user()) {
            Judged::Whole(head) => return HeadNext::Whole(head),
            Judged::Refused(end) => return HeadNext::End(end),
            Judged::Open => {}
        }
        match buffer.fill(link) {
            Filled::More => {}
            Filled::End if buffer.bytes().is_empty() => return HeadNext::End(CutEnd::Closed),
            Filled::End => return HeadNext::End(CutEnd::CutShort),
            Filled::Fault => return HeadNext::Fault,
        }
    }
    full_head(buffer, access)
}

/// Has a message speak as these bytes say.
fn name_user(message: &mut Message, bytes: &[u8], speaker: Speaker)
    requires few { length bytes.now ≤ 8192 }
    requires within { IsUserWithin (length bytes.now) speaker }
    ensures { message.new ≡ record message.old { user = user_at bytes.now speaker } }
{
    match speaker {
        Speaker::Anyone => message.speak_as_anyone(),
        Speaker::Nobody => message.speak_as_nobody(),
        Speaker::User(place) => message.speak_as(place.of(bytes)),
    }
}

/// Begins the message of a head, and drops the bytes of the head.
fn begin_message(buffer: &mut Buffer, message: &mut Message, head: &Head)
    requires { (access : AccessData) × IsWhole access buffer.old head.now }
    ensures rest { buffer.new ≡ drop head.now.len buffer.old }
    ensures message { message.new ≡ record {
      method = span_bytes buffer.old head.now.method;
      target = span_bytes buffer.old head.now.target;
      body = [];
      closing = head.now.closing;
      user = user_at buffer.old head.now.speaker;
    } }
{
    let bytes = buffer.bytes();
    let target = str::from_utf8(head.target.of(bytes)).unwrap();
    message.begin(head.method.of(bytes), target, head.closing);
    name_user(message, bytes, head.speaker);
    buffer.skip(head.len);
}

/// Moves bytes to the body, as many as there are and belong to it.
fn move_bytes(buffer: &mut Buffer, message: &mut Message, size: usize)
    requires some { 0 < length buffer.old }
    requires short { length message.old.body < size }
    requires few { size ≤ 4194304 }
    ensures same { message.old.body ++ buffer.old ≡ message.new.body ++ buffer.new }
    ensures more { length message.old.body < length message.new.body }
    ensures fits { length message.new.body ≤ size }
    ensures head { SameHead message.old message.new }
{
    let bytes = buffer.bytes();
    let count = bytes.len().min(size - message.body_len());
    message.push(&bytes[..count]);
    buffer.skip(count);
}

/// Reads where no bytes are left.
fn fill_empty<L: Link>(link: &mut L, buffer: &mut Buffer) -> Filled
    ensures input { FillsEmpty (L.input link.old) (L.input link.new)
        buffer.old buffer.new result }
    ensures output { L.output link.new ≡ L.output link.old }
    ensures later { L.read_faults link.old ≤ L.read_faults link.new }
    ensures write_later { L.write_faults link.old ≤ L.write_faults link.new }
    ensures cause { result ≡ Filled.Fault →
        HasRisen (L.read_faults link.old) (L.read_faults link.new) }
{
    if buffer.bytes().is_empty() {
        return buffer.fill(link);
    }
    Filled::More
}

/// Reads on until the body is whole, of which the link was told.
fn fill_body<L: Link>(
    link: &mut L,
    buffer: &mut Buffer,
    message: &mut Message,
    size: usize,
) -> BodyNext
    requires empty { message.old.body ≡ [] }
    requires few { size ≤ 4194304 }
    ensures moves { MovesSome (L.input link.old) (L.input link.new)
        buffer.old message.new.body buffer.new }
    ensures next { IsBodyNext (L.input link.new) message.new.body buffer.new size result }
    ensures head { SameHead message.old message.new }
    ensures output { L.output link.new ≡ L.output link.old }
    ensures later { L.read_faults link.old ≤ L.read_faults link.new }
    ensures write_later { L.write_faults link.old ≤ L.write_faults link.new }
    ensures cause { result ≡ BodyNext.Fault →
        HasRisen (L.read_faults link.old) (L.read_faults link.new) }
{
    while message.body_len() < size {
        match fill_empty(link, buffer) {
            Filled::More => move_bytes(buffer, message, size),
            Filled::End => return BodyNext::End,
            Filled::Fault => return BodyNext::Fault,
        }
    }
    BodyNext::Whole
}

/// Reads on until the body is whole.
fn read_body<L: Link>(
    link: &mut L,
    buffer: &mut Buffer,
    message: &mut Message,
    size: usize,
) -> BodyNext
    requires empty { message.old.body ≡ [] }
    requires few { size ≤ 4194304 }
    ensures moves { MovesSome (L.input link.old) (L.input link.new)
        buffer.old message.new.body buffer.new }
    ensures next { IsBodyNext (L.input link.new) message.new.body buffer.new size result }
    ensures head { SameHead message.old message.new }
    ensures output { L.output link.new ≡ L.output link.old }
    ensures later { L.read_faults link.old ≤ L.read_faults link.new }
    ensures write_later { L.write_faults link.old ≤ L.write_faults link.new }
    ensures cause { result ≡ BodyNext.Fault →
        HasRisen (L.read_faults link.old) (L.read_faults link.new) }
{
    link.begin(Part::Body);
    fill_body(link, buffer, message, size)
}

/// Reads on until the next message is whole, from the part of it that is there.
fn read_message<L: Link>(
    link: &mut L,
    buffer: &mut Buffer,
    access: &Access,
    message: &mut Message,
) -> Next
    ensures next { Nexts access.now (L.input link.old) (L.input link.new)
        buffer.old message.new buffer.new result }
    ensures output { L.output link.new ≡ L.output link.old }
    ensures later { L.read_faults link.old ≤ L.read_faults link.new }
    ensures write_later { L.write_faults link.old ≤ L.write_faults link.new }
    ensures cause { result ≡ Next.Fault →
        HasRisen (L.read_faults link.old) (L.read_faults link.new) }
{
    let head = match next_head(link, buffer, access) {
        HeadNext::Whole(head) => head,
        HeadNext::End(end) => return Next::End(end),
        HeadNext::Fault => return Next::Fault,
    };
    begin_message(buffer, message, &head);
    match read_body(link, buffer, message, head.body) {
        BodyNext::Whole => Next::Message,
        BodyNext::End => Next::End(CutEnd::CutShort),
        BodyNext::Fault => Next::Fault,
    }
}

/// What is read first of a message, of which these bytes are there.
fn first_part(buffer: &Buffer) -> Part {
    if buffer.bytes().is_empty() {
        return Part::Message;
    }
    Part::Head
}

/// Reads on until the next message is whole (docs/RULES.md, "Messages"). It takes no memory, and
/// waits for the link.
///
/// `access` says which heads are let in, and as whom the message speaks. The link is told which part
/// each read is for. The bytes behind the message stay in the buffer.
/// `End` tells why no message follows; what follows such an end is not looked at. `Fault` only where
/// the link's count of failed reads rose; no whole message has come then.
pub fn next_message<L: Link>(
    link: &mut L,
    buffer: &mut Buffer,
    access: &Access,
    message: &mut Message,
) -> Next
    ensures next { Nexts access.now (L.input link.old) (L.input link.new)
        buffer.old message.new buffer.new result }
    ensures output { L.output link.new ≡ L.output link.old }
    ensures later { L.read_faults link.old ≤ L.read_faults link.new }
    ensures write_later { L.write_faults link.old ≤ L.write_faults link.new }
    ensures cause { result ≡ Next.Fault →
        HasRisen (L.read_faults link.old) (L.read_faults link.new) }
{
    link.begin(first_part(buffer));
    read_message(link, buffer, access, message)
}
