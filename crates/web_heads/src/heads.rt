// Heads of messages.
ghost use Rattle.std.specs.Prelude.{◌≡◌, ◌≤◌, ◌&&◌, [], ◌∷◌, All, length, map, codes};
ghost use Rattle.std.specs.Prelude.{option_copied};
ghost use Rattle.std.specs.String.{string_bytes};
ghost use Rattle.std.specs.List.{list_any};
ghost use Rattle.httparse.specs.Spans.{IsHeaderWithin, IsRequestOf, IsRequestWithin, header_bytes};
ghost use Rattle.web_heads.specs.Heads.{is_close, is_foreign, is_named, is_other_host};
ghost use Rattle.web_heads.specs.Heads.{length_among, length_said, user_named, values_named};
ghost use Rattle.web_heads.specs.steps.Reading.{AreNamed, IsUserWithin, Judges, user_at};
ghost use Rattle.web_heads.specs.Accesses.{access_with};

use crate::access::{host_of, is_own_host};
use crate::cut_end::CutEnd;
use crate::digits::short_number;
use httparse::spans::{EMPTY_HEADER_SPAN, HeaderSpan, RequestSpans, Span, parse_request};
use httparse::{Error, Status};

/// A whole head, by where its parts lie.
#[derive(Clone, Copy, Debug)]
pub struct Head {
    /// The method.
    pub method: Span,
    /// The target.
    pub target: Span,
    /// How many bytes the head has.
    pub len: usize,
    /// How many bytes of body follow it.
    pub body: usize,
    /// Whether the connection closes after the message.
    pub closing: bool,
    /// As whom it speaks.
    pub speaker: Speaker,
}

/// As whom a head speaks.
#[derive(Clone, Copy, Debug)]
pub enum Speaker {
    /// As anyone: no header is to say it.
    Anyone,
    /// As nobody: the header is not there, or there are several.
    Nobody,
    /// As the user whose name lies there.
    User(Span),
}

/// The values of a name in a head.
#[derive(Clone, Copy, Debug)]
enum Named {
    /// There is none.
    Nowhere,
    /// There is one, at this place.
    Once(Span),
    /// There are several.
    Often,
}

/// What stands at the front of some bytes.
#[derive(Clone, Copy, Debug)]
pub enum Judged {
    /// A head.
    Whole(Head),
    /// No head yet, and further bytes may make one.
    Open,
    /// What no message can come of.
    Refused(CutEnd),
}

/// Whether a header has this name, which is given in lower case.
fn has_name(bytes: &[u8], header: &HeaderSpan, name: &[u8]) -> bool
    requires { IsHeaderWithin (length bytes.now) header.now }
    ensures { result ≡ is_named name.now (header_bytes bytes.now header.now) }
{
    header.name.of(bytes).eq_ignore_ascii_case(name)
}

/// Whether some header has this name.
fn has_header(bytes: &[u8], headers: &[HeaderSpan], name: &[u8]) -> bool
    requires { All (IsHeaderWithin (length bytes.now)) headers.now }
    ensures { result ≡ list_any (is_named name.now) (map (header_bytes bytes.now) headers.now) }
{
    for header in headers {
        if has_name(bytes, header, name) {
            return true;
        }
    }
    false
}

/// The values of the headers of this name.
fn values_named(bytes: &[u8], headers: &[HeaderSpan], name: &[u8]) -> Named
    requires { All (IsHeaderWithin (length bytes.now)) headers.now }
    ensures { AreNamed bytes.now result
        (values_named name.now (map (header_bytes bytes.now) headers.now)) }
{
    let mut found: Option<Span> = None;
    for header in headers {
        if !has_name(bytes, header, name) {
            continue;
        }
        if found.is_some() {
            return Named::Often;
        }
        found = Some(header.value);
    }
    match found {
        None => Named::Nowhere,
        Some(value) => Named::Once(value),
    }
}

/// Whether the values of Host name another host than these and the local ones.
fn has_other_host(bytes: &[u8], headers: &[HeaderSpan], hosts: &[String]) -> bool
    requires { All (IsHeaderWithin (length bytes.now)) headers.now }
    ensures { result ≡ is_other_host (map string_bytes hosts.now)
        (values_named (codes "host") (map (header_bytes bytes.now) headers.now)) }
{
    match values_named(bytes, headers, b"host") {
        Named::Nowhere => false,
        Named::Once(value) => !is_own_host(hosts, host_of(value.of(bytes))),
        Named::Often => true,
    }
}

/// Whether a head is foreign, where these hosts are answered.
fn is_foreign(bytes: &[u8], headers: &[HeaderSpan], hosts: &[String]) -> bool
    requires { All (IsHeaderWithin (length bytes.now)) headers.now }
    ensures { result ≡ is_foreign (map string_bytes hosts.now)
        (map (header_bytes bytes.now) headers.now) }
{
    if hosts.is_empty() {
        return false;
    }
    if has_header(bytes, headers, b"origin") {
        return true;
    }
    has_other_host(bytes, headers, hosts)
}

/// As whom a head speaks, where the header of this name says it if there is such a name.
fn speaker_of(bytes: &[u8], headers: &[HeaderSpan], name: Option<&str>) -> Speaker
    requires { All (IsHeaderWithin (length bytes.now)) headers.now }
    ensures within { IsUserWithin (length bytes.now) result }
    ensures user { user_at bytes.now result ≡ user_named (option_copied name.entry)
        (map (header_bytes bytes.now) headers.now) }
{
    let Some(name) = name else {
        return Speaker::Anyone;
    };
    match values_named(bytes, headers, name.as_bytes()) {
        Named::Once(value) => Speaker::User(value),
        Named::Nowhere | Named::Often => Speaker::Nobody,
    }
}

/// Whether a header is `Connection: close`.
fn closes(bytes: &[u8], header: &HeaderSpan) -> bool
    requires { IsHeaderWithin (length bytes.now) header.now }
    ensures { result ≡ (is_named (codes "connection") (header_bytes bytes.now header.now)
        && is_close (header_bytes bytes.now header.now).1) }
{
    if !has_name(bytes, header, b"connection") {
        return false;
    }
    header.value.of(bytes).eq_ignore_ascii_case(b"close")
}

/// Whether a value of Connection is `close`.
#[tactic(auto, using(crate::proofs::Lengths::some_close, crate::proofs::Lengths::no_close))]
fn has_close(bytes: &[u8], headers: &[HeaderSpan]) -> bool
    requires { All (IsHeaderWithin (length bytes.now)) headers.now }
    ensures { result ≡ list_any is_close
        (values_named (codes "connection") (map (header_bytes bytes.now) headers.now)) }
{
    for header in headers {
        if closes(bytes, header) {
            return true;
        }
    }
    false
}

/// The length that one value of Content-Length says.
fn length_in(value: &[u8]) -> Result<usize, CutEnd>
    ensures { result ≡ length_said (value.now ∷ []) }
{
    let Some(number) = short_number(value) else {
        return Err(CutEnd::BadHead);
    };
    if number > 4_194_304 {
        return Err(CutEnd::LargeBody);
    }
    Ok(number as usize)
}

/// What the values of Content-Length say.
fn content_length(bytes: &[u8], headers: &[HeaderSpan]) -> Result<usize, CutEnd>
    requires { All (IsHeaderWithin (length bytes.now)) headers.now }
    ensures { result ≡ length_said
        (values_named (codes "content-length") (map (header_bytes bytes.now) headers.now)) }
{
    let mut found: Option<&[u8]> = None;
    for header in headers {
        if !has_name(bytes, header, b"content-length") {
            continue;
        }
        let value = header.value.of(bytes);
        match found {
            None => found = Some(value),
            Some(first) if first != value => return Err(CutEnd::BadHead),
            Some(_) => {}
        }
    }
    match found {
        None => Ok(0),
        Some(value) => length_in(value),
    }
}

/// How many bytes of body follow a head, or why no message comes of it.
fn body_length(bytes: &[u8], headers: &[HeaderSpan], hosts: &[String]) -> Result<usize, CutEnd>
    requires { All (IsHeaderWithin (length bytes.now)) headers.now }
    ensures { result ≡ length_among (map string_bytes hosts.now)
        (map (header_bytes bytes.now) headers.now) }
{
    if has_header(bytes, headers, b"transfer-encoding") {
        return Err(CutEnd::Unsupported);
    }
    if is_foreign(bytes, headers, hosts) {
        return Err(CutEnd::Foreign);
    }
    content_length(bytes, headers)
}

/// What a whole head says.
fn judge_whole(
    bytes: &[u8],
    headers: &[HeaderSpan],
    spans: &RequestSpans,
    hosts: &[String],
    user: Option<&str>,
) -> Judged
    requires short { length bytes.now ≤ 8192 }
    requires few { length headers.now ≤ 32 }
    requires within { IsRequestWithin bytes.now headers.now spans.now }
    requires head { IsRequestOf bytes.now headers.now spans.now }
    ensures { Judges (access_with (map string_bytes hosts.now) (option_copied user.entry))
        bytes.now result }
{
    let named = &headers[..spans.headers];
    let closing = spans.version == 0 || has_close(bytes, named);
    match body_length(bytes, named, hosts) {
        Ok(body) => Judged::Whole(Head {
            method: spans.method,
            target: spans.path,
            len: spans.len,
            body,
            closing,
            speaker: speaker_of(bytes, named, user),
        }),
        Err(end) => Judged::Refused(end),
    }
}

/// What stands at the front of some bytes, where these hosts are answered beside the local ones,
/// and the header of this name names the user (docs/RULES.md, "Messages").
pub fn judge(bytes: &[u8], hosts: &[String], user: Option<&str>) -> Judged
    requires { length bytes.now ≤ 8192 }
    ensures { Judges (access_with (map string_bytes hosts.now) (option_copied user.entry))
        bytes.now result }
{
    let mut headers = [EMPTY_HEADER_SPAN; 32];
    match parse_request(bytes, &mut headers) {
        Ok(Status::Complete(spans)) => judge_whole(bytes, &headers, &spans, hosts, user),
        Ok(Status::Partial) => Judged::Open,
        Err(Error::TooManyHeaders) => Judged::Refused(CutEnd::LargeHead),
        Err(_) => Judged::Refused(CutEnd::BadHead),
    }
}
