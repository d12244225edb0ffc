// What the gateway answers.
ghost use Rattle.std.specs.Prelude.{◌≡◌, option_and_then};
ghost use Rattle.base64.specs.Engines.{standard};
ghost use Rattle.base64.specs.GeneralPurpose.{decoded_of};
ghost use Rattle.serde_json.specs.View.{view};
ghost use Rattle.etcd_text.specs.Answers as answers;
ghost use Rattle.etcd_text.specs.Answers.{TakesAnswer, answer_value};

use crate::values::{document, has, has_succeeded, is_token, number_under, string_under};
use base64::DecodeAllocError;
use base64::engine::general_purpose::STANDARD;
use engine_core::{Body, EngineFault, Owner, Taken};
use serde_json::Value;
use std::alloc::Global;

/// What an answer says, or that it is none.
fn said<X>(found: Option<X>) -> Result<X, EngineFault>
    ensures { TakesAnswer result found }
{
    match found {
        Some(x) => Ok(x),
        None => Err(EngineFault::NoAnswer),
    }
}

/// The revision of the header.
fn revision(value: &Value) -> Option<u64>
    ensures { result ≡ answers.revision_of (view value.now) }
{
    number_under(value, "/header/revision")
}

/// Whether a row was put.
fn put_in(value: &Value) -> Option<bool>
    ensures { result ≡ answers.put_in (view value.now) }
{
    let _ = revision(value)?;
    Some(has_succeeded(value))
}

/// How many rows the range of an answer has.
fn range_rows(value: &Value) -> Option<u32>
    ensures { result ≡ answers.range_rows (view value.now) }
{
    if has(value, "/responses/1/response_range/count") {
        let count = number_under(value, "/responses/1/response_range/count")?;
        return u32::try_from(count).ok();
    }
    if has(value, "/responses/1/response_range") {
        return Some(0);
    }
    None
}

/// What a taking that was done tells.
fn taken_in(value: &Value) -> Option<Taken>
    ensures { result ≡ answers.taken_at (answers.revision_of (view value.now))
        (answers.range_rows (view value.now)) }
{
    let fence = revision(value)?;
    let count = range_rows(value)?;
    Some(Taken { fence, count })
}

/// What a taking tells.
fn taking_in(value: &Value) -> Option<Option<Taken>>
    ensures { result ≡ answers.taking_in (view value.now) }
{
    if has_succeeded(value) {
        return Some(Some(taken_in(value)?));
    }
    let _ = revision(value)?;
    Some(None)
}

/// The owner's key that is there.
fn found_owner(value: &Value, token: &str) -> Option<Owner>
    ensures { result ≡ answers.found_owner token.now (view value.now) }
{
    let fence = number_under(value, "/kvs/0/mod_revision")?;
    let ours = is_token(value, token);
    Some(Owner { fence, ours })
}

/// What an answer says of the owner's key.
fn owner_in(value: &Value, token: &str) -> Option<Owner>
    ensures { result ≡ answers.owner_in token.now (view value.now) }
{
    let _ = revision(value)?;
    if has(value, "/kvs") {
        return found_owner(value, token);
    }
    Some(Owner {
        fence: 0,
        ours: false,
    })
}

/// The bytes of a row, which are in base64.
fn decoded_row(alloc: Global, text: &[u8]) -> Result<Body, EngineFault>
    ensures { TakesAnswer result (decoded_of standard text.now) }
{
    match STANDARD.decode(alloc, text) {
        Ok(bytes) => Ok(Body::new(bytes)),
        Err(DecodeAllocError::DecodeError(_)) => Err(EngineFault::NoAnswer),
        Err(DecodeAllocError::OutOfMemory) => Err(EngineFault::NoMemory),
    }
}

/// The row that is there.
fn found_row(alloc: Global, value: &Value) -> Result<Body, EngineFault>
    ensures { TakesAnswer result (answers.found_row (view value.now)) }
{
    match string_under(value, "/kvs/0/value") {
        Some(text) => decoded_row(alloc, text.as_bytes()),
        None => Err(EngineFault::NoAnswer),
    }
}

/// What an answer says of a row.
fn row_in(alloc: Global, value: &Value) -> Result<Option<Body>, EngineFault>
    ensures { TakesAnswer result (answers.row_in (view value.now)) }
{
    if revision(value).is_none() {
        return Err(EngineFault::NoAnswer);
    }
    if !has(value, "/kvs") {
        return Ok(None);
    }
    match found_row(alloc, value) {
        Ok(row) => Ok(Some(row)),
        Err(fault) => Err(fault),
    }
}

/// Whether a row was put, where the answer has the revision of its header.
///
/// `NoAnswer` exactly where it has none, and then nothing is known of the row.
pub fn read_put(alloc: Global, body: &[u8]) -> Result<bool, EngineFault>
    ensures { TakesAnswer result (option_and_then answers.put_in (answer_value body.now)) }
{
    let value = document(alloc, body)?;
    let found = put_in(&value);
    drop(value);
    said(found)
}

/// What a taking tells, where the answer has the revision of its header and, where the key was put,
/// the rows.
///
/// `NoAnswer` exactly where it has not, and then nothing is known of the key.
pub fn read_taking(alloc: Global, body: &[u8]) -> Result<Option<Taken>, EngineFault>
    ensures { TakesAnswer result (option_and_then answers.taking_in (answer_value body.now)) }
{
    let value = document(alloc, body)?;
    let found = taking_in(&value);
    drop(value);
    said(found)
}

/// The owner's key, which is ours where this token put it.
///
/// `NoAnswer` exactly where the answer has not the revision of its header, or has a key without its
/// own.
pub fn read_owner(alloc: Global, body: &[u8], token: &str) -> Result<Owner, EngineFault>
    ensures { TakesAnswer result
        (option_and_then (answers.owner_in token.now) (answer_value body.now)) }
{
    let value = document(alloc, body)?;
    let found = owner_in(&value, token);
    drop(value);
    said(found)
}

/// A row; `None` where there is none.
///
/// `NoAnswer` exactly where the answer has not the revision of its header, or has a row whose bytes
/// are not there in base64.
pub fn read_row(alloc: Global, body: &[u8]) -> Result<Option<Body>, EngineFault>
    ensures { TakesAnswer result (option_and_then answers.row_in (answer_value body.now)) }
{
    let value = document(alloc, body)?;
    let found = row_in(alloc, &value);
    drop(value);
    found
}
