// The bodies of replies in JSON.
ghost use Rattle.std.specs.Prelude.{◌≡◌, IfOk};
ghost use Rattle.std.specs.String.{string_bytes};
ghost use Rattle.serde_json.specs.View.{view};
ghost use Rattle.serde_json.specs.Written.{compact_text};
ghost use Rattle.web_requests.specs.Bodies.{bad_edit, bad_text_fault, done_entry, fault_data};
ghost use Rattle.web_requests.specs.Bodies.{named_fault, numbered_fault};

use edit_entries::EditFault;
use serde_json::{Value, json};
use std::alloc::{AllocError, Global};

/// A fault by its name, as a value.
fn named_value(alloc: Global, name: &str) -> Result<Value, AllocError>
    ensures { IfOk result (λ v. view v ≡ named_fault name.now) }
{
    json!(in alloc; {"fault": name})
}

/// A fault by its name.
pub fn named_body(alloc: Global, name: &str) -> Result<String, AllocError>
    ensures { IfOk result (λ s. string_bytes s ≡ compact_text (named_fault name.now)) }
{
    let value = named_value(alloc, name)?;
    value.to_string(alloc)
}

/// A fault by its name and a number, as a value.
fn numbered_value(alloc: Global, name: &str, key: &str, number: u32) -> Result<Value, AllocError>
    ensures { IfOk result (λ v. view v ≡ numbered_fault name.now key.now number) }
{
    json!(in alloc; {"fault": name, (key): u64::from(number)})
}

/// A fault by its name and a number.
pub fn numbered_body(
    alloc: Global,
    name: &str,
    key: &str,
    number: u32,
) -> Result<String, AllocError>
    ensures { IfOk result
        (λ s. string_bytes s ≡ compact_text (numbered_fault name.now key.now number)) }
{
    let value = numbered_value(alloc, name, key, number)?;
    value.to_string(alloc)
}

/// A text that the reader refuses, as a value.
fn text_value(alloc: Global, kind: &str, line: u32) -> Result<Value, AllocError>
    ensures { IfOk result (λ v. view v ≡ bad_text_fault kind.now line) }
{
    json!(in alloc; {"fault": "BadText", "line": u64::from(line), "read": kind})
}

/// A text that the reader refuses.
fn text_body(alloc: Global, kind: &str, line: u32) -> Result<String, AllocError>
    ensures { IfOk result (λ s. string_bytes s ≡ compact_text (bad_text_fault kind.now line)) }
{
    let value = text_value(alloc, kind, line)?;
    value.to_string(alloc)
}

/// A body that is no entry, as a value.
fn pointed_value(alloc: Global, pointer: &str) -> Result<Value, AllocError>
    ensures { IfOk result (λ v. view v ≡ bad_edit pointer.now) }
{
    json!(in alloc; {"fault": "BadEdit", "pointer": pointer})
}

/// A body that is no entry.
pub fn pointed_body(alloc: Global, pointer: &str) -> Result<String, AllocError>
    ensures { IfOk result (λ s. string_bytes s ≡ compact_text (bad_edit pointer.now)) }
{
    let value = pointed_value(alloc, pointer)?;
    value.to_string(alloc)
}

/// An entry that stands in the history, as a value.
fn done_value(alloc: Global, first_id: u32, serial: u32) -> Result<Value, AllocError>
    ensures { IfOk result (λ v. view v ≡ done_entry first_id serial) }
{
    json!(in alloc; {"first_id": u64::from(first_id), "serial": u64::from(serial)})
}

/// An entry that stands in the history.
pub fn done_body(alloc: Global, first_id: u32, serial: u32) -> Result<String, AllocError>
    ensures { IfOk result (λ s. string_bytes s ≡ compact_text (done_entry first_id serial)) }
{
    let value = done_value(alloc, first_id, serial)?;
    value.to_string(alloc)
}

/// Why an edit is refused, with its numbers.
pub fn fault_body(alloc: Global, fault: EditFault) -> Result<String, AllocError>
    ensures { IfOk result (λ s. string_bytes s ≡ compact_text (fault_data fault)) }
{
    match fault {
        EditFault::NoSheet => named_body(alloc, "NoSheet"),
        EditFault::SheetExists => named_body(alloc, "SheetExists"),
        EditFault::NoSymbol => named_body(alloc, "NoSymbol"),
        EditFault::SymbolExists => named_body(alloc, "SymbolExists"),
        EditFault::NoObject { id } => numbered_body(alloc, "NoObject", "id", id),
        EditFault::NotOnKind { id } => numbered_body(alloc, "NotOnKind", "id", id),
        EditFault::BadText { read, line } => text_body(alloc, read.name(), line),
        EditFault::OutOfRange { id } => numbered_body(alloc, "OutOfRange", "id", id),
        EditFault::Stale { newer } => numbered_body(alloc, "Stale", "newer", newer),
        EditFault::NotYours => named_body(alloc, "NotYours"),
        EditFault::UndoneAlready { by } => numbered_body(alloc, "UndoneAlready", "by", by),
        EditFault::UndoBlocked { by } => numbered_body(alloc, "UndoBlocked", "by", by),
        EditFault::SheetInUse { id } => numbered_body(alloc, "SheetInUse", "id", id),
        EditFault::BaseAhead { front } => numbered_body(alloc, "BaseAhead", "front", front),
        EditFault::NumberGap { last } => numbered_body(alloc, "NumberGap", "last", last),
        EditFault::NumberReused { serial } => numbered_body(
            alloc,
            "NumberReused",
            "serial",
            serial,
        ),
        EditFault::TooManyObjects => named_body(alloc, "TooManyObjects"),
        EditFault::ProjectFull => named_body(alloc, "ProjectFull"),
        EditFault::HistoryFull => named_body(alloc, "HistoryFull"),
        EditFault::NoSuchEntry => named_body(alloc, "NoSuchEntry"),
        EditFault::NoAttribute { id } => numbered_body(alloc, "NoAttribute", "id", id),
    }
}
