// The canonical texts.
ghost use Rattle.std.specs.Prelude.{◌≡◌, IfOk, OnOk, ◌++◌};
ghost use Rattle.std.specs.String.{string_bytes};
ghost use Rattle.geda_grammar.specs.Canonical.{head_text, object_text, sheet_text, symbol_text};

use crate::objects::{put_object, put_objects, put_parts};
use geda_model::{Head, Object, Sheet, Symbol};
use std::alloc::{AllocError, Global};

fn put_head(out: &mut String, head: &Head) -> Result<(), AllocError>
    ensures { OnOk result (string_bytes out.new ≡ string_bytes out.old ++ head_text head.now) }
{
    writeln!(out, "v {:08} {}", head.date, head.format)?;
    Ok(())
}

/// The version line of a file, with its LF: `v`, eight digits of the date, and the format. Rule:
/// docs/RULES.md, "Canonical text".
pub fn head_text(alloc: Global, head: &Head) -> Result<Vec<u8>, AllocError>
    ensures text { IfOk result (λ text. text.items ≡ head_text head.now) }
{
    let mut out = String::new(alloc);
    put_head(&mut out, head)?;
    Ok(out.into_bytes())
}

/// The canonical text of a sheet: its version line, then each object by its line, the lines that
/// follow it, its embedded symbol and its attached texts. It is written however long it is.
///
/// Rule: docs/RULES.md, "Canonical text".
pub fn sheet_text(alloc: Global, sheet: &Sheet) -> Result<Vec<u8>, AllocError>
    ensures text { IfOk result (λ text. text.items ≡ sheet_text sheet.now) }
{
    let mut text = head_text(alloc, &sheet.head)?;
    put_objects(&mut text, sheet.objects.as_slice())?;
    Ok(text)
}

/// The canonical text of a symbol: its version line, then each part by its line, the lines that
/// follow it and its attached texts. Rule: docs/RULES.md, "Canonical text".
pub fn symbol_text(alloc: Global, symbol: &Symbol) -> Result<Vec<u8>, AllocError>
    ensures text { IfOk result (λ text. text.items ≡ symbol_text symbol.now) }
{
    let mut text = head_text(alloc, &symbol.head)?;
    put_parts(&mut text, symbol.parts.as_slice())?;
    Ok(text)
}

/// Puts the canonical text of an object, as it stands in a sheet, behind another text. Rule:
/// docs/RULES.md, "Canonical text".
pub fn put_object_text(text: &mut Vec<u8>, object: &Object) -> Result<(), AllocError>
    ensures text { OnOk result (text.new.items ≡ text.old.items ++ object_text object.now) }
{
    put_object(text, object)?;
    Ok(())
}

/// The canonical text of an object, as it stands in a sheet. Rule: docs/RULES.md, "Canonical
/// text".
pub fn object_text(alloc: Global, object: &Object) -> Result<Vec<u8>, AllocError>
    ensures text { IfOk result (λ text. text.items ≡ object_text object.now) }
{
    let mut text = Vec::new(alloc);
    put_object_text(&mut text, object)?;
    Ok(text)
}
