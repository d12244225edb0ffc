// Records of CSV, written into memory.
ghost use Rattle.std.specs.Prelude.{◌≡◌, ◌≤◌, ◌++◌, [], IfOk, OnOk, length, map};
ghost use Rattle.backends.specs.CsvRecords.{record_text};
ghost use Rattle.backends.specs.steps.CsvWriters.{IsReady, written};

use csv::{Writer, WriterBuilder};
use std::alloc::{AllocError, Global};

/// A writer that has written nothing. It takes no memory.
pub fn record_writer(alloc: Global) -> Writer<Vec<u8>>
    ensures ready { IsReady result }
    ensures empty { written result ≡ [] }
{
    WriterBuilder::new().from_writer(Vec::new(alloc))
}

/// Writes a record of two or more fields.
pub fn put_record(writer: &mut Writer<Vec<u8>>, fields: &[&[u8]]) -> Result<(), AllocError>
    requires ready { IsReady writer.old }
    requires several { 2 ≤ length fields.now }
    ensures text { OnOk result (written writer.new
        ≡ written writer.old ++ record_text (map (λ f. f.now) fields.now)) }
    ensures ready { OnOk result (IsReady writer.new) }
{
    if writer.write_fields(fields).is_err() {
        return Err(AllocError);
    }
    Ok(())
}

/// What was written.
pub fn written(writer: Writer<Vec<u8>>) -> Result<Vec<u8>, AllocError>
    ensures { IfOk result (λ text. text.items ≡ written writer) }
{
    match writer.into_inner() {
        Ok(text) => Ok(text),
        Err(_) => Err(AllocError),
    }
}
