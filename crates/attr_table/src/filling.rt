// What the records of a table make of the components of a sheet.
ghost use Rattle.std.specs.Prelude.{◌≡◌, ◌+◌, ◌≤◌, ◌∷◌, ◌++◌, [], true, codes, length};
ghost use Rattle.std.specs.List.{filter_map};
ghost use Rattle.std.specs.Str.{bytes_eq};
ghost use Rattle.csv.specs.Records.{fields_of};
ghost use Rattle.attr_table.specs.Filling.{AnswersTable, filled_by, filled_components};
ghost use Rattle.attr_table.specs.Records.{first_record_field, later_fields};
ghost use Rattle.attr_table.specs.SheetTables.{head_record};
ghost use Rattle.attr_table.specs.TableFaults.{first_table_fault, table_fault};
ghost use Rattle.attr_table.specs.steps.LentTexts.{texts};
ghost use Rattle.attr_table.specs.steps.Rows.{AreNarrow, faults_after, field_bytes, name_faults};
ghost use Rattle.attr_table.specs.steps.Rows.{records_now};

use crate::fault::TableFault;
use crate::fields::texts_of;
use crate::names::bad_name_column;
use crate::rows::fill_rows;
use csv::ByteRecord;
use geda_model::{Name, Object};
use project_model::Project;
use std::alloc::Global;

fn is_id(field: &[u8]) -> bool
    ensures { result ≡ bytes_eq field.now (codes "id") }
{
    field == b"id".as_slice()
}

fn begins_with_id(head: &ByteRecord) -> bool
    ensures { result ≡ bytes_eq (first_record_field (fields_of head.now)) (codes "id") }
{
    match head.get(0) {
        Some(field) => is_id(field),
        None => false,
    }
}

fn fill_named(
    alloc: Global,
    project: &Project,
    sheet: &Name,
    names: &[&str],
    rows: &[ByteRecord],
) -> Result<Vec<(u32, Object)>, TableFault>
    requires few { length names.now + 1 ≤ 4294967295 }
    requires rows { length rows.now + 1 ≤ 4294967295 }
    ensures { AnswersTable (λ v. v.items) result
        (first_table_fault (name_faults (texts names.now)
        ++ faults_after project.now.contents sheet.now (head_record (texts names.now))
        (head_record (texts names.now) ∷ []) (records_now rows.now)))
        (filter_map (filled_by project.now.contents sheet.now (texts names.now))
        (records_now rows.now)) }
{
    if let Some(column) = bad_name_column(alloc, names)? {
        return Err(TableFault::BadName { column });
    }
    fill_rows(alloc, project, sheet, names, rows)
}

fn fill_texts(
    alloc: Global,
    project: &Project,
    sheet: &Name,
    fields: &[&str],
    rows: &[ByteRecord],
) -> Result<Vec<(u32, Object)>, TableFault>
    requires narrow { field_bytes (texts fields.now) ≤ 4294967296 }
    requires first { bytes_eq (first_record_field (texts fields.now)) (codes "id") ≡ true }
    requires rows { length rows.now + 1 ≤ 4294967295 }
    ensures { AnswersTable (λ v. v.items) result
        (first_table_fault (name_faults (later_fields (texts fields.now))
        ++ faults_after project.now.contents sheet.now (texts fields.now)
        (texts fields.now ∷ []) (records_now rows.now)))
        (filter_map (filled_by project.now.contents sheet.now (later_fields (texts fields.now)))
        (records_now rows.now)) }
{
    match fields.split_first() {
        Some((_, names)) => fill_named(alloc, project, sheet, names, rows),
        None => Err(TableFault::NoHeader),
    }
}

fn fill_under(
    alloc: Global,
    project: &Project,
    sheet: &Name,
    head: &ByteRecord,
    rows: &[ByteRecord],
) -> Result<Vec<(u32, Object)>, TableFault>
    requires narrow { field_bytes (fields_of head.now) ≤ 4294967296 }
    requires rows { length rows.now + 1 ≤ 4294967295 }
    ensures { AnswersTable (λ v. v.items) result
        (table_fault project.now.contents sheet.now (fields_of head.now ∷ records_now rows.now))
        (filled_components project.now.contents sheet.now
        (fields_of head.now ∷ records_now rows.now)) }
{
    if !begins_with_id(head) {
        return Err(TableFault::NoHeader);
    }
    match texts_of(alloc, head, 1) {
        Ok(fields) => fill_texts(alloc, project, sheet, fields.as_slice(), rows),
        Err(fault) => Err(fault),
    }
}

/// The components of a sheet of which the records of a table make new ones, in their order.
pub fn fill(
    alloc: Global,
    project: &Project,
    sheet: &Name,
    records: &[ByteRecord],
) -> Result<Vec<(u32, Object)>, TableFault>
    requires few { length records.now ≤ 4294967295 }
    requires narrow { AreNarrow 4294967296 (records_now records.now) }
    ensures { AnswersTable (λ v. v.items) result
        (table_fault project.now.contents sheet.now (records_now records.now))
        (filled_components project.now.contents sheet.now (records_now records.now)) }
{
    match records.split_first() {
        Some((head, rows)) => fill_under(alloc, project, sheet, head, rows),
        None => Err(TableFault::NoHeader),
    }
}
