// The records behind the first.
ghost use Rattle.std.specs.Prelude.{◌≡◌, ◌+◌, ◌≤◌, ◌||◌, ◌∷◌, ◌++◌, [], ℕ, true, OnOk, length};
ghost use Rattle.std.specs.Prelude.{option_to_list};
ghost use Rattle.std.specs.List.{filter_map, list_all};
ghost use Rattle.std.specs.Str.{is_utf8};
ghost use Rattle.csv.specs.Records.{fields_of};
ghost use Rattle.attr_table.specs.Cells.{cells_of};
ghost use Rattle.attr_table.specs.Filling.{AnswersTable, filled_by, if_counts};
ghost use Rattle.attr_table.specs.TableFaults.{first_table_fault, names_id};
ghost use Rattle.attr_table.specs.Records.{first_record_field};
ghost use Rattle.attr_table.specs.SheetTables.{head_record};
ghost use Rattle.attr_table.specs.steps.LentTexts.{texts};
ghost use Rattle.attr_table.specs.steps.Rows.{bad_value_of, faults_after, field_faults_if, has_id};
ghost use Rattle.attr_table.specs.steps.Rows.{is_refused_id, records_now, row_faults_if};

use crate::cells::{counting, set_cells};
use crate::fault::TableFault;
use crate::fields::{are_texts, text_at};
use crate::ids::take_component;
use crate::places::places_of;
use csv::ByteRecord;
use geda_model::{Name, Object};
use project_model::Project;
use std::alloc::Global;
use std::collections::BTreeSet;

/// A component with the cells of a record set, if one of them counts. `BadValue` exactly where one
/// that counts can't be set.
fn fill_component(
    alloc: Global,
    id: u32,
    object: &Object,
    names: &[&str],
    source: &ByteRecord,
    row: u32,
) -> Result<Option<(u32, Object)>, TableFault>
    requires few { length names.now + 1 ≤ 4294967295 }
    requires texts { list_all is_utf8 (fields_of source.now) ≡ true }
    requires width { length (fields_of source.now) ≡ length names.now + 1 }
    ensures { AnswersTable (λ o. o) result
        (bad_value_of row object.now (cells_of (texts names.now) (fields_of source.now)))
        (if_counts (cells_of (texts names.now) (fields_of source.now)) id object.now) }
{
    let firsts = places_of(alloc, object.attrs.as_slice())?;
    match counting(alloc, object, &firsts, names, source, row) {
        Ok(counting) => {
            if counting.is_empty() {
                return Ok(None);
            }
            let made = set_cells(alloc, object, firsts, counting.as_slice())?;
            Ok(Some((id, made)))
        }
        Err(fault) => Err(fault),
    }
}

/// What a record of texts makes of its component.
fn fill_texts(
    alloc: Global,
    project: &Project,
    sheet: &Name,
    names: &[&str],
    seen: &mut BTreeSet<u32>,
    source: &ByteRecord,
    row: u32,
) -> Result<Option<(u32, Object)>, TableFault>
    requires few { length names.now + 1 ≤ 4294967295 }
    requires texts { list_all is_utf8 (fields_of source.now) ≡ true }
    ensures answer { AnswersTable (λ o. o) result
        (first_table_fault (field_faults_if project.now.contents sheet.now (texts names.now) row
        (is_refused_id project.now.contents sheet.now seen.old
        (first_record_field (fields_of source.now)))
        (fields_of source.now)))
        (filled_by project.now.contents sheet.now (texts names.now) (fields_of source.now)) }
    ensures ids { OnOk result
        ((q : ℕ) → has_id q seen.new ≡ (has_id q seen.old || names_id q (fields_of source.now))) }
{
    if source.len() != names.len() + 1 {
        return Err(TableFault::BadWidth { row });
    }
    let (id, object) = take_component(project, sheet, seen, text_at(source, 0), row)?;
    fill_component(alloc, id, object, names, source, row)
}

/// What a record makes of its component.
fn fill_row(
    alloc: Global,
    project: &Project,
    sheet: &Name,
    names: &[&str],
    seen: &mut BTreeSet<u32>,
    source: &ByteRecord,
    row: u32,
) -> Result<Option<(u32, Object)>, TableFault>
    requires few { length names.now + 1 ≤ 4294967295 }
    ensures answer { AnswersTable (λ o. o) result
        (first_table_fault (row_faults_if project.now.contents sheet.now (texts names.now) row
        (is_refused_id project.now.contents sheet.now seen.old
        (first_record_field (fields_of source.now)))
        (fields_of source.now)))
        (filled_by project.now.contents sheet.now (texts names.now) (fields_of source.now)) }
    ensures ids { OnOk result
        ((q : ℕ) → has_id q seen.new ≡ (has_id q seen.old || names_id q (fields_of source.now))) }
{
    if !are_texts(source) {
        return Err(TableFault::NotUtf8 { row });
    }
    fill_texts(alloc, project, sheet, names, seen, source, row)
}

/// Puts what a record makes of its component behind the others.
fn fill_next(
    alloc: Global,
    project: &Project,
    sheet: &Name,
    names: &[&str],
    seen: &mut BTreeSet<u32>,
    made: &mut Vec<(u32, Object)>,
    source: &ByteRecord,
    row: u32,
) -> Result<(), TableFault>
    requires few { length names.now + 1 ≤ 4294967295 }
    ensures answer { AnswersTable (λ _. made.new.items) result
        (first_table_fault (row_faults_if project.now.contents sheet.now (texts names.now) row
        (is_refused_id project.now.contents sheet.now seen.old
        (first_record_field (fields_of source.now)))
        (fields_of source.now)))
        (made.old.items ++ option_to_list
        (filled_by project.now.contents sheet.now (texts names.now) (fields_of source.now))) }
    ensures ids { OnOk result
        ((q : ℕ) → has_id q seen.new ≡ (has_id q seen.old || names_id q (fields_of source.now))) }
{
    match fill_row(alloc, project, sheet, names, seen, source, row) {
        Ok(Some(component)) => {
            made.push(component)?;
            Ok(())
        }
        Ok(None) => Ok(()),
        Err(fault) => Err(fault),
    }
}

/// The components of which the records behind the first make new ones, in their order.
pub fn fill_rows(
    alloc: Global,
    project: &Project,
    sheet: &Name,
    names: &[&str],
    rows: &[ByteRecord],
) -> Result<Vec<(u32, Object)>, TableFault>
    requires few { length names.now + 1 ≤ 4294967295 }
    requires rows { length rows.now + 1 ≤ 4294967295 }
    ensures { AnswersTable (λ v. v.items) result
        (first_table_fault
        (faults_after project.now.contents sheet.now (head_record (texts names.now))
        (head_record (texts names.now) ∷ []) (records_now rows.now)))
        (filter_map (filled_by project.now.contents sheet.now (texts names.now))
        (records_now rows.now)) }
{
    let mut seen = BTreeSet::new(alloc);
    let mut made = Vec::new(alloc);
    let mut row = 1;
    for record in rows {
        row += 1;
        match fill_next(
            alloc, project, sheet, names, &mut seen, &mut made, record, row,
        ) {
            Ok(()) => {}
            Err(fault) => return Err(fault),
        }
    }
    Ok(made)
}
