// The entries of a table.
ghost use Rattle.std.specs.Prelude.{◌≡◌, ◌+◌, ◌≤◌, IfOk, length, min};
ghost use Rattle.geda_grammar.specs.Canonical.{object_text};
ghost use Rattle.attr_table.specs.Filling.{AnswersTable, entries_from, component_entry, filled_components};
ghost use Rattle.attr_table.specs.Filling.{table_entries};
ghost use Rattle.attr_table.specs.Records.{records_of};
ghost use Rattle.attr_table.specs.SheetTables.{components_in};
ghost use Rattle.attr_table.specs.TableFaults.{table_fault};

use crate::csv_records::records_in;
use crate::fault::TableFault;
use crate::filling::fill;
use edit_entries::{Edit, Entry};
use geda_model::{Block, Name, Object};
use geda_text::text_of;
use geda_write::object_text;
use project_model::Project;
use std::alloc::{AllocError, Global};

fn object_block(alloc: Global, object: &Object) -> Result<Block, AllocError>
    ensures { IfOk result (λ block. block ≡ object_text object.now) }
{
    let text = object_text(alloc, object)?;
    match text_of(text.as_slice()) {
        Some(text) => Block::new(alloc, text),
        None => Err(AllocError),
    }
}

fn entry_of(
    alloc: Global,
    session: &Name,
    number: u32,
    base: u32,
    id: u32,
    object: &Object,
) -> Result<Entry, AllocError>
    requires { 1 ≤ number }
    ensures { IfOk result (λ entry. entry ≡
        component_entry session.now number base (id, object.now)) }
{
    let text = object_block(alloc, object)?;
    let session = session.clone()?;
    Ok(Entry {
        session,
        number,
        base,
        edit: Edit::Replace { id, text },
    })
}

/// The entries that put these components in the places of those of their ids: of this session and
/// base, with numbers from `first` on.
pub fn entries_from(
    alloc: Global,
    session: &Name,
    first: u32,
    base: u32,
    components: &[(u32, Object)],
) -> Result<Vec<Entry>, AllocError>
    requires first { 1 ≤ first }
    requires last { first + length components.now ≤ 4294967295 }
    ensures { IfOk result
        (λ entries. entries.items ≡ entries_from session.now first base components.now) }
{
    let mut entries = Vec::with_capacity(alloc, components.len())?;
    let mut number = first;
    for (id, object) in components {
        entries.push(entry_of(alloc, session, number, base, *id, object)?)?;
        number += 1;
    }
    Ok(entries)
}

/// The components of which a table of CSV makes new ones, with their ids, in the order of the
/// records (docs/RULES.md, "Attributes as a table"): those that `entries_of` puts into entries.
///
/// There are no more of them than components of the sheet, or bytes of the table. The fault of a
/// table is that of its first record that has one.
pub fn components_of(
    alloc: Global,
    project: &Project,
    sheet: &Name,
    table: &[u8],
) -> Result<Vec<(u32, Object)>, TableFault>
    requires short { length table.now ≤ 4294967295 }
    ensures made { AnswersTable (λ v. v.items) result
        (table_fault project.now.contents sheet.now (records_of table.now))
        (filled_components project.now.contents sheet.now (records_of table.now)) }
    ensures few { IfOk result
        (λ v. length v.items ≤ length (components_in project.now.contents sheet.now)) }
    ensures rows { IfOk result (λ v. length v.items ≤ length table.now) }
{
    let records = records_in(alloc, table)?;
    let components = fill(alloc, project, sheet, records.as_slice())?;
    Ok(components)
}

/// The entries that fill a table of CSV into the components of a sheet (docs/RULES.md, "Attributes
/// as a table"): for each record with a cell that counts one that replaces its component by the
/// same one with these cells set, in the order of the records. A cell counts where it is not empty
/// and differs from the present value of its name.
///
/// The entries are of this session, have numbers from `first` on, and this base; there are no more
/// of them than components of the sheet, or bytes of the table. The fault of a table is that of its
/// first record that has one.
#[tactic(auto, unfolding(crate::specs::Filling::table_entries))]
pub fn entries_of(
    alloc: Global,
    project: &Project,
    sheet: &Name,
    table: &[u8],
    session: &Name,
    first: u32,
    base: u32,
) -> Result<Vec<Entry>, TableFault>
    requires short { length table.now ≤ 4294967295 }
    requires first { 1 ≤ first }
    requires last { first + min (length (components_in project.now.contents sheet.now))
        (length table.now) ≤ 4294967295 }
    ensures { AnswersTable (λ v. v.items) result
        (table_fault project.now.contents sheet.now (records_of table.now))
        (table_entries project.now.contents sheet.now (records_of table.now)
        session.now first base) }
{
    let components = components_of(alloc, project, sheet, table)?;
    Ok(entries_from(alloc, session, first, base, components.as_slice())?)
}
