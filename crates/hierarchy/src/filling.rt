// The table of the sheets of a project, filled object by object.
ghost use Rattle.std.specs.Prelude.{◌≡◌, ◌≤◌, ◌<◌, ◌+◌, ◌*◌, ◌∷◌, ◌++◌, [], IfOk, OnOk, List, length, map, ℕ};
ghost use Rattle.std.specs.FinMap.{keys};
ghost use Rattle.std.specs.List.Sorted.{IsStrictlySortedBy};
ghost use Rattle.std.specs.Ordering.{nat_cmp};
ghost use Rattle.std.specs.Cmp.Lexicographic.{slice_cmp};
ghost use Rattle.project_model.specs.declared.change.Placed.{Placed};
ghost use Rattle.project_model.specs.Tables.{row_now};
ghost use Rattle.hierarchy.specs.SheetTable.{sheet_table};
ghost use Rattle.hierarchy.specs.steps.SheetRows.{AreLight, IsTableOf, bare_sheet, with_object};

use crate::components::component_of;
use crate::met_symbols::MetSymbols;
use crate::places::place_near;
use crate::table::TableSheet;
use attr_rules::{has_sources, parts_of};
use geda_model::{Name, Object};
use project_model::{Placed, Project};
use std::alloc::{AllocError, Global};

impl TableSheet {
    fn add(
        &mut self,
        alloc: Global,
        met: &mut MetSymbols<'_>,
        names: &[Name],
        id: u32,
        object: &Object,
    ) -> Result<(), AllocError>
        requires names { names.now ≡ keys met.old.sheets }
        requires rising { IsStrictlySortedBy (slice_cmp nat_cmp) names.now }
        requires light { self.old.weight ≤ 79228162514264337593543950336 }
        ensures added { OnOk result (self.new ≡ with_object met.old id object.now self.old) }
        ensures light { OnOk result (self.new.weight ≤ self.old.weight + 4294967296) }
        ensures kept { met.new ≡ met.old }
    {
        let met_symbol = met.library_of(alloc, object)?;
        let library = met_symbol.symbol();
        self.weight += 1 + parts_of(object, library).len() as u128;
        if met_symbol.tells_no_source(object) {
            return Ok(());
        }
        if has_sources(object, library) {
            let component = component_of(alloc, names, id, object, library)?;
            self.components.push(component)?;
        }
        Ok(())
    }
}

/// Takes in an object, the sheet of which may be the one at a place, and gives the place where it
/// was looked for last.
fn add_object(
    alloc: Global,
    met: &mut MetSymbols<'_>,
    names: &[Name],
    table: &mut Vec<TableSheet>,
    near: usize,
    id: u32,
    placed: &Placed,
) -> Result<usize, AllocError>
    requires names { names.now ≡ keys met.old.sheets }
    requires rising { IsStrictlySortedBy (slice_cmp nat_cmp) names.now }
    requires named { map (λ sheet. sheet.name) table.old.items ≡ names.now }
    requires light { AreLight 18446744073709551616 table.old.items }
    ensures table { OnOk result ((rows : List (ℕ × Placed))
        → IsTableOf met.old rows table.old.items
        → IsTableOf met.old (rows ++ (id, placed.now) ∷ []) table.new.items) }
    ensures light { OnOk result ((count : ℕ)
        → AreLight count table.old.items → AreLight (count + 1) table.new.items) }
    ensures kept { met.new ≡ met.old }
{
    let name = &placed.sheet;
    match place_near(names, near, name.as_str()) {
        None => Ok(near),
        Some(place) => {
            table[place].add(alloc, met, names, id, &placed.object)?;
            Ok(place)
        }
    }
}

fn add_objects(
    alloc: Global,
    project: &Project,
    names: &[Name],
    table: &mut Vec<TableSheet>,
    rows: &[(u32, &Placed)],
) -> Result<(), AllocError>
    requires names { names.now ≡ keys project.now.contents.sheets }
    requires rising { IsStrictlySortedBy (slice_cmp nat_cmp) names.now }
    requires empty { table.old.items ≡ map bare_sheet names.now }
    ensures { OnOk result (IsTableOf project.now.contents (map row_now rows.now) table.new.items) }
{
    let mut met = MetSymbols::new(alloc, project);
    let mut near = 0;
    for row in rows {
        near = add_object(alloc, &mut met, names, table, near, row.0, row.1)?;
    }
    Ok(())
}

fn bare_sheets(alloc: Global, names: &[Name]) -> Result<Vec<TableSheet>, AllocError>
    ensures { IfOk result (λ table. table.items ≡ map bare_sheet names.now) }
{
    let mut table = Vec::new(alloc);
    for name in names {
        table.push(TableSheet {
            name: name.clone()?,
            components: Vec::new(alloc),
            weight: 0,
        })?;
    }
    Ok(table)
}

/// The sheets of a project in order of name, each with its hierarchical components and its weight.
pub fn sheet_table(alloc: Global, project: &Project) -> Result<Vec<TableSheet>, AllocError>
    ensures { IfOk result (λ table. table.items ≡ sheet_table project.now.contents) }
{
    let names = project.sheet_names(alloc)?;
    let rows = project.objects_by_id(alloc)?;
    let mut table = bare_sheets(alloc, names.as_slice())?;
    add_objects(
        alloc,
        project,
        names.as_slice(),
        &mut table,
        rows.as_slice(),
    )?;
    Ok(table)
}
