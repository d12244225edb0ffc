// Ways from the roots, one step longer each time.
ghost use Rattle.std.specs.Prelude.{◌≡◌, ◌==◌, ◌<◌, ◌++◌, ◌∷◌, [], IfOk, IsErrOf, OnOk, false, flat_map, length, map, replicate};
ghost use Rattle.hierarchy.specs.declared.fault.ElabFault.TheVariants as faults;
ghost use Rattle.hierarchy.specs.SheetTable.{is_named, is_place, component_names, roots, sheet_names};
ghost use Rattle.hierarchy.specs.Ways.{way_at};
ghost use Rattle.hierarchy.specs.steps.Widening.{IsMarked, if_unmarked, children_at, unmarked, widened};

use crate::crowd::MOST_WAYS;
use crate::fault::ElabFault;
use crate::table::{HierarchicalComponent, Source, TableSheet};
use crate::way::Way;
use std::alloc::{AllocError, Global};

/// Marks a place, if it is there.
pub fn mark(marks: &mut [bool], place: usize)
    ensures { IsMarked marks.old marks.new (λ other. place == other) }
{
    if place < marks.len() {
        marks[place] = true;
    }
}

fn mark_source(named: &mut [bool], source: &Source)
    ensures { IsMarked named.old named.new (λ place. is_place place source.now.sheet) }
{
    if let Some(place) = source.sheet {
        mark(named, place);
    }
}

fn mark_component(named: &mut [bool], component: &HierarchicalComponent)
    ensures { IsMarked named.old named.new (λ place. component_names place component.now) }
{
    for source in &component.sources {
        mark_source(named, source);
    }
}

fn mark_sheet(named: &mut [bool], sheet: &TableSheet)
    ensures { IsMarked named.old named.new (λ place. sheet_names place sheet.now) }
{
    for component in &sheet.components {
        mark_component(named, component);
    }
}

fn mark_sheets(named: &mut [bool], sheets: &[TableSheet])
    ensures { IsMarked named.old named.new (is_named sheets.now) }
{
    for sheet in sheets {
        mark_sheet(named, sheet);
    }
}

fn push_root(
    alloc: Global,
    ways: &mut Vec<Way>,
    place: usize,
    is_named: bool,
) -> Result<(), AllocError>
    ensures { OnOk result (ways.new.items ≡ ways.old.items ++ if_unmarked way_at is_named place) }
{
    if !is_named {
        ways.push(Way {
            root: place,
            steps: Vec::new(alloc),
        })?;
    }
    Ok(())
}

fn ways_at(alloc: Global, named: &[bool]) -> Result<Vec<Way>, AllocError>
    ensures { IfOk result (λ ways. ways.items ≡ map way_at (unmarked named.now)) }
{
    let mut ways = Vec::new(alloc);
    for place in 0..named.len() {
        push_root(alloc, &mut ways, place, named[place])?;
    }
    Ok(ways)
}

fn ways_without_mark(
    alloc: Global,
    named: &mut [bool],
    sheets: &[TableSheet],
) -> Result<Vec<Way>, AllocError>
    requires { named.old ≡ replicate (length sheets.now) false }
    ensures { IfOk result (λ ways. ways.items ≡ map way_at (roots sheets.now)) }
{
    mark_sheets(named, sheets);
    ways_at(alloc, named)
}

/// So many places without a mark.
pub fn no_marks(alloc: Global, count: usize) -> Result<Vec<bool>, AllocError>
    ensures { IfOk result (λ marks. marks.items ≡ replicate count false) }
{
    let mut marks = Vec::new(alloc);
    for _place in 0..count {
        marks.push(false)?;
    }
    Ok(marks)
}

/// The ways that stay at the roots.
pub fn root_ways(alloc: Global, sheets: &[TableSheet]) -> Result<Vec<Way>, AllocError>
    ensures { IfOk result (λ ways. ways.items ≡ map way_at (roots sheets.now)) }
{
    let mut named = no_marks(alloc, sheets.len())?;
    ways_without_mark(alloc, &mut named, sheets)
}

fn children_at(
    alloc: Global,
    sheets: &[TableSheet],
    way: &Way,
    depth: usize,
) -> Result<Vec<Way>, AllocError>
    ensures { IfOk result (λ ways. ways.items ≡ children_at sheets.now depth way.now) }
{
    if way.steps.len() == depth {
        way.children(alloc, sheets)
    } else {
        Ok(Vec::new(alloc))
    }
}

/// Refuses where there would be over 4,096 ways.
fn push_ways(wide: &mut Vec<Way>, way: Way, children: Vec<Way>) -> Result<(), ElabFault>
    ensures added { OnOk result (wide.new.items ≡ wide.old.items ++ (way ∷ children.items)) }
    ensures many { IsErrOf result faults.TooManyInstances
        → 4096 < length (wide.old.items ++ (way ∷ children.items)) }
{
    let mut children = children;
    if wide.len() >= MOST_WAYS || children.len() >= MOST_WAYS - wide.len() {
        return Err(ElabFault::TooManyInstances);
    }
    wide.push(way)?;
    wide.append(&mut children)?;
    Ok(())
}

/// Ways, each with its children behind it if it has so many steps.
///
/// Refuses only where that makes over 4,096 ways.
pub fn widened(
    alloc: Global,
    sheets: &[TableSheet],
    ways: Vec<Way>,
    depth: usize,
) -> Result<Vec<Way>, ElabFault>
    ensures wide { IfOk result
        (λ wide. wide.items ≡ flat_map (widened sheets.now depth) ways.items) }
    ensures many { IsErrOf result faults.TooManyInstances
        → 4096 < length (flat_map (widened sheets.now depth) ways.items) }
{
    let mut wide = Vec::new(alloc);
    for way in ways {
        let children = children_at(alloc, sheets, &way, depth)?;
        push_ways(&mut wide, way, children)?;
    }
    Ok(wide)
}
