// What the hierarchy leaves out.
ghost use Rattle.std.specs.Prelude.{◌≡◌, ◌<◌, ◌==◌, ◌++◌, IfOk, OnOk, filter_map, flat_map, filter, map, false, length, option_copied, replicate};
ghost use Rattle.std.specs.List.{list_any, range_with_len};
ghost use Rattle.hierarchy.specs.Ways.{is_on};
ghost use Rattle.hierarchy.specs.steps.Widening.{IsMarked, if_unmarked, unmarked};
ghost use Rattle.hierarchy.specs.Lost.{component_lost, is_unreached, loop_lost, lost_by, sheet_lost, source_lost, unreached_at, way_lost};

use crate::table::{HierarchicalComponent, Source, TableSheet};
use crate::texts::printed;
use crate::way::{Step, Way};
use crate::widening::{mark, no_marks};
use geda_model::{Block, Line, Name};
use std::alloc::{AllocError, Global};

/// What the hierarchy leaves out (docs/RULES.md, "Sources that are left out").
#[derive(Debug, Drop)]
pub enum Lost {
    /// A source value of a component on this sheet names no sheet.
    MissingSource { sheet: Name, value: Block },
    /// A source of a component, given by its printed refdes, names this sheet, which stands on the
    /// way from the root already.
    SourceLoop { refdes: Line, sheet: Name },
    /// A sheet has no instance.
    Unreached { sheet: Name },
}

fn loop_lost(
    alloc: Global,
    sheets: &[TableSheet],
    way: &Way,
    refdes: Option<&Line>,
    place: usize,
) -> Result<Option<Lost>, AllocError>
    ensures { IfOk result
        (λ lost. lost ≡ loop_lost sheets.now way.now (option_copied refdes.entry) place) }
{
    match (refdes, sheets.get(place)) {
        (Some(refdes), Some(sheet)) => {
            let refdes = printed(alloc, way.steps.as_slice(), refdes)?;
            let sheet = sheet.name.clone()?;
            Ok(Some(Lost::SourceLoop { refdes, sheet }))
        }
        _ => Ok(None),
    }
}

fn source_lost(
    alloc: Global,
    sheets: &[TableSheet],
    name: &Name,
    way: &Way,
    refdes: Option<&Line>,
    source: &Source,
) -> Result<Option<Lost>, AllocError>
    ensures { IfOk result (λ lost. lost
        ≡ source_lost sheets.now name.now way.now (option_copied refdes.entry) source.now) }
{
    match source.sheet {
        None => {
            let sheet = name.clone()?;
            let value = source.value.clone()?;
            Ok(Some(Lost::MissingSource { sheet, value }))
        }
        Some(place) if way.is_on(place) => loop_lost(alloc, sheets, way, refdes, place),
        Some(_) => Ok(None),
    }
}

fn push_component(
    alloc: Global,
    lost: &mut Vec<Lost>,
    sheets: &[TableSheet],
    name: &Name,
    way: &Way,
    component: &HierarchicalComponent,
) -> Result<(), AllocError>
    ensures { OnOk result (lost.new.items
        ≡ lost.old.items ++ component_lost sheets.now name.now way.now component.now) }
{
    for source in &component.sources {
        let refdes = component.refdes.as_ref();
        if let Some(item) = source_lost(alloc, sheets, name, way, refdes, source)? {
            lost.push(item)?;
        }
    }
    Ok(())
}

fn push_components(
    alloc: Global,
    lost: &mut Vec<Lost>,
    sheets: &[TableSheet],
    way: &Way,
    sheet: &TableSheet,
) -> Result<(), AllocError>
    ensures { OnOk result
        (lost.new.items ≡ lost.old.items ++ sheet_lost sheets.now way.now sheet.now) }
{
    for component in &sheet.components {
        push_component(alloc, lost, sheets, &sheet.name, way, component)?;
    }
    Ok(())
}

fn push_way(
    alloc: Global,
    lost: &mut Vec<Lost>,
    sheets: &[TableSheet],
    way: &Way,
) -> Result<(), AllocError>
    ensures { OnOk result (lost.new.items ≡ lost.old.items ++ way_lost sheets.now way.now) }
{
    match sheets.get(way.last_sheet()) {
        None => Ok(()),
        Some(sheet) => push_components(alloc, lost, sheets, way, sheet),
    }
}

fn push_ways(
    alloc: Global,
    lost: &mut Vec<Lost>,
    sheets: &[TableSheet],
    ways: &[Way],
) -> Result<(), AllocError>
    ensures { OnOk result
        (lost.new.items ≡ lost.old.items ++ flat_map (way_lost sheets.now) ways.now) }
{
    for way in ways {
        push_way(alloc, lost, sheets, way)?;
    }
    Ok(())
}

fn mark_steps(reached: &mut [bool], steps: &[Step])
    ensures { IsMarked reached.old reached.new
        (λ place. list_any (λ s. s.sheet == place) steps.now) }
{
    for step in steps {
        mark(reached, step.sheet);
    }
}

fn mark_way(reached: &mut [bool], way: &Way)
    ensures { IsMarked reached.old reached.new (is_on way.now) }
{
    mark(reached, way.root);
    mark_steps(reached, way.steps.as_slice());
}

fn mark_ways(reached: &mut [bool], ways: &[Way])
    ensures { IsMarked reached.old reached.new (λ place. list_any (λ w. is_on w place) ways.now) }
{
    for way in ways {
        mark_way(reached, way);
    }
}

fn push_sheet(
    lost: &mut Vec<Lost>,
    sheets: &[TableSheet],
    place: usize,
    is_reached: bool,
) -> Result<(), AllocError>
    requires { place < length sheets.now }
    ensures { OnOk result (lost.new.items
        ≡ lost.old.items ++ if_unmarked (unreached_at sheets.now) is_reached place) }
{
    if !is_reached {
        let sheet = &sheets[place];
        let sheet = sheet.name.clone()?;
        lost.push(Lost::Unreached { sheet })?;
    }
    Ok(())
}

fn push_sheets(
    lost: &mut Vec<Lost>,
    sheets: &[TableSheet],
    reached: &[bool],
) -> Result<(), AllocError>
    requires { length reached.now ≡ length sheets.now }
    ensures { OnOk result (lost.new.items
        ≡ lost.old.items ++ map (unreached_at sheets.now) (unmarked reached.now)) }
{
    for place in 0..reached.len() {
        push_sheet(lost, sheets, place, reached[place])?;
    }
    Ok(())
}

fn push_unreached(
    lost: &mut Vec<Lost>,
    reached: &mut [bool],
    sheets: &[TableSheet],
    ways: &[Way],
) -> Result<(), AllocError>
    requires { reached.old ≡ replicate (length sheets.now) false }
    ensures { OnOk result (lost.new.items ≡ lost.old.items ++ map (unreached_at sheets.now)
        (filter (is_unreached ways.now) (range_with_len 0 (length sheets.now)))) }
{
    mark_ways(reached, ways);
    push_sheets(lost, sheets, reached)
}

/// What these ways leave out, and then the sheets on none of them.
pub fn lost_by(alloc: Global, sheets: &[TableSheet], ways: &[Way]) -> Result<Vec<Lost>, AllocError>
    ensures { IfOk result (λ lost. lost.items ≡ lost_by sheets.now ways.now) }
{
    let mut lost = Vec::new(alloc);
    push_ways(alloc, &mut lost, sheets, ways)?;
    let mut reached = no_marks(alloc, sheets.len())?;
    push_unreached(&mut lost, &mut reached, sheets, ways)?;
    Ok(lost)
}
