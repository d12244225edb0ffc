// The hierarchical components of a project, and what its objects weigh.
ghost use Rattle.std.specs.Prelude.{◌≡◌, IfOk, OnOk, map, option_copied};
ghost use Rattle.std.specs.HashSet.{contains_text};
ghost use Rattle.std.specs.List.Sorted.{IsStrictlySortedBy};
ghost use Rattle.std.specs.Ordering.{nat_cmp};
ghost use Rattle.std.specs.Cmp.Lexicographic.{slice_cmp};
ghost use Rattle.geda_defs.specs.Lists.{each_once, with_new};
ghost use Rattle.attr_rules.specs.Components.{refdes_of};
ghost use Rattle.hierarchy.specs.SheetTable.{component_with, source_of};
ghost use Rattle.hierarchy.specs.steps.SeenTexts.{AddsText, AreTheTexts};

use crate::places::place_of;
use crate::table::{HierarchicalComponent, Source};
use crate::texts::line_of;
use attr_rules::{attrs_of, refdes_of};
use geda_model::{Block, Line, Name, Object, Symbol};
use std::alloc::{AllocError, Global};
use std::collections::HashSet;

fn refdes_line(
    alloc: Global,
    object: &Object,
    library: Option<&Symbol>,
) -> Result<Option<Line>, AllocError>
    ensures { IfOk result
        (λ refdes. refdes ≡ refdes_of object.now (option_copied library.entry)) }
{
    match refdes_of(object, library) {
        None => Ok(None),
        Some(refdes) => Ok(Some(line_of(alloc, refdes)?)),
    }
}

fn add_text(alloc: Global, seen: &mut HashSet<String>, text: &str) -> Result<(), AllocError>
    ensures { OnOk result (AddsText text.now (contains_text seen.old) (contains_text seen.new)) }
{
    let text = String::from_str(alloc, text)?;
    seen.insert(text)?;
    Ok(())
}

fn push_new(
    alloc: Global,
    seen: &mut HashSet<String>,
    values: &mut Vec<Block>,
    value: Block,
) -> Result<(), AllocError>
    requires seen { AreTheTexts (contains_text seen.old) values.old.items }
    ensures values { OnOk result (values.new.items ≡ with_new values.old.items value) }
    ensures seen { OnOk result (AreTheTexts (contains_text seen.new) values.new.items) }
{
    if seen.contains(value.as_str()) {
        return Ok(());
    }
    add_text(alloc, seen, value.as_str())?;
    values.push(value)?;
    Ok(())
}

fn each_once(alloc: Global, values: Vec<Block>) -> Result<Vec<Block>, AllocError>
    ensures { IfOk result (λ distinct. distinct.items ≡ each_once values.items) }
{
    let mut seen = HashSet::new(alloc);
    let mut distinct = Vec::new(alloc);
    for value in values {
        push_new(alloc, &mut seen, &mut distinct, value)?;
    }
    Ok(distinct)
}

fn sources_of(alloc: Global, names: &[Name], values: Vec<Block>) -> Result<Vec<Source>, AllocError>
    requires { IsStrictlySortedBy (slice_cmp nat_cmp) names.now }
    ensures { IfOk result (λ sources. sources.items ≡ map (source_of names.now) values.items) }
{
    let mut sources = Vec::new(alloc);
    for value in values {
        let sheet = place_of(names, value.as_str());
        sources.push(Source { value, sheet })?;
    }
    Ok(sources)
}

/// A component with sheets below, as the table has it.
pub fn component_of(
    alloc: Global,
    names: &[Name],
    id: u32,
    object: &Object,
    library: Option<&Symbol>,
) -> Result<HierarchicalComponent, AllocError>
    requires { IsStrictlySortedBy (slice_cmp nat_cmp) names.now }
    ensures { IfOk result (λ component. component ≡
        component_with names.now id object.now (option_copied library.entry)) }
{
    let refdes = refdes_line(alloc, object, library)?;
    let values = attrs_of(alloc, object, library, "source")?;
    let values = each_once(alloc, values.into_vec())?;
    let sources = sources_of(alloc, names, values)?;
    Ok(HierarchicalComponent {
        id,
        refdes,
        sources,
    })
}
