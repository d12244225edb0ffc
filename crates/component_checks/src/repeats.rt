// Which refdes and which slots are given more than once.
ghost use Rattle.std.specs.Prelude.{◌≡◌, IfOk};
ghost use Rattle.std.specs.List.{filter_map};
ghost use Rattle.component_checks.specs.steps.Repeats.{AreRepeats, clashing_name, numbered_name};
ghost use Rattle.component_checks.specs.steps.Repeats.{pair_of, slotted_pair, whole_name};

use crate::checked::CheckedComponent;
use crate::lists::push_if;
use crate::parts::{is_listed, is_numbered, is_whole};
use geda_model::Line;
use std::alloc::{AllocError, Global};
use std::collections::BTreeSet;
use text_tallies::{PairKey, names_once, names_twice, pairs_twice};

/// What several components have in common.
#[derive(Drop)]
pub struct Repeats<'a> {
    /// The refdes that two numbered components have, and one that is whole.
    pub clashing: BTreeSet<Line>,
    /// The refdes and slots that two listed parts have.
    pub slotted: BTreeSet<PairKey<'a>>,
}

fn numbered_name(component: &CheckedComponent<'_>) -> Result<Option<Line>, AllocError>
    ensures { IfOk result (λ name. name ≡ numbered_name component.now) }
{
    if !is_numbered(component) {
        return Ok(None);
    }
    component.refdes.clone()
}

fn whole_name(component: &CheckedComponent<'_>) -> Result<Option<Line>, AllocError>
    ensures { IfOk result (λ name. name ≡ whole_name component.now) }
{
    if !is_whole(component) {
        return Ok(None);
    }
    numbered_name(component)
}

fn pair_of<'a>(refdes: &'a Option<Line>, slot: &'a str) -> Option<PairKey<'a>>
    ensures { result ≡ pair_of refdes.now slot.now }
{
    match refdes {
        None => None,
        Some(refdes) => {
            let first = refdes.as_str();
            let second = slot;
            Some(PairKey { first, second })
        }
    }
}

/// The refdes and the slot of a listed part that has one. It takes no memory.
pub fn slotted_pair<'a>(component: &'a CheckedComponent<'_>) -> Option<PairKey<'a>>
    ensures { result ≡ slotted_pair component.now }
{
    if !is_listed(component) {
        return None;
    }
    match component.slot {
        None => None,
        Some(slot) => pair_of(&component.refdes, slot),
    }
}

#[tactic(auto, using(crate::proofs::ListLemmas::push_more))]
fn numbered_names(
    alloc: Global,
    components: &[CheckedComponent<'_>],
) -> Result<Vec<Line>, AllocError>
    ensures { IfOk result (λ names. names.items ≡ filter_map numbered_name components.now) }
{
    let mut names = Vec::new(alloc);
    for component in components {
        push_if(&mut names, numbered_name(component)?)?;
    }
    Ok(names)
}

/// The refdes of a numbered component that is whole, where two have it.
fn clashing_name(
    twice: &BTreeSet<Line>,
    component: &CheckedComponent<'_>,
) -> Result<Option<Line>, AllocError>
    ensures { IfOk result (λ name. name ≡ clashing_name twice.now component.now) }
{
    match whole_name(component)? {
        Some(name) if twice.contains(&name) => Ok(Some(name)),
        _ => Ok(None),
    }
}

#[tactic(auto, using(crate::proofs::ListLemmas::push_more))]
fn clashing_names(
    alloc: Global,
    twice: &BTreeSet<Line>,
    components: &[CheckedComponent<'_>],
) -> Result<Vec<Line>, AllocError>
    ensures { IfOk result
        (λ names. names.items ≡ filter_map (clashing_name twice.now) components.now) }
{
    let mut names = Vec::new(alloc);
    for component in components {
        push_if(&mut names, clashing_name(twice, component)?)?;
    }
    Ok(names)
}

#[tactic(auto, using(crate::proofs::ListLemmas::push_more))]
fn slotted_pairs<'a>(
    alloc: Global,
    components: &'a [CheckedComponent<'_>],
) -> Result<Vec<PairKey<'a>>, AllocError>
    ensures { IfOk result (λ pairs. pairs.items ≡ filter_map slotted_pair components.now) }
{
    let mut pairs = Vec::new(alloc);
    for component in components {
        push_if(&mut pairs, slotted_pair(component))?;
    }
    Ok(pairs)
}

/// What these components have in common.
pub fn repeats_of<'a>(
    alloc: Global,
    components: &'a [CheckedComponent<'_>],
) -> Result<Repeats<'a>, AllocError>
    ensures { IfOk result (AreRepeats components.now) }
{
    let numbered = numbered_names(alloc, components)?;
    let twice = names_twice(alloc, numbered)?;
    let clashing = clashing_names(alloc, &twice, components)?;
    let slotted = slotted_pairs(alloc, components)?;
    Ok(Repeats {
        clashing: names_once(alloc, clashing)?,
        slotted: pairs_twice(alloc, slotted)?,
    })
}
