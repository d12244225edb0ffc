// Names that differ and print alike.
ghost use Rattle.std.specs.Prelude.{◌≡◌, IfOk, OnOk, map, option_copied};
ghost use Rattle.printed_texts.specs.PrintedTexts.{word};
ghost use Rattle.text_tallies.specs.LookAlike.{look_alike};
ghost use Rattle.text_tallies.specs.NameSets.{HasNames};
ghost use Rattle.text_tallies.specs.steps.FirstNames.{AddsDiffering, AddsFirst, AddsIf, first_at};

use crate::plain::are_plain;
use geda_model::Line;
use printed_texts::name_words;
use std::alloc::{AllocError, Global};
use std::collections::{BTreeMap, BTreeSet};

fn first_of<'a>(firsts: &BTreeMap<Line, &'a str>, printed: &Line) -> Option<&'a str>
    ensures { option_copied result ≡ first_at firsts.now printed.now }
{
    firsts.get(printed).copied()
}

fn add_if(differ: &mut BTreeSet<Line>, is_other: bool, printed: Line) -> Result<(), AllocError>
    ensures { OnOk result (AddsIf is_other printed differ.old differ.new) }
{
    if is_other {
        differ.insert(printed)?;
    }
    Ok(())
}

fn take_name<'a>(
    alloc: Global,
    firsts: &mut BTreeMap<Line, &'a str>,
    differ: &mut BTreeSet<Line>,
    name: &'a str,
) -> Result<(), AllocError>
    ensures firsts { OnOk result (AddsFirst (word name.now) name.now firsts.old firsts.new) }
    ensures differ { OnOk result (AddsDiffering name.now firsts.old differ.old differ.new) }
{
    let printed = name_words(alloc, name)?;
    match first_of(firsts, &printed) {
        None => {
            firsts.insert(printed, name)?;
        }
        Some(first) => add_if(differ, first != name, printed)?,
    }
    Ok(())
}

fn differing_texts(alloc: Global, names: &[&str]) -> Result<BTreeSet<Line>, AllocError>
    ensures { IfOk result (HasNames (look_alike (map (λ n. n.now) names.now))) }
{
    let mut firsts = BTreeMap::new(alloc);
    let mut differ = BTreeSet::new(alloc);
    for name in names {
        take_name(alloc, &mut firsts, &mut differ, name)?;
    }
    Ok(differ)
}

/// The printed texts of names that differ and print alike. Where all print as they are, none do.
pub fn alike_texts(alloc: Global, names: &[&str]) -> Result<BTreeSet<Line>, AllocError>
    ensures { IfOk result (HasNames (look_alike (map (λ n. n.now) names.now))) }
{
    if are_plain(names) {
        return Ok(BTreeSet::new(alloc));
    }
    differing_texts(alloc, names)
}
