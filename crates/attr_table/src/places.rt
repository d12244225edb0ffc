// Where the first text of each name stands, among those that are attached to a component.
ghost use Rattle.std.specs.Prelude.{◌≡◌, ◌++◌, ◌∷◌, [], List, IfOk, OnOk, length, option_copied, slice_get};
ghost use Rattle.geda_model.specs.Data.{TextData};
ghost use Rattle.attr_rules.specs.Attributes.{values_named};
ghost use Rattle.attr_table.specs.steps.Places.{ArePlaces, value_in};

use attr_rules::split_attr;
use geda_model::Text;
use std::alloc::{AllocError, Global};
use std::collections::BTreeMap;

/// Takes in a text that stands at a place, unless its name is there already.
fn take_first<'a>(
    firsts: &mut BTreeMap<&'a str, usize>,
    text: &'a Text,
    place: usize,
) -> Result<(), AllocError>
    ensures { OnOk result ((before : List TextData) → place ≡ length before →
        ArePlaces before firsts.old → ArePlaces (before ++ text.now ∷ []) firsts.new) }
{
    let Some((name, _)) = split_attr(text.content.as_str()) else {
        return Ok(());
    };
    if !firsts.contains_key(name) {
        firsts.insert(name, place)?;
    }
    Ok(())
}

/// Where the first text of each name stands.
pub fn places_of<'a>(
    alloc: Global,
    texts: &'a [Text],
) -> Result<BTreeMap<&'a str, usize>, AllocError>
    ensures { IfOk result (ArePlaces texts.now) }
{
    let mut firsts = BTreeMap::new(alloc);
    for place in 0..texts.len() {
        take_first(&mut firsts, &texts[place], place)?;
    }
    Ok(firsts)
}

/// The value of the attribute that the text at a place is.
fn value_at<'a>(texts: &'a [Text], place: usize) -> Option<&'a str>
    ensures { option_copied result ≡ value_in (slice_get texts.now place) }
{
    let text = texts.get(place)?;
    let (_, value) = split_attr(text.content.as_str())?;
    Some(value)
}

/// The value of the first text of a name. It takes no memory.
pub fn value_of<'a>(
    texts: &'a [Text],
    firsts: &BTreeMap<&str, usize>,
    name: &str,
) -> Option<&'a str>
    requires { ArePlaces texts.now firsts.now }
    ensures { option_copied result ≡ slice_get (values_named name.now texts.now) 0 }
{
    match firsts.get(name).copied() {
        Some(place) => value_at(texts, place),
        None => None,
    }
}
