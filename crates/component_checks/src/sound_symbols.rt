// Library symbols with whose values nothing is at fault, by their names and values of `slot`.
ghost use Rattle.std.specs.Prelude.{◌≡◌, IfSome, IsTrue, None, OnOk, Some};
ghost use Rattle.project_model.specs.Projects.{ProjectData};
ghost use Rattle.component_checks.specs.steps.SoundSymbols.{AreSound, HasFaults, IsKey, IsSound};
ghost use Rattle.component_checks.specs.steps.SoundSymbols.{no_faults};

use crate::value_faults::ValueFaults;
use attr_rules::FirstValues;
use geda_model::{Component, Object};
use pin_place::is_plain;
use std::alloc::AllocError;
use std::collections::HashSet;
use text_tallies::PairKey;

fn name_key<'a>(basename: &'a str) -> PairKey<'a>
    ensures { IsKey basename.now None result }
{
    PairKey {
        first: basename,
        second: "",
    }
}

#[tactic(auto, using(crate::proofs::SoundLemmas::filled_key))]
fn slot_key<'a>(basename: &'a str, slot: &'a str) -> Option<PairKey<'a>>
    ensures { IfSome result (λ key. IsKey basename.now (Some slot.now) key) }
{
    if slot.len() == 0 {
        return None;
    }
    Some(PairKey {
        first: basename,
        second: slot,
    })
}

/// The key of the symbol of a component under its slot. An empty value of `slot` has none.
fn key_of<'a>(component: &'a Component, values: &FirstValues<'a>) -> Option<PairKey<'a>>
    ensures { IfSome result (λ key. IsKey component.now.basename values.now.slot key) }
{
    let basename = component.basename.as_str();
    match values.slot {
        None => Some(name_key(basename)),
        Some(slot) => slot_key(basename, slot),
    }
}

// Where there is neither a `net` nor a `slot`, a look-up saves nothing: no answer rests on it.
fn asks_nothing(values: &FirstValues<'_>) -> bool {
    values.net.is_none() && values.slot.is_none()
}

/// Whether it is known that nothing is at fault with the symbol of a component under its slot. It
/// takes no memory.
pub fn is_sound<'a>(
    sound: &HashSet<PairKey<'a>>,
    component: &'a Component,
    values: &FirstValues<'a>,
) -> bool
    ensures { (p : ProjectData) → AreSound p sound.now → IsTrue result
        → IsSound p component.now.basename values.now.slot }
{
    if asks_nothing(values) {
        return false;
    }
    match key_of(component, values) {
        None => false,
        Some(key) => sound.contains(&key),
    }
}

fn add_sound<'a>(
    sound: &mut HashSet<PairKey<'a>>,
    component: &'a Component,
    values: &FirstValues<'a>,
) -> Result<(), AllocError>
    ensures { OnOk result ((p : ProjectData) → IsSound p component.now.basename values.now.slot
        → AreSound p sound.old → AreSound p sound.new) }
{
    if let Some(key) = key_of(component, values) {
        sound.insert(key)?;
    }
    Ok(())
}

/// Whether these are none. It takes no memory.
fn are_none(faults: ValueFaults) -> bool
    ensures { IsTrue result → faults ≡ no_faults }
{
    if faults.bad_net {
        return false;
    }
    faults.slot.is_none()
}

fn take_in_alone<'a>(
    sound: &mut HashSet<PairKey<'a>>,
    object: &'a Object,
    component: &'a Component,
    values: &FirstValues<'a>,
    faults: ValueFaults,
) -> Result<(), AllocError>
    requires { component.now.embedded ≡ None }
    ensures { OnOk result ((p : ProjectData)
        → HasFaults p object.now component.now values.now faults
        → AreSound p sound.old → AreSound p sound.new) }
{
    if !are_none(faults) {
        return Ok(());
    }
    let own = FirstValues::of_texts(object.attrs.as_slice());
    if !is_plain(&own, values) {
        return Ok(());
    }
    add_sound(sound, component, values)?;
    Ok(())
}

/// Takes in the symbol of a component with these first values and faults, where it gives the
/// component its pins and nothing is at fault.
pub fn take_in<'a>(
    sound: &mut HashSet<PairKey<'a>>,
    object: &'a Object,
    component: &'a Component,
    values: &FirstValues<'a>,
    faults: ValueFaults,
) -> Result<(), AllocError>
    ensures { OnOk result ((p : ProjectData)
        → HasFaults p object.now component.now values.now faults
        → AreSound p sound.old → AreSound p sound.new) }
{
    if component.embedded.is_none() {
        take_in_alone(sound, object, component, values, faults)?;
    }
    Ok(())
}
