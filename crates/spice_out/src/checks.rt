// The fault of a package with a card.
ghost use Rattle.std.specs.Prelude.{List, ◌≡◌, ◌++◌, ◌∷◌, [], true, IfOk, OnOk, option_copied};
ghost use Rattle.net_list.specs.declared.package.Package.{Package};
ghost use Rattle.spice_out.specs.Cards.{has_card};
ghost use Rattle.spice_out.specs.Faults.{card_fault, clashes, fault_of};
ghost use Rattle.spice_out.specs.SpiceText.{value_of};
ghost use Rattle.spice_out.specs.steps.FirstPins.{AreFirsts};
ghost use Rattle.spice_out.specs.steps.CardNames.{HasNames};

use crate::card_names::{card_name, folded};
use crate::fault::SpiceFault;
use crate::net_nodes::NetNode;
use crate::package_pins::{has_pins, is_on_two_nets};
use crate::pin_table::Pin;
use geda_model::Block;
use net_list::Package;
use std::alloc::{AllocError, Global};
use std::collections::{BTreeMap, BTreeSet};

/// Takes in the name of a card. Whether an earlier card has it already.
fn take_name(
    alloc: Global,
    names: &mut BTreeSet<Vec<u8>>,
    part: &Package,
) -> Result<bool, AllocError>
    ensures clash { IfOk result (λ clash. (earlier : List Package)
        → HasNames earlier names.old → clash ≡ clashes earlier part.now) }
    ensures names { OnOk result ((earlier : List Package) → has_card part.now.refdes ≡ true
        → HasNames earlier names.old → HasNames (earlier ++ part.now ∷ []) names.new) }
{
    let name = card_name(alloc, part.refdes.as_str())?;
    let is_new = names.insert(folded(alloc, name.as_slice())?)?;
    Ok(!is_new)
}

/// The value of a package, else its device. It takes no memory.
pub fn value_of(part: &Package) -> Option<&Block>
    ensures { option_copied result ≡ value_of part.now }
{
    match &part.value {
        Some(value) => Some(value),
        None => part.device.as_ref(),
    }
}

fn fault_of(
    part: &Package,
    clash: bool,
    has_pins: bool,
    is_on_two: bool,
) -> Result<Option<SpiceFault>, AllocError>
    ensures { IfOk result (λ fault. fault ≡ fault_of clash has_pins is_on_two part.now) }
{
    let refdes = part.refdes.clone()?;
    if clash {
        return Ok(Some(SpiceFault::NameClash { refdes }));
    }
    if !has_pins {
        return Ok(Some(SpiceFault::PinSet { refdes }));
    }
    if is_on_two {
        return Ok(Some(SpiceFault::TwoNets { refdes }));
    }
    if value_of(part).is_none() {
        return Ok(Some(SpiceFault::NoValue { refdes }));
    }
    Ok(None)
}

/// The first fault of a package with a card of so many pins. Takes in the name of the card.
pub fn card_fault(
    alloc: Global,
    names: &mut BTreeSet<Vec<u8>>,
    part: &Package,
    pins: &[Pin<'_>],
    firsts: &BTreeMap<&str, NetNode>,
    count: usize,
) -> Result<Option<SpiceFault>, AllocError>
    requires firsts { AreFirsts pins.now firsts.now }
    ensures fault { IfOk result (λ fault. (earlier : List Package) → HasNames earlier names.old
        → fault ≡ card_fault (clashes earlier part.now) pins.now part.now count) }
    ensures names { OnOk result ((earlier : List Package) → has_card part.now.refdes ≡ true
        → HasNames earlier names.old → HasNames (earlier ++ part.now ∷ []) names.new) }
{
    let clash = take_name(alloc, names, part)?;
    let has_pins = has_pins(alloc, firsts, count)?;
    fault_of(part, clash, has_pins, is_on_two_nets(firsts, pins))
}
