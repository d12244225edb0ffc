// What is found on the slot, the pins, the symbol and the nets of a component.
ghost use Rattle.std.specs.Prelude.{◌≡◌, ◌++◌, ◌∷◌, [], OnOk, map};
ghost use Rattle.component_checks.specs.OnComponents.{bad_net, bad_slot, fault_word};
ghost use Rattle.component_checks.specs.OnComponents.{missing_symbol, unknown_pins};
ghost use Rattle.component_checks.specs.steps.FoundBy.{found_on_contents, unknown_at};

use crate::checked::CheckedComponent;
use crate::parts::{is_listed, refdes_of};
use attr_rules::SlotFault;
use drc_findings::{Finding, Rule, add_error, add_warning};
use geda_model::Word;
use printed_texts::{numbered_words, pair_words, pin_words};
use std::alloc::{AllocError, Global};

fn fault_word(fault: SlotFault) -> &'static str
    ensures { result.now ≡ fault_word fault }
{
    match fault {
        SlotFault::NoSlotdef => "NoSlotdef",
        SlotFault::BadSlotdef => "BadSlotdef",
        SlotFault::SlotRange => "SlotRange",
        SlotFault::NoMemory => "",
    }
}

#[tactic(auto, using(crate::proofs::FaultLemmas::fault_again))]
fn add_bad_slot(
    alloc: Global,
    found: &mut Vec<Finding>,
    component: &CheckedComponent<'_>,
) -> Result<(), AllocError>
    ensures { OnOk result (found.new.items ≡ found.old.items ++ bad_slot component.now) }
{
    if let Some(fault) = component.slot_fault {
        if is_listed(component) {
            let words = pair_words(alloc, refdes_of(component), fault_word(fault))?;
            add_error(found, Rule::BadSlot, words)?;
        }
    }
    Ok(())
}

fn add_unknown_pin(
    alloc: Global,
    found: &mut Vec<Finding>,
    component: &CheckedComponent<'_>,
    number: &Word,
) -> Result<(), AllocError>
    ensures { OnOk result
        (found.new.items ≡ found.old.items ++ unknown_at component.now number.now ∷ []) }
{
    let words = pin_words(alloc, refdes_of(component), number.as_str())?;
    add_warning(found, Rule::UnknownPintype, words)
}

fn add_unknown_among(
    alloc: Global,
    found: &mut Vec<Finding>,
    component: &CheckedComponent<'_>,
    numbers: &[Word],
) -> Result<(), AllocError>
    ensures { OnOk result
        (found.new.items ≡ found.old.items ++ map (unknown_at component.now) numbers.now) }
{
    for number in numbers {
        add_unknown_pin(alloc, found, component, number)?;
    }
    Ok(())
}

fn add_unknown_pins(
    alloc: Global,
    found: &mut Vec<Finding>,
    component: &CheckedComponent<'_>,
) -> Result<(), AllocError>
    ensures { OnOk result (found.new.items ≡ found.old.items ++ unknown_pins component.now) }
{
    if !is_listed(component) {
        return Ok(());
    }
    add_unknown_among(alloc, found, component, component.pins.unknown())
}

fn add_missing_symbol(
    alloc: Global,
    found: &mut Vec<Finding>,
    component: &CheckedComponent<'_>,
) -> Result<(), AllocError>
    ensures { OnOk result (found.new.items ≡ found.old.items ++ missing_symbol component.now) }
{
    if !component.has_symbol {
        let sheet = component.sheet.as_str();
        add_error(
            found,
            Rule::MissingSymbol,
            pair_words(alloc, sheet, component.basename.as_str())?,
        )?;
    }
    Ok(())
}

fn add_bad_net(
    alloc: Global,
    found: &mut Vec<Finding>,
    component: &CheckedComponent<'_>,
) -> Result<(), AllocError>
    ensures { OnOk result (found.new.items ≡ found.old.items ++ bad_net component.now) }
{
    if component.has_bad_net {
        let sheet = component.sheet.as_str();
        add_error(
            found,
            Rule::BadNet,
            numbered_words(alloc, sheet, component.id)?,
        )?;
    }
    Ok(())
}

/// Adds what is found on the slot, the pins, the symbol and the nets of a component: the rules
/// BadSlot, UnknownPintype, MissingSymbol and BadNet.
pub fn add_on_contents(
    alloc: Global,
    found: &mut Vec<Finding>,
    component: &CheckedComponent<'_>,
) -> Result<(), AllocError>
    ensures { OnOk result (found.new.items ≡ found.old.items ++ found_on_contents component.now) }
{
    add_bad_slot(alloc, found, component)?;
    add_unknown_pins(alloc, found, component)?;
    add_missing_symbol(alloc, found, component)?;
    add_bad_net(alloc, found, component)
}
