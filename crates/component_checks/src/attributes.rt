// What the attributes and the pins of a component say to the check.
ghost use Rattle.std.specs.Prelude.{List, ℕ, ◌≡◌, All, IfOk, Some, codes, option_copied};
ghost use Rattle.std.specs.Prelude.{option_map};
ghost use Rattle.std.specs.List.{list_any};
ghost use Rattle.geda_model.specs.Names.{IsLineByte};
ghost use Rattle.attr_rules.specs.Attributes.{all_attrs, attr};
ghost use Rattle.attr_rules.specs.Slots.{slot_count};
ghost use Rattle.instance_objects.specs.Texts.{under};
ghost use Rattle.component_checks.specs.CheckedComponents.{is_bad_net, slot_fault};

use attr_rules::{NetFault, SlotFault, all_attrs_of, net_entries, short_number, slot_pins_of};
use geda_model::{Block, Line, Object, Symbol};
use hierarchy::Instance;
use instance_objects::line_under;
use std::alloc::{AllocError, Global};

/// The printed refdes of a component that has this refdes, if it has one.
pub fn printed_refdes(
    alloc: Global,
    instance: &Instance,
    refdes: Option<&str>,
) -> Result<Option<Line>, AllocError>
    requires { (text : List ℕ) → Some text ≡ option_copied refdes → All IsLineByte text }
    ensures { IfOk result (λ printed. printed ≡ option_map (under instance.now.path)
        (option_copied refdes.entry)) }
{
    match refdes {
        None => Ok(None),
        Some(refdes) => Ok(Some(line_under(alloc, &instance.path, refdes)?)),
    }
}

fn is_bad_net(alloc: Global, value: &str) -> Result<bool, AllocError>
    ensures { IfOk result (λ bad. bad ≡ is_bad_net value.now) }
{
    match net_entries(alloc, value) {
        Ok(_) => Ok(false),
        Err(NetFault::BadNet) => Ok(true),
        Err(NetFault::NoMemory) => Err(AllocError),
    }
}

fn some_bad_net(alloc: Global, values: &[Block]) -> Result<bool, AllocError>
    ensures { IfOk result (λ bad. bad ≡ list_any is_bad_net values.now) }
{
    for value in values {
        if is_bad_net(alloc, value.as_str())? {
            return Ok(true);
        }
    }
    Ok(false)
}

/// Whether a value of `net`, attached or inherited, is bad, where this is the first one.
pub fn has_bad_net(
    alloc: Global,
    object: &Object,
    library: Option<&Symbol>,
    first: Option<&str>,
) -> Result<bool, AllocError>
    requires { option_copied first ≡ attr object.now (option_copied library) (codes "net") }
    ensures { IfOk result (λ bad. bad ≡
        list_any is_bad_net (all_attrs object.now (option_copied library.entry) (codes "net"))) }
{
    match first {
        None => Ok(false),
        Some(_) => {
            let values = all_attrs_of(alloc, object, library, "net")?;
            some_bad_net(alloc, values.as_slice())
        }
    }
}

/// Why this value of `slot` gives no pin numbers, if there is one that gives none.
pub fn slot_fault(
    alloc: Global,
    object: &Object,
    library: Option<&Symbol>,
    slot: Option<&str>,
) -> Result<Option<SlotFault>, AllocError>
    ensures { IfOk result (λ fault. fault ≡
        slot_fault object.now (option_copied library.entry) (option_copied slot.entry)) }
{
    let Some(slot) = slot else {
        return Ok(None);
    };
    match slot_pins_of(alloc, object, library, slot) {
        Ok(_) => Ok(None),
        Err(SlotFault::NoMemory) => Err(AllocError),
        Err(fault) => Ok(Some(fault)),
    }
}

/// The count of slots, if this value of `numslots` is 1 to 4 digits. It takes no memory.
pub fn slot_count(numslots: Option<&str>) -> Option<u32>
    ensures { result ≡ slot_count (option_copied numslots.entry) }
{
    short_number(numslots?)
}
