// What is at fault with the values of a component.
ghost use Rattle.std.specs.Prelude.{◌≡◌, IfOk, IsTrue, option_copied};
ghost use Rattle.attr_rules.specs.FirstValues.{values_of};
ghost use Rattle.component_checks.specs.steps.SoundSymbols.{faults_of, no_faults};

use crate::attributes::{has_bad_net, slot_fault};
use attr_rules::{FirstValues, SlotFault};
use geda_model::{Object, Symbol};
use std::alloc::{AllocError, Global};

/// What is at fault with the values of a component.
#[derive(Clone, Copy)]
pub struct ValueFaults {
    /// Whether one of its values of `net`, attached or inherited, is bad.
    pub bad_net: bool,
    /// Why its `slot` gives no pin numbers, where it gives none.
    pub slot: Option<SlotFault>,
}

/// What is at fault with the values of a component with these first values; nothing is asked where
/// it is known that nothing is.
pub fn value_faults(
    alloc: Global,
    object: &Object,
    library: Option<&Symbol>,
    values: &FirstValues<'_>,
    is_sound: bool,
) -> Result<ValueFaults, AllocError>
    requires { values.now ≡ values_of object.now (option_copied library) }
    ensures { (IsTrue is_sound
        → faults_of object.now (option_copied library.entry) values.now.slot ≡ no_faults)
        → IfOk result (λ faults. faults
        ≡ faults_of object.now (option_copied library.entry) values.now.slot) }
{
    if is_sound {
        return Ok(ValueFaults {
            bad_net: false,
            slot: None,
        });
    }
    Ok(ValueFaults {
        bad_net: has_bad_net(alloc, object, library, values.net)?,
        slot: slot_fault(alloc, object, library, values.slot)?,
    })
}
