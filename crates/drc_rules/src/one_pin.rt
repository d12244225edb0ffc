// Nets with one member.
ghost use Rattle.std.specs.Prelude.{◌≡◌, ◌++◌, OnOk};
ghost use Rattle.drc_rules.specs.OnNets.{one_pin};

use crate::unconnected::may_be_open;
use drc_findings::{Finding, Rule, add_warning};
use net_list::Net;
use printed_texts::name_words;
use std::alloc::{AllocError, Global};

/// Adds what is found on a net with one member; nothing is where that may be open.
pub fn add_one_pin(alloc: Global, found: &mut Vec<Finding>, net: &Net) -> Result<(), AllocError>
    ensures { OnOk result (found.new.items ≡ found.old.items ++ one_pin net.now) }
{
    if !may_be_open(net) && net.members.as_slice().len() == 1 {
        add_warning(found, Rule::OnePin, name_words(alloc, net.name.as_str())?)?;
    }
    Ok(())
}
