// Nets that are open on purpose, and join pins.
ghost use Rattle.std.specs.Prelude.{◌≡◌, ◌++◌, OnOk};
ghost use Rattle.drc_rules.specs.OnNets.{no_connection};

use drc_findings::{Finding, Rule, add_error};
use net_list::Net;
use printed_texts::name_words;
use std::alloc::{AllocError, Global};

/// Adds what is found on a net with a no-connection directive and two members or more.
pub fn add_no_connection(
    alloc: Global,
    found: &mut Vec<Finding>,
    net: &Net,
) -> Result<(), AllocError>
    ensures { OnOk result (found.new.items ≡ found.old.items ++ no_connection net.now) }
{
    if net.directive && net.members.as_slice().len() >= 2 {
        add_error(
            found,
            Rule::NoConnection,
            name_words(alloc, net.name.as_str())?,
        )?;
    }
    Ok(())
}
