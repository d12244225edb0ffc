// Nets that nothing drives.
ghost use Rattle.std.specs.Prelude.{◌≡◌, ◌++◌, OnOk};
ghost use Rattle.std.specs.List.{list_all};
ghost use Rattle.drc_rules.specs.OnNets.{is_driven_kind, is_undriven, not_driven};

use crate::kind_counts::is_of_kind;
use crate::unconnected::may_be_open;
use attr_rules::PinKind;
use drc_findings::{Finding, Rule, add_error};
use net_list::{Member, Net};
use printed_texts::name_words;
use std::alloc::{AllocError, Global};

fn is_driven_kind(member: &Member) -> bool
    ensures { result ≡ is_driven_kind member.now }
{
    is_of_kind(member, PinKind::In) || is_of_kind(member, PinKind::Clk)
}

fn are_driven_kinds(members: &[Member]) -> bool
    ensures { result ≡ list_all is_driven_kind members.now }
{
    members.iter().all(|member| is_driven_kind(member))
}

fn is_undriven(net: &Net) -> bool
    ensures { result ≡ is_undriven net.now }
{
    if may_be_open(net) || net.global {
        return false;
    }
    let members = net.members.as_slice();
    if members.len() == 0 {
        return false;
    }
    are_driven_kinds(members)
}

/// Adds what is found on a net that nothing drives.
pub fn add_not_driven(alloc: Global, found: &mut Vec<Finding>, net: &Net) -> Result<(), AllocError>
    ensures { OnOk result (found.new.items ≡ found.old.items ++ not_driven net.now) }
{
    if is_undriven(net) {
        add_error(
            found,
            Rule::NotDriven,
            name_words(alloc, net.name.as_str())?,
        )?;
    }
    Ok(())
}
