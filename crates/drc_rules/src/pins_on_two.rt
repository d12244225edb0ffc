// Pins that are members of two nets, as findings.
ghost use Rattle.std.specs.Prelude.{◌≡◌, ◌++◌, OnOk};
ghost use Rattle.drc_rules.specs.steps.Pins.{member_on_two_by, pins_on_two_by};

use crate::pairs_on_two::pair_of;
use drc_findings::{Finding, Rule, add_error};
use net_list::Member;
use printed_texts::pin_words;
use std::alloc::{AllocError, Global};
use std::collections::BTreeSet;
use text_tallies::PairKey;

fn add_member_on_two<'a>(
    alloc: Global,
    found: &mut Vec<Finding>,
    on_two: &BTreeSet<PairKey<'a>>,
    member: &'a Member,
) -> Result<(), AllocError>
    ensures { OnOk result
        (found.new.items ≡ found.old.items ++ member_on_two_by on_two.now member.now) }
{
    if on_two.contains(&pair_of(member)) {
        let words = pin_words(alloc, member.refdes.as_str(), member.pin.as_str())?;
        add_error(found, Rule::PinOnTwoNets, words)?;
    }
    Ok(())
}

/// Adds what is found on members, by the pins that are members of two nets.
pub fn add_pins_on_two<'a>(
    alloc: Global,
    found: &mut Vec<Finding>,
    on_two: &BTreeSet<PairKey<'a>>,
    members: &'a [Member],
) -> Result<(), AllocError>
    ensures { OnOk result
        (found.new.items ≡ found.old.items ++ pins_on_two_by on_two.now members.now) }
{
    if on_two.is_empty() {
        return Ok(());
    }
    for member in members {
        add_member_on_two(alloc, found, on_two, member)?;
    }
    Ok(())
}
