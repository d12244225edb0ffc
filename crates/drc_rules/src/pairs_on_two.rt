// The pins that are members of two nets.
ghost use Rattle.std.specs.Prelude.{◌≡◌, IfOk, IsTrue, OnOk, false};
ghost use Rattle.text_tallies.specs.PairSets.{PairData};
ghost use Rattle.text_tallies.specs.TwoOfAList.{two_pass};
ghost use Rattle.drc_rules.specs.OnNets.{has_pair_in, pair_of};
ghost use Rattle.drc_rules.specs.steps.Pins.{AddsPair, AddsPairIfSeen, AddsPairs};
ghost use Rattle.drc_rules.specs.steps.Pins.{AddsPairsIfSeen, AreUnseen, HasPinsOnTwo, is_seen};

use net_list::{Member, Net};
use std::alloc::{AllocError, Global};
use std::collections::{BTreeSet, HashSet};
use text_tallies::PairKey;

/// The refdes and the pin number of a member. It takes no memory.
pub fn pair_of(member: &Member) -> PairKey<'_>
    ensures { result ≡ pair_of member.now }
{
    PairKey {
        first: member.refdes.as_str(),
        second: member.pin.as_str(),
    }
}

fn add_pair<'a>(seen: &mut HashSet<PairKey<'a>>, pair: PairKey<'a>) -> Result<(), AllocError>
    ensures { OnOk result (AddsPair pair.entry seen.old seen.new) }
{
    seen.insert(pair)?;
    Ok(())
}

fn add_if_seen<'a>(
    seen: &HashSet<PairKey<'a>>,
    twice: &mut BTreeSet<PairKey<'a>>,
    pair: PairKey<'a>,
) -> Result<(), AllocError>
    ensures { OnOk result (AddsPairIfSeen pair.entry seen.now twice.old twice.new) }
{
    if seen.contains(&pair) {
        twice.insert(pair)?;
    }
    Ok(())
}

fn add_members<'a>(seen: &mut HashSet<PairKey<'a>>, members: &'a [Member]) -> Result<(), AllocError>
    ensures { OnOk result (AddsPairs members.now seen.old seen.new) }
{
    for member in members {
        add_pair(seen, pair_of(member))?;
    }
    Ok(())
}

#[tactic(auto, using(crate::proofs::PinLemmas::seen_more))]
fn add_seen_members<'a>(
    seen: &HashSet<PairKey<'a>>,
    twice: &mut BTreeSet<PairKey<'a>>,
    members: &'a [Member],
) -> Result<(), AllocError>
    ensures { OnOk result (AddsPairsIfSeen members.now seen.now twice.old twice.new) }
{
    for member in members {
        add_if_seen(seen, twice, pair_of(member))?;
    }
    Ok(())
}

// Members are first asked of those that were seen, so that a pair twice in one net is not on two.
fn take_net<'a>(
    seen: &mut HashSet<PairKey<'a>>,
    twice: &mut BTreeSet<PairKey<'a>>,
    members: &'a [Member],
) -> Result<(), AllocError>
    ensures seen { OnOk result (AddsPairs members.now seen.old seen.new) }
    ensures twice { OnOk result (AddsPairsIfSeen members.now seen.old twice.old twice.new) }
{
    add_seen_members(seen, twice, members)?;
    add_members(seen, members)
}

// For room alone: no answer rests on it.
fn member_count(nets: &[Net]) -> usize {
    let mut count: usize = 0;
    for net in nets {
        count = count.saturating_add(net.members.as_slice().len());
    }
    count
}

/// Adds a pair, and answers whether it is new.
fn add_new<'a>(seen: &mut HashSet<PairKey<'a>>, pair: PairKey<'a>) -> Result<bool, AllocError>
    ensures adds { OnOk result (AddsPair pair.entry seen.old seen.new) }
    ensures fresh { IfOk result (λ added. IsTrue added → is_seen seen.old pair.entry ≡ false) }
{
    let added = seen.insert(pair)?;
    Ok(added)
}

/// Adds the pairs of members up to the first that is not new, and answers whether there is none.
fn add_all_new<'a>(
    seen: &mut HashSet<PairKey<'a>>,
    members: &'a [Member],
) -> Result<bool, AllocError>
    ensures adds { IfOk result (λ fresh. IsTrue fresh → AddsPairs members.now seen.old seen.new) }
    ensures unseen { IfOk result (λ fresh. IsTrue fresh → AreUnseen members.now seen.old) }
{
    for member in members {
        let added = add_new(seen, pair_of(member))?;
        if !added {
            return Ok(false);
        }
    }
    Ok(true)
}

/// Whether it is clear, by asking once for each member, that no pin is a member of two nets.
fn are_all_new(alloc: Global, nets: &[Net]) -> Result<bool, AllocError>
    ensures { IfOk result (λ fresh. IsTrue fresh
        → (q : PairData) → two_pass (has_pair_in q) nets.now ≡ false) }
{
    let mut seen = HashSet::with_capacity(alloc, member_count(nets))?;
    for net in nets {
        let added = add_all_new(&mut seen, net.members.as_slice())?;
        if !added {
            return Ok(false);
        }
    }
    Ok(true)
}

fn pairs_among<'a>(alloc: Global, nets: &'a [Net]) -> Result<BTreeSet<PairKey<'a>>, AllocError>
    ensures { IfOk result (HasPinsOnTwo nets.now) }
{
    let mut seen = HashSet::with_capacity(alloc, member_count(nets))?;
    let mut twice = BTreeSet::new(alloc);
    for net in nets {
        take_net(&mut seen, &mut twice, net.members.as_slice())?;
    }
    Ok(twice)
}

/// The pins that are members of two nets.
pub fn pairs_on_two<'a>(alloc: Global, nets: &'a [Net]) -> Result<BTreeSet<PairKey<'a>>, AllocError>
    ensures { IfOk result (HasPinsOnTwo nets.now) }
{
    let all_new = are_all_new(alloc, nets)?;
    if all_new {
        return Ok(BTreeSet::new(alloc));
    }
    pairs_among(alloc, nets)
}
