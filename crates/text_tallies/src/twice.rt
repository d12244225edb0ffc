// Names and pairs that stand twice in a list.
ghost use Rattle.std.specs.Prelude.{◌≡◌, IfOk, OnOk};
ghost use Rattle.std.specs.List.{list_any};
ghost use Rattle.std.specs.Str.{bytes_eq};
ghost use Rattle.text_tallies.specs.NameSets.{HasNames};
ghost use Rattle.text_tallies.specs.PairSets.{HasPairs, same_pair};
ghost use Rattle.text_tallies.specs.TwoOfAList.{two_pass};
ghost use Rattle.text_tallies.specs.steps.KeySteps.{AddsName, AddsNameIfSeen, AddsPair};
ghost use Rattle.text_tallies.specs.steps.KeySteps.{AddsPairIfSeen, name_key};

use crate::pair::PairKey;
use geda_model::Line;
use std::alloc::{AllocError, Global};
use std::collections::{BTreeSet, HashSet};

/// The names of a list, each once.
pub fn names_once(alloc: Global, names: Vec<Line>) -> Result<BTreeSet<Line>, AllocError>
    ensures { IfOk result (HasNames (λ q. list_any (bytes_eq q) names.items)) }
{
    let set = names.into_iter().collect(alloc)?;
    Ok(set)
}

/// A name as a pair, with nothing behind it.
#[tactic(auto, unfolding(crate::specs::steps::KeySteps::name_key))]
fn name_key(name: &Line) -> PairKey<'_>
    ensures { result ≡ name_key name.now }
{
    PairKey {
        first: name.as_str(),
        second: "",
    }
}

fn take_name<'a>(
    seen: &mut HashSet<PairKey<'a>>,
    twice: &mut BTreeSet<Line>,
    name: &'a Line,
) -> Result<(), AllocError>
    ensures seen { OnOk result (AddsName name.now seen.old seen.new) }
    ensures twice { OnOk result (AddsNameIfSeen name.now seen.old twice.old twice.new) }
{
    let key = name_key(name);
    if seen.contains(&key) {
        twice.insert(name.clone()?)?;
        return Ok(());
    }
    seen.insert(key)?;
    Ok(())
}

fn take_pair<'a>(
    seen: &mut HashSet<PairKey<'a>>,
    twice: &mut BTreeSet<PairKey<'a>>,
    pair: PairKey<'a>,
) -> Result<(), AllocError>
    ensures seen { OnOk result (AddsPair pair.entry seen.old seen.new) }
    ensures twice { OnOk result (AddsPairIfSeen pair.entry seen.old twice.old twice.new) }
{
    if seen.contains(&pair) {
        twice.insert(pair)?;
        return Ok(());
    }
    seen.insert(pair)?;
    Ok(())
}

fn names_twice_in(alloc: Global, names: &[Line]) -> Result<BTreeSet<Line>, AllocError>
    ensures { IfOk result (HasNames (λ q. two_pass (bytes_eq q) names.now)) }
{
    let mut seen = HashSet::with_capacity(alloc, names.len())?;
    let mut twice = BTreeSet::new(alloc);
    for name in names {
        take_name(&mut seen, &mut twice, name)?;
    }
    Ok(twice)
}

/// The names that stand twice in a list.
pub fn names_twice(alloc: Global, names: Vec<Line>) -> Result<BTreeSet<Line>, AllocError>
    ensures { IfOk result (HasNames (λ q. two_pass (bytes_eq q) names.items)) }
{
    names_twice_in(alloc, names.as_slice())
}

/// The same pair, lent once more.
fn copy_of<'a>(pair: &PairKey<'a>) -> PairKey<'a>
    ensures { result ≡ pair.now }
{
    PairKey {
        first: pair.first,
        second: pair.second,
    }
}

fn pairs_twice_in<'a>(
    alloc: Global,
    pairs: &[PairKey<'a>],
) -> Result<BTreeSet<PairKey<'a>>, AllocError>
    ensures { IfOk result (HasPairs (λ q. two_pass (same_pair q) pairs.now)) }
{
    let mut seen = HashSet::with_capacity(alloc, pairs.len())?;
    let mut twice = BTreeSet::new(alloc);
    for pair in pairs {
        take_pair(&mut seen, &mut twice, copy_of(pair))?;
    }
    Ok(twice)
}

/// The pairs that stand twice in a list.
pub fn pairs_twice<'a>(
    alloc: Global,
    pairs: Vec<PairKey<'a>>,
) -> Result<BTreeSet<PairKey<'a>>, AllocError>
    ensures { IfOk result (HasPairs (λ q. two_pass (same_pair q) pairs.entry.items)) }
{
    pairs_twice_in(alloc, pairs.as_slice())
}
