// Kinds of pins that should not meet in a net.
ghost use Rattle.std.specs.Prelude.{◌≡◌, ◌++◌, IsTrue, OnOk, true};
ghost use Rattle.std.specs.List.{list_all};
ghost use Rattle.drc_rules.specs.OnNets.{conflicts};
ghost use Rattle.drc_rules.specs.steps.Counts.{conflict_by, conflicts_by, conflicts_with_by};
ghost use Rattle.drc_rules.specs.steps.Counts.{is_conflict_by, meet_by};
ghost use Rattle.drc_rules.specs.steps.Meetings.{all_may_meet, may_meet};

use crate::kind_counts::{KindCount, kind_counts};
use crate::kind_words::conflict_words;
use drc_findings::{Finding, Rule, add_finding};
use net_list::{Member, Net};
use pin_matrix::{Matrix, are_in_order, is_correct, same_kind};
use std::alloc::{AllocError, Global};

fn meet(first: KindCount, second: KindCount) -> bool
    ensures { result ≡ meet_by first second }
{
    if same_kind(first.kind, second.kind) {
        return first.count >= 2;
    }
    first.count >= 1 && second.count >= 1
}

fn is_conflict(matrix: &Matrix, first: KindCount, second: KindCount) -> bool
    ensures { result ≡ is_conflict_by matrix.now first second }
{
    if !are_in_order(first.kind, second.kind) {
        return false;
    }
    if is_correct(matrix.entry(first.kind, second.kind)) {
        return false;
    }
    meet(first, second)
}

fn add_conflict(
    alloc: Global,
    found: &mut Vec<Finding>,
    matrix: &Matrix,
    name: &str,
    first: KindCount,
    second: KindCount,
) -> Result<(), AllocError>
    ensures { OnOk result
        (found.new.items ≡ found.old.items ++ conflict_by matrix.now name.now first second) }
{
    if is_conflict(matrix, first, second) {
        let words = conflict_words(alloc, name, first.kind, second.kind)?;
        add_finding(
            found,
            matrix.entry(first.kind, second.kind),
            Rule::Conflict,
            words,
        )?;
    }
    Ok(())
}

fn add_conflicts_with(
    alloc: Global,
    found: &mut Vec<Finding>,
    matrix: &Matrix,
    name: &str,
    others: &[KindCount],
    first: KindCount,
) -> Result<(), AllocError>
    ensures { OnOk result (found.new.items
        ≡ found.old.items ++ conflicts_with_by matrix.now name.now others.now first) }
{
    if first.count == 0 {
        return Ok(());
    }
    for second in others {
        add_conflict(alloc, found, matrix, name, first, *second)?;
    }
    Ok(())
}

fn add_conflicts_among(
    alloc: Global,
    found: &mut Vec<Finding>,
    matrix: &Matrix,
    name: &str,
    counts: &[KindCount],
) -> Result<(), AllocError>
    ensures { OnOk result
        (found.new.items ≡ found.old.items ++ conflicts_by matrix.now name.now counts.now) }
{
    for first in counts {
        add_conflicts_with(alloc, found, matrix, name, counts, *first)?;
    }
    Ok(())
}

#[tactic(auto, using(crate::proofs::ConflictLemmas::conflicts_counted))]
fn add_conflicts_of(
    alloc: Global,
    found: &mut Vec<Finding>,
    matrix: &Matrix,
    net: &Net,
) -> Result<(), AllocError>
    ensures { OnOk result (found.new.items ≡ found.old.items ++ conflicts matrix.now net.now) }
{
    let counts = kind_counts(net.members.as_slice());
    add_conflicts_among(alloc, found, matrix, net.name.as_str(), &counts)
}

/// So many members are compared with each other.
const FEW: usize = 8;

fn may_meet(matrix: &Matrix, first: &Member, second: &Member) -> bool
    ensures { result ≡ may_meet matrix.now first.now second.now }
{
    is_correct(matrix.entry(first.kind, second.kind))
}

fn may_meet_others(matrix: &Matrix, first: &Member, others: &[Member]) -> bool
    ensures { result ≡ list_all (may_meet matrix.now first.now) others.now }
{
    others.iter().all(|other| may_meet(matrix, first, other))
}

fn all_may_meet(matrix: &Matrix, members: &[Member]) -> bool
    ensures { result ≡ all_may_meet matrix.now members.now }
{
    let mut rest = members;
    while let [first, others @ ..] = rest {
        if !may_meet_others(matrix, first, others) {
            return false;
        }
        rest = others;
    }
    true
}

/// Whether there are few members, each two of which may meet.
fn few_may_meet(matrix: &Matrix, members: &[Member]) -> bool
    ensures { IsTrue result → all_may_meet matrix.now members.now ≡ true }
{
    if members.len() > FEW {
        return false;
    }
    all_may_meet(matrix, members)
}

/// Adds what is found on kinds that meet in a net; nothing does where it has one member alone.
pub fn add_conflicts(
    alloc: Global,
    found: &mut Vec<Finding>,
    matrix: &Matrix,
    net: &Net,
) -> Result<(), AllocError>
    ensures { OnOk result (found.new.items ≡ found.old.items ++ conflicts matrix.now net.now) }
{
    if net.members.as_slice().len() < 2 {
        return Ok(());
    }
    if few_may_meet(matrix, net.members.as_slice()) {
        return Ok(());
    }
    add_conflicts_of(alloc, found, matrix, net)
}
