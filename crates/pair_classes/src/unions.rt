// Which places stand in one class: each place has a parent, and the tops of the trees are the least
// places of the classes.
ghost use Rattle.std.specs.Prelude.{◌≡◌, ◌<◌, ℕ, List, length, slice_index, IfOk};
ghost use Rattle.geda_defs.specs.Classes.{AreClasses};
ghost use Rattle.pair_classes.specs.Pairs.{ArePaired, AreWithin};
ghost use Rattle.pair_classes.specs.steps.Unions.{StandAtThemselves, IsForest, IsTop, LeadsUp, AreAbove, AreJoined, Labels, KeepsLabels, AddsUnions};

use std::alloc::{AllocError, Global};

/// The top of the tree of a place. Halves the way up to it.
fn top(parents: &mut [usize], place: usize) -> usize
    requires forest { IsForest parents.old }
    requires within { place < length parents.old }
    ensures forest { IsForest parents.new }
    ensures top { IsTop parents.new result }
    ensures leads { LeadsUp parents.old place result }
    ensures above { AreAbove parents.old parents.new }
    ensures same { KeepsLabels parents.old parents.new }
{
    let mut at = place;
    while parents[at] < at {
        let next = parents[parents[at]];
        parents[at] = next;
        at = next;
    }
    at
}

/// Puts two places into one tree.
fn unite(parents: &mut [usize], first: usize, second: usize)
    requires first { first < length parents.old }
    requires second { second < length parents.old }
    requires forest { IsForest parents.old }
    ensures forest { IsForest parents.new }
    ensures joined { (pairs : List (ℕ × ℕ)) → ArePaired pairs first second
        → AreJoined (ArePaired pairs) parents.old → AreJoined (ArePaired pairs) parents.new }
    ensures same { KeepsLabels parents.old parents.new }
    ensures tied { (f : ℕ → ℕ) → Labels f parents.new → f first ≡ f second }
{
    let a = top(parents, first);
    let b = top(parents, second);
    if a < b {
        parents[b] = a;
    } else {
        parents[a] = b;
    }
}

/// Puts the two places of each pair into one tree.
fn unite_pairs(parents: &mut [usize], pairs: &[(usize, usize)])
    requires within { AreWithin (length parents.old) pairs.now }
    requires forest { IsForest parents.old }
    ensures forest { IsForest parents.new }
    ensures adds { AddsUnions pairs.now parents.old parents.new }
{
    for at in 0..pairs.len() {
        let (first, second) = pairs[at];
        unite(parents, first, second);
    }
}

/// Makes each place's top its parent.
fn flatten(parents: &mut [usize])
    requires forest { IsForest parents.old }
    ensures forest { IsForest parents.new }
    ensures above { AreAbove parents.old parents.new }
    ensures labels { Labels (λ k. slice_index parents.new k) parents.old }
{
    for place in 0..parents.len() {
        parents[place] = parents[parents[place]];
    }
}

/// Makes trees of one place each the labels of classes: joins the places of each pair, and then
/// gives each place the least place of its class.
fn join_pairs(labels: &mut [usize], pairs: &[(usize, usize)])
    requires within { AreWithin (length labels.old) pairs.now }
    requires apart { StandAtThemselves labels.old }
    ensures { AreClasses (ArePaired pairs.now) (length labels.old) labels.new }
{
    unite_pairs(labels, pairs);
    flatten(labels);
}

/// Trees of one place each.
fn places(alloc: Global, count: usize) -> Result<Vec<usize>, AllocError>
    ensures len { IfOk result (λ places. length places.items ≡ count) }
    ensures places { IfOk result (λ places. StandAtThemselves places.items) }
{
    let mut places = Vec::with_capacity(alloc, count)?;
    for place in 0..count {
        places.push(place)?;
    }
    Ok(places)
}

/// The labels of so many places: each has the least place of its class, in which the two places of
/// each pair stand together. Both places of each pair are below the count.
pub fn classes_of(
    alloc: Global,
    count: usize,
    pairs: &[(usize, usize)],
) -> Result<Vec<usize>, AllocError>
    requires { AreWithin count pairs.now }
    ensures { IfOk result (λ labels. AreClasses (ArePaired pairs.now) count labels.items) }
{
    let mut labels = places(alloc, count)?;
    join_pairs(&mut labels, pairs);
    Ok(labels)
}
