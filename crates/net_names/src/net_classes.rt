// The classes of conductors: the pins of each in order, and what is told of it.
ghost use Rattle.std.specs.Prelude.{◌≡◌, ◌<◌, ◌++◌, ℕ, List, All, IfOk, OnOk, length, map};
ghost use Rattle.std.specs.Prelude.{slice_get};
ghost use Rattle.std.specs.Ordering.{eq_by_cmp};
ghost use Rattle.geda_defs.specs.Order.{by_bytes};
ghost use Rattle.rank_order.specs.Chains.{IsWalk, Rises};
ghost use Rattle.rank_order.specs.Keys.{AreRanks};
ghost use Rattle.flat_rows.specs.Conductors.{FlatConductor};
ghost use Rattle.net_names.specs.NetClasses.{by_member, labelled_from, net_class_of};
ghost use Rattle.net_names.specs.steps.Classes.{AreOrdered, AreRanked, AreWhole, IsGathered};
ghost use Rattle.net_names.specs.steps.Classes.{IsWhole, body_of, is_new_at, new_at, news};
ghost use Rattle.net_names.specs.steps.Classes.{pins_by, walk_pins};
ghost use Rattle.net_names.specs.steps.Pins.{labels_at, pin_under};

use crate::class_pins::{class_pin, class_pins, ranks_of_pins};
use crate::gathering::{GrowingClass, grown};
use flat_rows::{FlatRows, RowMember};
use geda_model::{Items, Line};
use net_list::{Member, Members};
use rank_order::{Chains, Ranks, chains_of, labels_met, places_in_order};
use std::alloc::{AllocError, Global};

/// Pins of listed parts, and their order.
#[derive(Drop)]
pub struct OrderedPins<'a> {
    /// The printed refdeses of the listed parts.
    pub refdeses: &'a [Line],
    /// The ranks of the parts.
    pub ranks: &'a Ranks,
    /// The pins as they come, each with the place of its conductor.
    pub members: &'a [(RowMember, usize)],
    /// Their places, in order of refdes, number and place.
    pub places: Vec<usize>,
}

/// The classes of all labels.
#[derive(Drop)]
pub struct NetClasses<'a> {
    /// The pins of listed parts, and their order.
    pub ordered: OrderedPins<'a>,
    /// For each label the chain of its pins, in order.
    pub chains: Chains,
    /// The labels of the classes that have pins, in order of their least pins.
    pub met: Vec<usize>,
    /// What is told of the class of each label.
    pub growing: Vec<GrowingClass<'a>>,
}

/// The conductors of one net, without its name.
#[derive(Debug, Drop)]
pub struct ClassBody {
    /// Whether it has a global name.
    pub global: bool,
    /// Whether it has a pin of a no-connection directive.
    pub directive: bool,
    /// Its members, in order.
    pub members: Members,
}

fn ordered_pins<'a>(
    alloc: Global,
    flat: &'a FlatRows,
    ranks: &'a Ranks,
) -> Result<OrderedPins<'a>, AllocError>
    requires { AreRanks by_bytes (map (λ p. p.refdes) flat.now.parts)
        ranks.now.ranks.items ranks.now.count }
    ensures { IfOk result (AreOrdered flat.now.conductors) }
{
    let refdeses = flat.refdeses();
    let members = flat.members();
    let pins = class_pins(alloc, refdeses, members)?;
    let pin_ranks = ranks_of_pins(alloc, &ranks.ranks, members)?;
    let places = places_in_order(alloc, ranks.count, &pin_ranks, &pins)?;
    Ok(OrderedPins {
        refdeses,
        ranks,
        members,
        places,
    })
}

/// The label of each pin, in order.
fn labels_of_pins(
    alloc: Global,
    ordered: &OrderedPins<'_>,
    labels: &[usize],
) -> Result<Vec<usize>, AllocError>
    requires places { All (λ p. p < length ordered.now.members.now) ordered.now.places.items }
    requires pins { All (λ m. m.1 < length labels.now) ordered.now.members.now }
    ensures { IfOk result (λ found.
        found.items ≡ labels_at (pins_by ordered.now) ordered.now.places.items labels.now) }
{
    let places = &ordered.places;
    let mut found = Vec::with_capacity(alloc, places.len())?;
    for at in 0..places.len() {
        let member = &ordered.members[places[at]];
        found.push(labels[member.1])?;
    }
    Ok(found)
}

/// The classes of conductors that have these labels; the parts have these ranks.
pub fn net_classes<'a>(
    alloc: Global,
    flat: &'a FlatRows,
    ranks: &'a Ranks,
    labels: &[usize],
) -> Result<NetClasses<'a>, AllocError>
    requires len { length labels.now ≡ length flat.now.conductors }
    requires labels { All (λ label. label < length flat.now.conductors) labels.now }
    requires ranks { AreRanks by_bytes (map (λ p. p.refdes) flat.now.parts)
        ranks.now.ranks.items ranks.now.count }
    ensures { IfOk result (IsGathered flat.now.conductors labels.now) }
{
    let ordered = ordered_pins(alloc, flat, ranks)?;
    let pin_labels = labels_of_pins(alloc, &ordered, labels)?;
    let chains = chains_of(alloc, labels.len(), &pin_labels)?;
    let met = labels_met(alloc, labels.len(), &pin_labels)?;
    let growing = grown(
        alloc,
        flat.rows(),
        flat.global_names(),
        flat.drawn_names(),
        labels,
    )?;
    Ok(NetClasses {
        ordered,
        chains,
        met,
        growing,
    })
}

/// Whether two pins print alike: parts of one rank have one refdes.
fn print_alike(ordered: &OrderedPins<'_>, first: &RowMember, second: &RowMember) -> bool
    requires ranked { AreRanked ordered.now }
    requires first { first.now.part < length ordered.now.refdeses.now }
    requires second { second.now.part < length ordered.now.refdeses.now }
    ensures { result ≡ eq_by_cmp by_member (pin_under ordered.now.refdeses.now (first.now, 0))
        (pin_under ordered.now.refdeses.now (second.now, 0)) }
{
    let ranks = &ordered.ranks.ranks;
    if ranks[first.part] != ranks[second.part] {
        return false;
    }
    first.pin.cmp(&second.pin).is_eq()
}

fn is_new(ordered: &OrderedPins<'_>, last: usize, pin: usize) -> bool
    requires ranked { AreRanked ordered.now }
    requires pin { pin < length ordered.now.members.now }
    ensures { result ≡ is_new_at (eq_by_cmp by_member)
        (slice_get (pins_by ordered.now) last) (slice_get (pins_by ordered.now) pin) }
{
    if last >= ordered.members.len() {
        return true;
    }
    !print_alike(ordered, &ordered.members[pin].0, &ordered.members[last].0)
}

/// Puts a pin behind the members, unless the last one prints alike.
fn push_new(
    members: &mut Vec<Member>,
    ordered: &OrderedPins<'_>,
    last: usize,
    pin: usize,
) -> Result<(), AllocError>
    requires ranked { AreRanked ordered.now }
    requires pin { pin < length ordered.now.members.now }
    ensures { OnOk result (members.new.items ≡ members.old.items ++ map (λ p. p.member)
        (new_at (eq_by_cmp by_member)
        (slice_get (pins_by ordered.now) last) (slice_get (pins_by ordered.now) pin))) }
{
    if is_new(ordered, last, pin) {
        let pin = class_pin(ordered.refdeses, &ordered.members[pin]);
        let member = pin.member()?;
        members.push(member)?;
    }
    Ok(())
}

/// How many places a chain has.
fn chain_len(nexts: &[usize], head: usize) -> usize
    requires { Rises nexts.now }
{
    let mut count: usize = 0;
    let mut at = head;
    while at < nexts.len() {
        count = count.saturating_add(1);
        at = nexts[at];
    }
    count
}

/// The members of a chain of pins, in order; of several that print alike the first.
fn members(
    alloc: Global,
    ordered: &OrderedPins<'_>,
    nexts: &[usize],
    head: usize,
) -> Result<Members, AllocError>
    requires ranked { AreRanked ordered.now }
    requires whole { AreWhole (length ordered.now.members.now) ordered.now.places.items nexts.now }
    ensures { IfOk result (λ members. (walk : List ℕ) → IsWalk nexts.now head walk
        → members ≡ map (λ p. p.member) (news (eq_by_cmp by_member) None
        (walk_pins (pins_by ordered.now) ordered.now.places.items walk))) }
{
    let mut members = Vec::with_capacity(alloc, chain_len(nexts, head))?;
    let mut last = ordered.members.len();
    let mut at = head;
    while at < nexts.len() {
        let pin = ordered.places[at];
        push_new(&mut members, ordered, last, pin)?;
        last = pin;
        at = nexts[at];
    }
    Ok(Items::from_vec(members))
}

impl NetClasses<'_> {
    /// The class of a label, without its name.
    #[inline(always)]
    pub fn body(&self, alloc: Global, label: usize) -> Result<ClassBody, AllocError>
        requires whole { IsWhole self.now }
        requires label { label < length self.now.growing.items }
        ensures { IfOk result (λ body. (conductors : List FlatConductor) (labels : List ℕ)
            → IsGathered conductors labels self.now
            → body ≡ body_of (net_class_of (labelled_from 0 conductors labels) label)) }
    {
        let head = self.chains.heads[label];
        let members = members(alloc, &self.ordered, &self.chains.nexts, head)?;
        let growing = &self.growing[label];
        Ok(ClassBody {
            global: growing.global,
            directive: growing.directive,
            members,
        })
    }
}
