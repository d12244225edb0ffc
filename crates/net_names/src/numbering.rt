// Nets without names, numbered from 1 in order; numbers that name conductors are skipped.
ghost use Rattle.std.specs.Prelude.{◌≡◌, ◌++◌, ◌+◌, ◌<◌, ◌^◌, ℕ, List, IfOk, OnOk, decimal, length};
ghost use Rattle.std.specs.BTreeMap.{is_at};
ghost use Rattle.std.specs.Bool.{OnFalse};
ghost use Rattle.std.specs.List.{list_any};
ghost use Rattle.std.specs.Set.{remove_key};
ghost use Rattle.std.specs.String.{string_bytes};
ghost use Rattle.geda_defs.specs.Order.{by_bytes};
ghost use Rattle.flat_rows.specs.Conductors.{FlatConductor};
ghost use Rattle.net_names.specs.steps.Classes.{IsGathered, IsWhole, bodies_of};
ghost use Rattle.net_names.specs.steps.Numbering.{AreNumbered, IsNextFree, IsStemBefore, stem_of};

use crate::named::net_with;
use crate::names::NetName;
use crate::net_classes::NetClasses;
use geda_model::Block;
use itoa::Buffer;
use net_list::{Net, NetSort};
use std::alloc::{AllocError, Global};
use std::collections::BTreeSet;

/// Makes a text the stem of a number, the prefix and all digits but the last. Numbers that differ
/// in the last digit alone have one stem.
#[inline(always)]
fn put_stem(stem: &mut String, prefix: &str, number: usize) -> Result<(), AllocError>
    requires { IsStemBefore prefix.now number (string_bytes stem.old) }
    ensures { OnOk result (string_bytes stem.new ≡ stem_of prefix.now number) }
{
    if number % 10 != 0 {
        return Ok(());
    }
    let mut digits = Buffer::new();
    stem.clear();
    stem.push_str(prefix)?;
    stem.push_str(digits.format(number / 10))?;
    Ok(())
}

/// A prefix and a number as a name, by way of the stem, to which the text is cut back again.
#[inline(always)]
fn numbered_name(
    alloc: Global,
    stem: &mut String,
    prefix: &str,
    number: usize,
) -> Result<NetName, AllocError>
    requires { IsStemBefore prefix.now number (string_bytes stem.old) }
    ensures name { IfOk result (λ name. name ≡ prefix.now ++ decimal number) }
    ensures stem { OnOk result (IsStemBefore prefix.now (number + 1) (string_bytes stem.new)) }
{
    put_stem(stem, prefix, number)?;
    let len = stem.len();
    stem.push((b'0' + (number % 10) as u8) as char)?;
    let text = Block::new(alloc, stem)?;
    stem.truncate(len);
    Ok(NetName { text })
}

/// Takes a name out of those that are taken. The result tells whether it was there.
fn take_out(taken: &mut BTreeSet<NetName>, name: &NetName) -> bool
    ensures test { result ≡ list_any (is_at (by_bytes name.now)) taken.old.keys }
    ensures keys { taken.new.keys ≡ remove_key (is_at (by_bytes name.now)) taken.old.keys }
    ensures same { OnFalse result (taken.new.keys ≡ taken.old.keys) }
{
    if taken.is_empty() {
        return false;
    }
    taken.remove(name)
}

/// The first number from one on whose text is not taken, and that text. Names that were met are
/// taken out, since no later number has their texts.
fn free_name(
    alloc: Global,
    stem: &mut String,
    prefix: &str,
    from: usize,
    taken: &mut BTreeSet<NetName>,
) -> Result<(usize, NetName), AllocError>
    requires room { from + length taken.old.keys < 2 ^ 64 }
    requires stem { IsStemBefore prefix.now from (string_bytes stem.old) }
    ensures number { IfOk result
        (λ r. IsNextFree prefix.now taken.old.keys taken.new.keys from r.0) }
    ensures name { IfOk result (λ r. r.1 ≡ prefix.now ++ decimal r.0) }
    ensures stem { IfOk result (λ r. IsStemBefore prefix.now (r.0 + 1) (string_bytes stem.new)) }
{
    let mut number = from;
    let mut name = numbered_name(alloc, stem, prefix, number)?;
    while take_out(taken, &name) {
        number += 1;
        name = numbered_name(alloc, stem, prefix, number)?;
    }
    Ok((number, name))
}

/// Appends one net for each class without a name whose net is of this sort, in order of the least
/// pins: its name is the prefix and its number, from 1. A number whose text is taken is skipped.
pub fn number_classes(
    alloc: Global,
    nets: &mut Vec<Net>,
    prefix: &str,
    sort: NetSort,
    classes: &NetClasses<'_>,
    taken: BTreeSet<NetName>,
) -> Result<(), AllocError>
    requires whole { IsWhole classes.now }
    ensures { OnOk result ((conductors : List FlatConductor) (labels : List ℕ)
        → IsGathered conductors labels classes.now → AreNumbered prefix.now sort taken.keys
        (bodies_of conductors labels sort classes.now.met.items) nets.old.items nets.new.items) }
{
    // Each of the two counts is below 2^63, so that no number is too great.
    let count = classes.met.len();
    let _ = taken.len();
    let mut taken = taken;
    let mut stem = String::from_str(alloc, prefix)?;
    let mut next = 1;
    for at in 0..count {
        let label = classes.met[at];
        if !classes.growing[label].is_nameless(sort) {
            continue;
        }
        let (number, name) = free_name(alloc, &mut stem, prefix, next, &mut taken)?;
        let body = classes.body(alloc, label)?;
        nets.push(net_with(name.text, sort, body))?;
        next = number + 1;
    }
    Ok(())
}
