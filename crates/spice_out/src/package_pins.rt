// The pins of one package: their numbers, and where each number is first.
ghost use Rattle.std.specs.Prelude.{List, ◌≡◌, ◌++◌, ◌∷◌, [], IfOk, OnOk, option_copied};
ghost use Rattle.std.specs.Fmt.{decimal};
ghost use Rattle.spice_out.specs.Pins.{PinData, has_numbered_pins, is_elsewhere, is_on_two_nets};
ghost use Rattle.spice_out.specs.steps.FirstPins.{AreFirsts, firsts_at, has_each};

use crate::net_nodes::NetNode;
use crate::pin_table::Pin;
use std::alloc::{AllocError, Global};
use std::collections::BTreeMap;

/// Takes in a pin, unless its number is there already.
fn take_first<'a>(firsts: &mut BTreeMap<&'a str, NetNode>, pin: &Pin<'a>) -> Result<(), AllocError>
    ensures { OnOk result ((pins : List PinData)
        → AreFirsts pins firsts.old → AreFirsts (pins ++ pin.now ∷ []) firsts.new) }
{
    if !firsts.contains_key(pin.number) {
        firsts.insert(pin.number, pin.at)?;
    }
    Ok(())
}

/// Where each pin number is first.
pub fn first_pins<'a>(
    alloc: Global,
    pins: &[Pin<'a>],
) -> Result<BTreeMap<&'a str, NetNode>, AllocError>
    ensures { IfOk result (AreFirsts pins.now) }
{
    let mut firsts = BTreeMap::new(alloc);
    for pin in pins {
        take_first(&mut firsts, pin)?;
    }
    Ok(firsts)
}

/// Where the pin is first whose number has these digits.
pub fn pin_at(
    alloc: Global,
    firsts: &BTreeMap<&str, NetNode>,
    number: usize,
) -> Result<Option<NetNode>, AllocError>
    ensures { IfOk result (λ at. at ≡ firsts_at firsts.now (decimal number)) }
{
    let digits = format!(in alloc; "{number}")?;
    Ok(firsts.get(digits.as_str()).copied())
}

fn has_each(
    alloc: Global,
    firsts: &BTreeMap<&str, NetNode>,
    count: usize,
) -> Result<bool, AllocError>
    ensures { IfOk result (λ has. has ≡ has_each count firsts.now) }
{
    for place in 0..count {
        if pin_at(alloc, firsts, place + 1)?.is_none() {
            return Ok(false);
        }
    }
    Ok(true)
}

/// Whether the pin numbers are exactly the digits of 1 to a count.
pub fn has_pins(
    alloc: Global,
    firsts: &BTreeMap<&str, NetNode>,
    count: usize,
) -> Result<bool, AllocError>
    ensures { IfOk result (λ has. (pins : List PinData)
        → AreFirsts pins firsts.now → has ≡ has_numbered_pins count pins) }
{
    if firsts.len() != count {
        return Ok(false);
    }
    has_each(alloc, firsts, count)
}

fn is_elsewhere(first: Option<&NetNode>, at: NetNode) -> bool
    ensures { result ≡ is_elsewhere (option_copied first.entry) at }
{
    match first {
        None => false,
        Some(first) => first.net != at.net,
    }
}

/// Whether some pin is a member of two nets. It takes no memory.
pub fn is_on_two_nets(firsts: &BTreeMap<&str, NetNode>, pins: &[Pin<'_>]) -> bool
    requires { AreFirsts pins.now firsts.now }
    ensures { result ≡ is_on_two_nets pins.now }
{
    for pin in pins {
        if is_elsewhere(firsts.get(pin.number), pin.at) {
            return true;
        }
    }
    false
}
