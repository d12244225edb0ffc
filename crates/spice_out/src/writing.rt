// The SPICE text, line by line.
ghost use Rattle.std.specs.Prelude.{List, [], ℕ, ◌≡◌, ◌++◌, ◌∷◌, IfOk, IfErr, OnOk, codes};
ghost use Rattle.std.specs.Prelude.{unwrap_or};
ghost use Rattle.std.specs.Fmt.{decimal};
ghost use Rattle.std.specs.List.{flat_map, range_with_len};
ghost use Rattle.geda_defs.specs.Lines.{ended};
ghost use Rattle.printed_texts.specs.PrintedTexts.{flat, word};
ghost use Rattle.net_list.specs.declared.package.Package.{Package};
ghost use Rattle.spice_out.specs.Faults.{SpiceFails, clashes, fault_by, first_spice_fault};
ghost use Rattle.spice_out.specs.Faults.{package_fault, spice_fault};
ghost use Rattle.spice_out.specs.Pins.{refdes_pins};
ghost use Rattle.spice_out.specs.SpiceText.{line_by, node_comment, node_text, package_card};
ghost use Rattle.spice_out.specs.SpiceText.{spice_text, value_of};
ghost use Rattle.spice_out.specs.steps.CardLines.{card_by};
ghost use Rattle.spice_out.specs.steps.CardNames.{HasNames};
ghost use Rattle.spice_out.specs.steps.FirstPins.{firsts_at};
ghost use Rattle.spice_out.specs.steps.Judging.{Judges};
ghost use Rattle.spice_out.specs.steps.PinRows.{pins_at};

use crate::card_names::{card_name, pin_count};
use crate::checks::{card_fault, value_of};
use crate::fault::SpiceFault;
use crate::net_nodes::{NetNode, NodedNet, noded_nets};
use crate::package_pins::{first_pins, pin_at};
use crate::pin_table::{PackagePins, Pin, pins_by_refdes};
use net_list::{Net, Nets, Package};
use printed_texts::{put_flat, put_word};
use std::alloc::{AllocError, Global};
use std::collections::{BTreeMap, BTreeSet};

fn put_number(alloc: Global, out: &mut Vec<u8>, number: usize) -> Result<(), AllocError>
    ensures { OnOk result (out.new.items ≡ out.old.items ++ decimal number) }
{
    let digits = format!(in alloc; "{number}")?;
    out.extend_from_slice(digits.as_bytes())
}

/// Writes the comment of a net: its node and its name.
fn put_net(alloc: Global, out: &mut Vec<u8>, noded: &NodedNet<'_>) -> Result<(), AllocError>
    ensures { OnOk result (out.new.items ≡ out.old.items ++ ended (node_comment noded.now)) }
{
    out.extend_from_slice(b"* node ")?;
    put_number(alloc, out, noded.at.node)?;
    out.push(b' ')?;
    put_word(out, noded.net.name.as_str().as_bytes())?;
    out.push(b'\n')?;
    Ok(())
}

fn put_nets(alloc: Global, out: &mut Vec<u8>, nets: &[NodedNet<'_>]) -> Result<(), AllocError>
    ensures { OnOk result (out.new.items ≡ out.old.items
        ++ flat_map (λ n. ended (node_comment n)) nets.now) }
{
    for net in nets {
        put_net(alloc, out, net)?;
    }
    Ok(())
}

fn put_node(alloc: Global, out: &mut Vec<u8>, at: Option<NetNode>) -> Result<(), AllocError>
    ensures { OnOk result (out.new.items ≡ out.old.items ++ node_text at) }
{
    match at {
        None => Ok(()),
        Some(at) => put_number(alloc, out, at.node),
    }
}

fn put_pin(
    alloc: Global,
    out: &mut Vec<u8>,
    firsts: &BTreeMap<&str, NetNode>,
    number: usize,
) -> Result<(), AllocError>
    ensures { OnOk result (out.new.items ≡ out.old.items
        ++ 32 ∷ node_text (firsts_at firsts.now (decimal number))) }
{
    out.push(b' ')?;
    let at = pin_at(alloc, firsts, number)?;
    put_node(alloc, out, at)
}

fn put_pins(
    alloc: Global,
    out: &mut Vec<u8>,
    firsts: &BTreeMap<&str, NetNode>,
    count: usize,
) -> Result<(), AllocError>
    ensures { OnOk result (out.new.items ≡ out.old.items
        ++ flat_map (λ k. 32 ∷ node_text (firsts_at firsts.now (decimal k)))
        (range_with_len 1 count)) }
{
    for place in 0..count {
        put_pin(alloc, out, firsts, place + 1)?;
    }
    Ok(())
}

fn put_value(out: &mut Vec<u8>, part: &Package) -> Result<(), AllocError>
    ensures { OnOk result (out.new.items ≡ out.old.items
        ++ flat (unwrap_or (value_of part.now) [])) }
{
    match value_of(part) {
        None => Ok(()),
        Some(value) => put_flat(out, value.as_str().as_bytes()),
    }
}

/// Writes the card of a package: its name, the nodes of its pins in their order, and its value.
fn put_card(
    alloc: Global,
    out: &mut Vec<u8>,
    part: &Package,
    firsts: &BTreeMap<&str, NetNode>,
    count: usize,
) -> Result<(), AllocError>
    ensures { OnOk result (out.new.items ≡ out.old.items
        ++ ended (card_by firsts.now part.now count)) }
{
    let name = card_name(alloc, part.refdes.as_str())?;
    out.extend_from_slice(name.as_slice())?;
    put_pins(alloc, out, firsts, count)?;
    out.push(b' ')?;
    put_value(out, part)?;
    out.push(b'\n')?;
    Ok(())
}

fn put_skipped(out: &mut Vec<u8>, part: &Package) -> Result<(), AllocError>
    ensures { OnOk result (out.new.items ≡ out.old.items
        ++ ended (codes "* skipped " ++ word part.now.refdes)) }
{
    out.extend_from_slice(b"* skipped ")?;
    put_word(out, part.refdes.as_str().as_bytes())?;
    out.push(b'\n')?;
    Ok(())
}

/// Writes the line of a package with these pins, and takes in the name of its card.
fn put_with_pins(
    alloc: Global,
    out: &mut Vec<u8>,
    names: &mut BTreeSet<Vec<u8>>,
    part: &Package,
    pins: &[Pin<'_>],
) -> Result<(), SpiceFault>
    ensures text { OnOk result (out.new.items ≡ out.old.items
        ++ ended (line_by pins.now part.now)) }
    ensures fault { (earlier : List Package) → HasNames earlier names.old
        → Judges result (fault_by (clashes earlier part.now) pins.now part.now) }
    ensures names { OnOk result ((earlier : List Package)
        → HasNames earlier names.old → HasNames (earlier ++ part.now ∷ []) names.new) }
{
    let firsts = first_pins(alloc, pins)?;
    let Some(count) = pin_count(alloc, part.refdes.as_str(), firsts.len())? else {
        put_skipped(out, part)?;
        return Ok(());
    };
    if let Some(fault) = card_fault(alloc, names, part, pins, &firsts, count)? {
        return Err(fault);
    }
    put_card(alloc, out, part, &firsts, count)?;
    Ok(())
}

fn put_package<'a>(
    alloc: Global,
    out: &mut Vec<u8>,
    names: &mut BTreeSet<Vec<u8>>,
    nets: &[Net],
    rows: &BTreeMap<&'a str, PackagePins<'a>>,
    part: &Package,
) -> Result<(), SpiceFault>
    requires rows { (q : List ℕ) → pins_at rows.now q ≡ refdes_pins nets.now q }
    ensures text { OnOk result (out.new.items ≡ out.old.items
        ++ ended (package_card nets.now part.now)) }
    ensures fault { (earlier : List Package) → HasNames earlier names.old
        → Judges result (package_fault nets.now earlier part.now) }
    ensures names { OnOk result ((earlier : List Package)
        → HasNames earlier names.old → HasNames (earlier ++ part.now ∷ []) names.new) }
{
    match rows.get(part.refdes.as_str()) {
        Some(pins) => put_with_pins(alloc, out, names, part, pins.as_slice()),
        None => put_with_pins(alloc, out, names, part, &[]),
    }
}

/// Writes a line for each package.
fn put_packages<'a>(
    alloc: Global,
    out: &mut Vec<u8>,
    nets: &[Net],
    rows: &BTreeMap<&'a str, PackagePins<'a>>,
    packages: &[Package],
) -> Result<(), SpiceFault>
    requires rows { (q : List ℕ) → pins_at rows.now q ≡ refdes_pins nets.now q }
    ensures text { OnOk result (out.new.items ≡ out.old.items
        ++ flat_map (λ p. ended (package_card nets.now p)) packages.now) }
    ensures fault { Judges result (first_spice_fault nets.now [] packages.now) }
{
    let mut names = BTreeSet::new(alloc);
    for part in packages {
        put_package(alloc, out, &mut names, nets, rows, part)?;
    }
    Ok(())
}

/// The SPICE text of a net list (docs/FORMATS.md, "SPICE text").
///
/// The first package with a card that has a fault decides, by the first of its faults: `NameClash`
/// exactly where an earlier card has its name without regard to ASCII case; `PinSet` exactly where
/// its pin numbers are not exactly those of its letter; `TwoNets` exactly where a pin of it is a
/// member of two nets; `NoValue` exactly where it has neither value nor device. Each names the
/// package.
pub fn spice_text(alloc: Global, nets: &Nets) -> Result<Vec<u8>, SpiceFault>
    ensures text { IfOk result (λ text. text.items ≡ spice_text nets.now) }
    ensures no_fault { OnOk result (spice_fault nets.now ≡ None) }
    ensures fault { IfErr result (λ fault. SpiceFails fault (spice_fault nets.now)) }
{
    let list = nets.nets.as_slice();
    let noded = noded_nets(alloc, list)?;
    let rows = pins_by_refdes(alloc, noded.as_slice())?;
    let mut out = Vec::new(alloc);
    out.extend_from_slice(b"* gafd\n")?;
    put_nets(alloc, &mut out, noded.as_slice())?;
    put_packages(alloc, &mut out, list, &rows, nets.packages.as_slice())?;
    out.extend_from_slice(b".end\n")?;
    Ok(out)
}
