// The pins of each refdes, gathered in one pass over the nets.
ghost use Rattle.std.specs.Prelude.{List, [], ℕ, ◌≡◌, ◌++◌, ◌∷◌, IfOk, OnOk};
ghost use Rattle.std.specs.List.{flat_map};
ghost use Rattle.spice_out.specs.Pins.{pins_in};
ghost use Rattle.spice_out.specs.steps.PinRows.{pins_at, taken_in};

use crate::net_nodes::{NetNode, NodedNet};
use std::alloc::{AllocError, Global};
use std::collections::BTreeMap;
use std::marker::Model;

/// A pin of a package in a net.
#[derive(Drop)]
pub struct Pin<'a> {
    /// Its number.
    pub number: &'a str,
    /// Its net.
    pub at: NetNode,
}

impl<'a> Model for Pin<'a> {
    ghost use Rattle.spice_out.specs.Pins.{PinData};

    ghost Value = { PinData };

    ghost view = { λ p. record { number = p.number.now; at = p.at } };
}

/// The pins of one refdes, in order of the nets.
#[derive(Drop)]
pub struct PackagePins<'a> {
    list: Vec<Pin<'a>>,
}

impl<'a> Model for PackagePins<'a> {
    ghost use Rattle.std.specs.Prelude.{List};
    ghost use Rattle.spice_out.specs.Pins.{PinData};

    ghost Value = { List PinData };

    ghost view = { λ p. p.list.items };
}

impl<'a> PackagePins<'a> {
    fn new(alloc: Global) -> PackagePins<'a>
        ensures { result ≡ [] }
    {
        PackagePins {
            list: Vec::new(alloc),
        }
    }

    fn with_pin(self, pin: Pin<'a>) -> Result<PackagePins<'a>, AllocError>
        ensures { IfOk result (λ pins. pins ≡ self.entry ++ pin.entry ∷ []) }
    {
        let PackagePins { mut list } = self;
        list.push(pin)?;
        Ok(PackagePins { list })
    }

    /// The pins, in order. It takes no memory.
    pub fn as_slice(&self) -> &[Pin<'a>]
        ensures { result.now ≡ self.now }
    {
        self.list.as_slice()
    }
}

/// Puts a pin behind the others of its refdes.
fn take_pin<'a>(
    alloc: Global,
    rows: &mut BTreeMap<&'a str, PackagePins<'a>>,
    refdes: &'a str,
    pin: Pin<'a>,
) -> Result<(), AllocError>
    ensures { OnOk result ((q : List ℕ) → pins_at rows.new q
        ≡ taken_in q refdes.entry.now pin.entry (pins_at rows.old q)) }
{
    let known = rows.remove(refdes).unwrap_or(PackagePins::new(alloc));
    rows.insert(refdes, known.with_pin(pin)?)?;
    Ok(())
}

fn take_net<'a>(
    alloc: Global,
    rows: &mut BTreeMap<&'a str, PackagePins<'a>>,
    noded: &NodedNet<'a>,
) -> Result<(), AllocError>
    ensures { OnOk result ((q : List ℕ) → pins_at rows.new q
        ≡ pins_at rows.old q ++ pins_in q noded.now) }
{
    let net = noded.net;
    for member in net.members.as_slice() {
        let pin = Pin {
            number: member.pin.as_str(),
            at: noded.at,
        };
        take_pin(alloc, rows, member.refdes.as_str(), pin)?;
    }
    Ok(())
}

/// The pins of each refdes in these nets.
pub fn pins_by_refdes<'a>(
    alloc: Global,
    nets: &[NodedNet<'a>],
) -> Result<BTreeMap<&'a str, PackagePins<'a>>, AllocError>
    ensures { IfOk result (λ rows. (q : List ℕ) → pins_at rows q ≡ flat_map (pins_in q) nets.now) }
{
    let mut rows = BTreeMap::new(alloc);
    for net in nets {
        take_net(alloc, &mut rows, net)?;
    }
    Ok(rows)
}
