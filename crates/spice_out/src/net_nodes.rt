// Nets with their nodes.
ghost use Rattle.std.specs.Prelude.{◌≡◌, ◌<◌, ◌^◌, IfOk};
ghost use Rattle.spice_out.specs.Nodes.{is_ground, next_after, node_of, noded_nets};

use net_list::Net;
use std::alloc::{AllocError, Global};
use std::marker::Model;

/// Which net of a list, and its node.
#[derive(Clone, Copy)]
pub struct NetNode {
    /// The place of the net in the list, from 0.
    pub net: usize,
    /// The node.
    pub node: usize,
}

/// A net with its place and its node.
#[derive(Drop)]
pub struct NodedNet<'a> {
    /// The place and the node.
    pub at: NetNode,
    /// The net.
    pub net: &'a Net,
}

impl<'a> Model for NodedNet<'a> {
    ghost use Rattle.spice_out.specs.Nodes.{NodedNetData};

    ghost Value = { NodedNetData };

    ghost view = { λ n. record { at = n.at; net = n.net.now } };
}

fn is_ground(net: &Net) -> bool
    ensures { result ≡ is_ground net.now }
{
    net.name.as_str() == "GND"
}

fn node_of(net: &Net, next: usize) -> usize
    ensures { result ≡ node_of net.now next }
{
    if is_ground(net) { 0 } else { next }
}

fn next_after(net: &Net, next: usize) -> usize
    requires { next < 2 ^ 63 }
    ensures { result ≡ next_after net.now next }
{
    if is_ground(net) { next } else { next + 1 }
}

/// The nets of a list with their nodes (docs/FORMATS.md, "SPICE text").
pub fn noded_nets<'a>(alloc: Global, nets: &'a [Net]) -> Result<Vec<NodedNet<'a>>, AllocError>
    ensures { IfOk result (λ noded. noded.items ≡ noded_nets nets.entry.now) }
{
    let mut noded = Vec::with_capacity(alloc, nets.len())?;
    let mut next = 1;
    for net in nets {
        let at = NetNode {
            net: noded.len(),
            node: node_of(net, next),
        };
        noded.push(NodedNet { at, net })?;
        next = next_after(net, next);
    }
    Ok(noded)
}
