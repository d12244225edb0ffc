// Nets under their names, and nets in order of them.
ghost use Rattle.std.specs.Prelude.{◌≡◌, ◌<◌, ℕ, List, IfOk, OnOk, length};
ghost use Rattle.std.specs.List.{range_with_len};
ghost use Rattle.flat_rows.specs.Conductors.{FlatConductor};
ghost use Rattle.net_names.specs.NetClasses.{labelled_from, net_class_of};
ghost use Rattle.net_names.specs.steps.Classes.{IsGathered, IsWhole, named_of, net_with};
ghost use Rattle.net_names.specs.steps.Classes.{with_named};

use crate::net_classes::{ClassBody, NetClasses};
use geda_model::Block;
use net_list::{Net, NetSort};
use std::alloc::{AllocError, Global};
use std::cmp::Ordering;
use std::marker::Model;

/// The net of a class under a name. It takes no memory.
pub fn net_with(name: Block, sort: NetSort, body: ClassBody) -> Net
    ensures { result ≡ net_with name sort body }
{
    let ClassBody {
        global,
        directive,
        members,
    } = body;
    Net {
        name,
        sort,
        global,
        directive,
        members,
    }
}

/// A net that is ordered by the bytes of its name.
#[derive(Debug, Drop)]
pub struct NamedNet {
    /// The net.
    pub net: Net,
}

impl Model for NamedNet {
    ghost use Rattle.net_list.specs.declared.nets.Net.{Net};

    ghost Value = { Net };

    ghost view = { λ n. n.net };
}

impl PartialEq for NamedNet {
    ghost use Rattle.std.specs.Cmp.{eq_by_cmp_equiv, partial_equiv_from_equiv};
    ghost use Rattle.std.specs.Ordering.{eq_by_cmp};
    ghost use Rattle.net_names.specs.steps.Orders.{by_net_name, by_net_name_total};

    ghost eq = { eq_by_cmp by_net_name };

    ghost laws = { partial_equiv_from_equiv (eq_by_cmp_equiv by_net_name_total) };

    fn eq(&self, other: &NamedNet) -> bool {
        self.cmp(other).is_eq()
    }
}

impl Eq for NamedNet {
    ghost use Rattle.std.specs.Cmp.{eq_by_cmp_equiv};
    ghost use Rattle.net_names.specs.steps.Orders.{by_net_name_total};

    ghost laws = { eq_by_cmp_equiv by_net_name_total };
}

impl PartialOrd for NamedNet {
    ghost use Rattle.std.specs.Prelude.{Some};
    ghost use Rattle.std.specs.Cmp.{partial_order_from_total};
    ghost use Rattle.std.specs.Ordering.{as_partial_cmp};
    ghost use Rattle.net_names.specs.steps.Orders.{by_net_name, by_net_name_total};

    ghost partial_cmp = { as_partial_cmp by_net_name };

    ghost laws = { partial_order_from_total by_net_name_total };

    fn partial_cmp(&self, other: &NamedNet) -> Option<Ordering> {
        Some(self.cmp(other))
    }
}

impl Ord for NamedNet {
    ghost use Rattle.std.proofs.Common.{rules};
    ghost use Rattle.std.specs.Cmp.Rules.{comparing};
    ghost use Rattle.net_names.specs.steps.Orders.{by_net_name, by_net_name_total};

    ghost cmp = { by_net_name };

    ghost total = { by_net_name_total };

    ghost matches_partial_cmp = { Prim.search (comparing, rules) };

    ghost matches_eq = { Prim.search (comparing, rules) };

    fn cmp(&self, other: &NamedNet) -> Ordering {
        self.net.name.as_str().cmp(other.net.name.as_str())
    }
}

/// Puts the net of a label's class behind the others, if it has members and a name.
fn push_named(
    alloc: Global,
    named: &mut Vec<NamedNet>,
    classes: &NetClasses<'_>,
    label: usize,
) -> Result<(), AllocError>
    requires whole { IsWhole classes.now }
    requires label { label < length classes.now.growing.items }
    ensures { OnOk result ((conductors : List FlatConductor) (labels : List ℕ)
        → IsGathered conductors labels classes.now → named.new.items
        ≡ with_named named.old.items (net_class_of (labelled_from 0 conductors labels) label)) }
{
    if classes.chains.heads[label] >= classes.chains.nexts.len() {
        return Ok(());
    }
    if let Some(least) = &classes.growing[label].least {
        let name = least.text.clone()?;
        let body = classes.body(alloc, label)?;
        let net = net_with(name, NetSort::Named, body);
        named.push(NamedNet { net })?;
    }
    Ok(())
}

/// The nets of the classes that have members and a name, in order of the labels.
pub fn named_nets(alloc: Global, classes: &NetClasses<'_>) -> Result<Vec<NamedNet>, AllocError>
    requires whole { IsWhole classes.now }
    ensures { IfOk result (λ named. (conductors : List FlatConductor) (labels : List ℕ)
        → IsGathered conductors labels classes.now → named.items
        ≡ named_of conductors labels (range_with_len 0 (length classes.now.growing.items))) }
{
    let mut named = Vec::new(alloc);
    for label in 0..classes.growing.len() {
        push_named(alloc, &mut named, classes, label)?;
    }
    Ok(named)
}

/// Nets that stand in order of their names, as they print.
pub fn listed(alloc: Global, named: Vec<NamedNet>) -> Result<Vec<Net>, AllocError>
    ensures { IfOk result (λ nets. nets.items ≡ named.items) }
{
    let mut nets = Vec::with_capacity(alloc, named.len())?;
    for named in named {
        let NamedNet { net } = named;
        nets.push(net)?;
    }
    Ok(nets)
}
