// The nets of the conductors of a project, given the label of each.
ghost use Rattle.std.specs.Prelude.{◌≡◌, ◌<◌, All, IfOk, length, map};
ghost use Rattle.geda_defs.specs.Order.{by_bytes};
ghost use Rattle.rank_order.specs.Keys.{AreRanks};
ghost use Rattle.net_names.specs.NetLists.{AreCountable, nets_by};

use crate::named::{listed, named_nets};
use crate::net_classes::net_classes;
use crate::numbering::number_classes;
use crate::taken::taken_names;
use flat_rows::FlatRows;
use geda_model::Items;
use instance_objects::once_in_order;
use net_list::{NetList, NetSort};
use rank_order::Ranks;
use std::alloc::{AllocError, Global};

/// The nets of conductors whose classes have these labels, in order: the named ones by the bytes of
/// the name, then the unnamed ones, then the unconnected ones, each numbered by the least pin. The
/// parts have these ranks.
///
/// A class without members is no net. Rules: docs/RULES.md, "Names of nets".
pub fn nets_by(
    alloc: Global,
    flat: &FlatRows,
    ranks: &Ranks,
    labels: Vec<usize>,
) -> Result<NetList, AllocError>
    requires len { length labels.items ≡ length flat.now.conductors }
    requires labels { All (λ label. label < length flat.now.conductors) labels.items }
    requires ranks { AreRanks by_bytes (map (λ p. p.refdes) flat.now.parts)
        ranks.now.ranks.items ranks.now.count }
    ensures nets { IfOk result (λ nets. nets ≡ nets_by flat.now.conductors labels.items) }
    ensures countable { IfOk result (λ _. AreCountable flat.now.conductors) }
{
    let classes = net_classes(alloc, flat, ranks, &labels)?;
    drop(labels);
    let made = named_nets(alloc, &classes)?;
    let named = once_in_order(made)?;
    let mut nets = listed(alloc, named)?;
    nets.reserve_exact(classes.met.len())?;
    let global = flat.global_names();
    let drawn = flat.drawn_names();
    // Each of these counts is below 2^63, so that all names can be counted.
    let _ = flat.rows().len();
    let _ = global.len();
    let _ = drawn.len();
    let taken = taken_names(alloc, "unnamed_net", global, drawn)?;
    let unnamed = NetSort::Unnamed;
    number_classes(alloc, &mut nets, "unnamed_net", unnamed, &classes, taken)?;
    let taken = taken_names(alloc, "unconnected_pin-", global, drawn)?;
    let unconnected = NetSort::Unconnected;
    number_classes(
        alloc,
        &mut nets,
        "unconnected_pin-",
        unconnected,
        &classes,
        taken,
    )?;
    Ok(Items::from_vec(nets))
}
