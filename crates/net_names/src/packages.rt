// The packages of a list of parts, and the rank of each part among them.
ghost use Rattle.std.specs.Prelude.{◌≡◌, ◌<◌, [], All, Some, IfOk, length, map, slice_index_or};
ghost use Rattle.std.specs.Option.{option_or};
ghost use Rattle.geda_defs.specs.Order.{by_bytes, once_in_order};
ghost use Rattle.rank_order.specs.Keys.{AreRanks};
ghost use Rattle.net_names.specs.Packages.{packages_by};
ghost use Rattle.net_names.specs.steps.PackageRows.{bare_package, with_text, with_texts};

use flat_rows::{PartLists, PartRows};
use geda_model::{Block, Items, Line};
use net_list::{Package, Packages};
use rank_order::{Ranks, chains_of, ranks_of};
use std::alloc::{AllocError, Global};
use text_heads::HeadedRefdes;

/// What a part may say of its package.
#[derive(Clone, Copy, Debug)]
enum Attribute {
    Device,
    Value,
    Footprint,
}

fn headed<'a>(alloc: Global, refdeses: &'a [Line]) -> Result<Vec<HeadedRefdes<'a>>, AllocError>
    ensures { IfOk result (λ headed. headed.items ≡ refdeses.now) }
{
    let mut headed = Vec::with_capacity(alloc, refdeses.len())?;
    for at in 0..refdeses.len() {
        headed.push(HeadedRefdes::new(&refdeses[at]))?;
    }
    Ok(headed)
}

/// The rank of each part by its refdes: the place of its package among the packages.
pub fn part_ranks(alloc: Global, refdeses: &[Line]) -> Result<Ranks, AllocError>
    ensures { IfOk result (λ r. AreRanks by_bytes refdeses.now r.ranks.items r.count) }
{
    let headed = headed(alloc, refdeses)?;
    let ranks = ranks_of(alloc, &headed)?;
    Ok(ranks)
}

/// A package of which the refdes alone is known.
fn bare_package(refdes: Line) -> Package
    ensures { result ≡ bare_package refdes }
{
    Package {
        refdes,
        device: None,
        value: None,
        footprint: None,
    }
}

/// Packages with the refdeses at these places.
fn bare_packages(
    alloc: Global,
    refdeses: &[Line],
    places: &[usize],
) -> Result<Vec<Package>, AllocError>
    requires { All (λ place. place < length refdeses.now) places.now }
    ensures { IfOk result (λ packages. packages.items
        ≡ map (λ place. bare_package (slice_index_or refdeses.now place [])) places.now) }
{
    let mut packages = Vec::with_capacity(alloc, places.len())?;
    for at in 0..places.len() {
        let refdes = refdeses[places[at]].clone()?;
        packages.push(bare_package(refdes))?;
    }
    Ok(packages)
}

/// The packages of parts that have these refdeses and ranks, in order, with nothing else of them.
fn packages_with(
    alloc: Global,
    refdeses: &[Line],
    ranks: &Ranks,
) -> Result<Vec<Package>, AllocError>
    requires { AreRanks by_bytes refdeses.now ranks.now.ranks.items ranks.now.count }
    ensures { IfOk result (λ packages. packages.items
        ≡ map bare_package (once_in_order by_bytes refdeses.now)) }
{
    let chains = chains_of(alloc, ranks.count, &ranks.ranks)?;
    let packages = bare_packages(alloc, refdeses, &chains.heads)?;
    Ok(packages)
}

fn put_if_none(slot: &mut Option<Block>, text: Block)
    ensures { slot.new ≡ option_or slot.old (Some text) }
{
    if slot.is_none() {
        *slot = Some(text);
    }
}

/// Puts a text of a part behind what is known of its package.
fn put_text(known: &mut Package, attribute: Attribute, text: Block)
    ensures { known.new ≡ with_text attribute known.old (Some text) }
{
    match attribute {
        Attribute::Device => put_if_none(&mut known.device, text),
        Attribute::Value => put_if_none(&mut known.value, text),
        Attribute::Footprint => put_if_none(&mut known.footprint, text),
    }
}

/// Puts texts, each with the place of its part, behind what is known of their packages.
fn put_texts(
    packages: &mut Vec<Package>,
    attribute: Attribute,
    ranks: &[usize],
    texts: Vec<(Block, usize)>,
)
    requires ranks { All (λ rank. rank < length packages.old.items) ranks.now }
    requires places { All (λ t. t.1 < length ranks.now) texts.items }
    ensures len { length packages.new.items ≡ length packages.old.items }
    ensures texts { packages.new.items
        ≡ with_texts attribute ranks.now packages.old.items texts.items }
{
    for (text, place) in texts {
        put_text(&mut packages[ranks[place]], attribute, text);
    }
}

/// The packages of parts that have these ranks, in order of the bytes of the refdes. The first part
/// of a package that has an attribute gives it.
pub fn packages_of(alloc: Global, parts: PartRows, ranks: &Ranks) -> Result<Packages, AllocError>
    requires { AreRanks by_bytes (map (λ p. p.refdes) parts)
        ranks.now.ranks.items ranks.now.count }
    ensures { IfOk result (λ packages. packages ≡ packages_by parts) }
{
    let PartLists {
        refdeses,
        devices,
        values,
        footprints,
    } = parts.into_lists();
    let mut packages = packages_with(alloc, &refdeses, ranks)?;
    drop(refdeses);
    put_texts(&mut packages, Attribute::Device, &ranks.ranks, devices);
    put_texts(&mut packages, Attribute::Value, &ranks.ranks, values);
    put_texts(
        &mut packages,
        Attribute::Footprint,
        &ranks.ranks,
        footprints,
    );
    Ok(Items::from_vec(packages))
}
