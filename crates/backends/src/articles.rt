// Packages gathered by their articles.
ghost use Rattle.std.specs.Prelude.{◌≡◌, ◌<◌, ◌∷◌, [], IfOk, OnOk, length, map, unwrap_or};
ghost use Rattle.backends.specs.BillText.{article_of};
ghost use Rattle.backends.specs.steps.Groups.{article_seen, articles_in, group_seen, groups_of};
ghost use Rattle.backends.specs.steps.Groups.{with_member_at, with_package};

use geda_model::Block;
use indexmap::IndexSet;
use net_list::Package;
use std::alloc::{AllocError, Global};

/// What the packages of one group have in common. An absent value is an empty text.
#[derive(Clone, Copy, PartialEq, Eq, Hash)]
pub struct Article<'a> {
    /// The device.
    pub device: &'a str,
    /// The value.
    pub value: &'a str,
    /// The footprint.
    pub footprint: &'a str,
}

/// An article and its packages, in their order in the net list.
#[derive(Drop)]
pub struct Group<'a> {
    /// The article.
    pub article: Article<'a>,
    /// The packages.
    pub members: Vec<&'a Package>,
}

fn text_or_empty<'a>(text: &'a Option<Block>) -> &'a str
    ensures { result.now ≡ unwrap_or text.now [] }
{
    match text {
        Some(text) => text.as_str(),
        None => "",
    }
}

fn article_of<'a>(part: &'a Package) -> Article<'a>
    ensures { article_seen result ≡ article_of part.now }
{
    Article {
        device: text_or_empty(&part.device),
        value: text_or_empty(&part.value),
        footprint: text_or_empty(&part.footprint),
    }
}

fn group_of<'a>(
    alloc: Global,
    article: Article<'a>,
    part: &'a Package,
) -> Result<Group<'a>, AllocError>
    ensures { IfOk result (λ g. (g.article ≡ article.entry)
        × (map (λ m. m.now) g.members.items ≡ part.entry.now ∷ [])) }
{
    let mut members = Vec::new(alloc);
    members.push(part)?;
    Ok(Group { article, members })
}

fn add_member<'a>(
    groups: &mut Vec<Group<'a>>,
    place: usize,
    part: &'a Package,
) -> Result<(), AllocError>
    requires { place < length groups.old.items }
    ensures articles { OnOk result (articles_in groups.new ≡ articles_in groups.old) }
    ensures added { OnOk result (map group_seen groups.new.items
        ≡ with_member_at place part.entry.now (map group_seen groups.old.items)) }
{
    groups[place].members.push(part)?;
    Ok(())
}

/// Puts a package into the group of its article, or into a new one.
fn add_package<'a>(
    alloc: Global,
    articles: &mut IndexSet<Article<'a>>,
    groups: &mut Vec<Group<'a>>,
    part: &'a Package,
) -> Result<(), AllocError>
    requires { articles.old.keys ≡ articles_in groups.old }
    ensures articles { OnOk result (articles.new.keys ≡ articles_in groups.new) }
    ensures added { OnOk result (map group_seen groups.new.items
        ≡ with_package (map group_seen groups.old.items) part.entry.now) }
{
    let article = article_of(part);
    let (place, is_new) = articles.insert_full(article)?;
    if is_new {
        groups.push(group_of(alloc, article, part)?)?;
    } else {
        add_member(groups, place, part)?;
    }
    Ok(())
}

/// The packages by their articles, in order of the articles' first packages.
pub fn groups_of<'a>(alloc: Global, packages: &'a [Package]) -> Result<Vec<Group<'a>>, AllocError>
    ensures { IfOk result (λ groups. map group_seen groups.items ≡ groups_of packages.entry.now) }
{
    let mut articles = IndexSet::new(alloc);
    let mut groups = Vec::new(alloc);
    for part in packages {
        add_package(alloc, &mut articles, &mut groups, part)?;
    }
    Ok(groups)
}
