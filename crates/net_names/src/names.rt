// Names of nets: which of two comes first, and names by their bytes.
ghost use Rattle.std.specs.Prelude.{◌≡◌, Some};
ghost use Rattle.net_names.specs.NetLists.{by_name, slashes};
ghost use Rattle.net_names.specs.steps.Gathering.{lesser};

use geda_model::Block;
use std::cmp::Ordering;
use std::marker::Model;

fn slashes(name: &str) -> usize
    ensures { result ≡ slashes name.now }
{
    name.as_bytes().iter().filter(|byte| **byte == b'/').count()
}

/// A name that is lent.
#[derive(Debug, Drop)]
pub struct LentName<'a> {
    /// The name.
    pub text: &'a Block,
}

impl<'a> Model for LentName<'a> {
    ghost use Rattle.std.specs.Prelude.{List, ℕ};

    ghost Value = { List ℕ };

    ghost view = { λ n. n.text.now };
}

fn compare_names(first: &str, second: &str) -> Ordering
    ensures { result ≡ by_name first.now second.now }
{
    let by_slashes = slashes(first).cmp(&slashes(second));
    by_slashes.then(first.cmp(second))
}

/// The lesser of the least name so far and another one. Those of one net are mostly equal: then
/// nothing is counted.
fn lesser_of<'a>(least: &'a Block, name: &'a Block) -> &'a Block
    ensures { Some result.now ≡ lesser (Some least.now) name.now }
{
    if least.as_str() == name.as_str() {
        return least;
    }
    match compare_names(name.as_str(), least.as_str()) {
        Ordering::Less => name,
        Ordering::Equal | Ordering::Greater => least,
    }
}

/// The lesser of a name and the least so far (docs/RULES.md, "Names of nets"), without memory.
pub fn lesser<'a>(least: Option<LentName<'a>>, name: &'a Block) -> LentName<'a>
    ensures { Some result ≡ lesser least.entry name.now }
{
    let text = match least {
        None => name,
        Some(least) => lesser_of(least.text, name),
    };
    LentName { text }
}

/// A name that is ordered by its bytes.
#[derive(Debug, Drop)]
pub struct NetName {
    /// The name.
    pub text: Block,
}

impl Model for NetName {
    ghost use Rattle.std.specs.Prelude.{List, ℕ};

    ghost Value = { List ℕ };

    ghost view = { λ n. n.text };
}

impl PartialEq for NetName {
    ghost use Rattle.std.proofs.Common.{rules};
    ghost use Rattle.std.specs.Cmp.Rules.{comparing};
    ghost use Rattle.std.specs.Ordering.{eq_by_cmp};
    ghost use Rattle.geda_defs.specs.Order.{by_bytes};

    ghost eq = { eq_by_cmp by_bytes };

    ghost laws = { Prim.search (comparing, rules) };

    fn eq(&self, other: &NetName) -> bool {
        self.cmp(other).is_eq()
    }
}

impl Eq for NetName {
    ghost use Rattle.std.proofs.Common.{rules};
    ghost use Rattle.std.specs.Cmp.Rules.{comparing};

    ghost laws = { Prim.search (comparing, rules) };
}

impl PartialOrd for NetName {
    ghost use Rattle.std.specs.Prelude.{Some};
    ghost use Rattle.std.proofs.Common.{rules};
    ghost use Rattle.std.specs.Cmp.{partial_order_from_own_ties};
    ghost use Rattle.std.specs.Cmp.Rules.{comparing};
    ghost use Rattle.std.specs.Ordering.{as_partial_cmp};
    ghost use Rattle.geda_defs.specs.Order.{by_bytes};

    ghost partial_cmp = { as_partial_cmp by_bytes };

    ghost laws = { partial_order_from_own_ties
        (Prim.search (comparing, rules)) (Prim.search (comparing, rules)) };

    fn partial_cmp(&self, other: &NetName) -> Option<Ordering> {
        Some(self.cmp(other))
    }
}

impl Ord for NetName {
    ghost use Rattle.std.proofs.Common.{rules};
    ghost use Rattle.std.specs.Cmp.Rules.{comparing};
    ghost use Rattle.geda_defs.specs.Order.{by_bytes};

    ghost cmp = { by_bytes };

    ghost total = { Prim.search (comparing, rules) };

    ghost matches_partial_cmp = { Prim.search (comparing, rules) };

    ghost matches_eq = { Prim.search (comparing, rules) };

    fn cmp(&self, other: &NetName) -> Ordering {
        self.text.as_str().cmp(other.text.as_str())
    }
}
