// The first bytes of texts as numbers, by which most texts are told apart.
ghost use Rattle.std.specs.Prelude.{◌≡◌, ◌<◌, ◌≤◌, ◌+◌, ◌*◌, ℕ, drop, slice_index_or};
ghost use Rattle.text_heads.specs.Heads.{IsTextHead, head_from};

use geda_model::Line;
use std::cmp::Ordering;
use std::marker::Model;

fn byte_at(bytes: &[u8], at: usize) -> u64
    ensures byte { result ≡ slice_index_or bytes.now at 0 }
    ensures small { result < 256 }
{
    if at < bytes.len() {
        bytes[at] as u64
    } else {
        0
    }
}

/// Four bytes from a place on as one number.
fn four_at(bytes: &[u8], at: usize) -> u64
    requires { at ≤ 4 }
    ensures head { (head : ℕ) → head_from 4 head (drop at bytes.now) ≡ head * 4294967296 + result }
    ensures small { result < 4294967296 }
{
    let first = byte_at(bytes, at) * 256 + byte_at(bytes, at + 1);
    let second = byte_at(bytes, at + 2) * 256 + byte_at(bytes, at + 3);
    first * 65_536 + second
}

/// The first eight bytes of a text as one number.
fn text_head(text: &str) -> u64
    ensures { IsTextHead 8 result text.now }
{
    let bytes = text.as_bytes();
    four_at(bytes, 0) * 4_294_967_296 + four_at(bytes, 4)
}

/// The first four bytes of a text as one number.
pub fn short_text_head(text: &str) -> u32
    ensures { IsTextHead 4 result text.now }
{
    four_at(text.as_bytes(), 0) as u32
}

/// A refdes with its first bytes as a number. It is ordered by its bytes.
#[derive(Debug, Drop)]
pub struct HeadedRefdes<'a> {
    head: u64,
    refdes: &'a Line,
}

impl<'a> Model for HeadedRefdes<'a> {
    ghost use Rattle.std.specs.Prelude.{List, ℕ};
    ghost use Rattle.text_heads.specs.Heads.{IsTextHead};

    ghost Value = { List ℕ };

    ghost view = { λ r. r.refdes.now };

    ghost invariant = { λ r. IsTextHead 8 r.head r.refdes.now };
}

impl<'a> HeadedRefdes<'a> {
    /// The refdes with its head.
    pub fn new(refdes: &'a Line) -> HeadedRefdes<'a>
        ensures { result ≡ refdes.now }
    {
        let head = text_head(refdes.as_str());
        HeadedRefdes { head, refdes }
    }
}

impl<'a> PartialEq for HeadedRefdes<'a> {
    ghost use Rattle.std.proofs.Common.{rules};
    ghost use Rattle.std.specs.Cmp.Rules.{comparing};
    ghost use Rattle.std.specs.Ordering.{eq_by_cmp};
    ghost use Rattle.geda_defs.specs.Order.{by_bytes};

    ghost eq = { eq_by_cmp by_bytes };

    ghost laws = { Prim.search (comparing, rules) };

    fn eq(&self, other: &HeadedRefdes<'a>) -> bool {
        self.cmp(other).is_eq()
    }
}

impl<'a> Eq for HeadedRefdes<'a> {
    ghost use Rattle.std.proofs.Common.{rules};
    ghost use Rattle.std.specs.Cmp.Rules.{comparing};

    ghost laws = { Prim.search (comparing, rules) };
}

impl<'a> PartialOrd for HeadedRefdes<'a> {
    ghost use Rattle.std.specs.Prelude.{Some};
    ghost use Rattle.std.proofs.Common.{rules};
    ghost use Rattle.std.specs.Cmp.{partial_order_from_own_ties};
    ghost use Rattle.std.specs.Cmp.Rules.{comparing};
    ghost use Rattle.std.specs.Ordering.{as_partial_cmp};
    ghost use Rattle.geda_defs.specs.Order.{by_bytes};

    ghost partial_cmp = { as_partial_cmp by_bytes };

    ghost laws = { partial_order_from_own_ties
        (Prim.search (comparing, rules)) (Prim.search (comparing, rules)) };

    fn partial_cmp(&self, other: &HeadedRefdes<'a>) -> Option<Ordering> {
        Some(self.cmp(other))
    }
}

impl<'a> Ord for HeadedRefdes<'a> {
    ghost use Rattle.std.proofs.Common.{rules};
    ghost use Rattle.std.specs.Cmp.Rules.{comparing};
    ghost use Rattle.geda_defs.specs.Order.{by_bytes};

    ghost cmp = { by_bytes };

    ghost total = { Prim.search (comparing, rules) };

    ghost matches_partial_cmp = { Prim.search (comparing, rules) };

    ghost matches_eq = { Prim.search (comparing, rules) };

    fn cmp(&self, other: &HeadedRefdes<'a>) -> Ordering {
        if self.head != other.head {
            return self.head.cmp(&other.head);
        }
        self.refdes.cmp(other.refdes)
    }
}
