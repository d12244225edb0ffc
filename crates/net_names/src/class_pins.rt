// The pins of listed parts, lent, with their places, and their order.
ghost use Rattle.std.specs.Prelude.{◌≡◌, ◌<◌, All, IfOk, length, map};
ghost use Rattle.net_names.specs.steps.Pins.{pin_under, ranks_of_pins};

use attr_rules::PinKind;
use flat_rows::RowMember;
use geda_model::{Line, Word};
use net_list::Member;
use std::alloc::{AllocError, Global};
use std::cmp::Ordering;
use std::marker::Model;
use text_heads::short_text_head;

/// A pin of a listed part, with its place. Pins are ordered by number alone.
#[derive(Debug, Drop)]
pub struct ClassPin<'a> {
    /// The place of its conductor, counted from 0.
    pub place: usize,
    /// The printed refdes of its part.
    pub refdes: &'a Line,
    /// Its number.
    pub number: &'a Word,
    /// The first bytes of its number.
    head: u32,
    /// Its kind.
    pub kind: PinKind,
}

impl<'a> Model for ClassPin<'a> {
    ghost use Rattle.net_names.specs.NetClasses.{ClassPinData};
    ghost use Rattle.text_heads.specs.Heads.{IsTextHead};

    ghost Value = { ClassPinData };

    ghost view = { λ p. record {
      place = p.place;
      member = record { refdes = p.refdes.now; pin = p.number.now; kind = p.kind };
    } };

    ghost invariant = { λ p. IsTextHead 4 p.head p.number.now };
}

impl<'a> PartialEq for ClassPin<'a> {
    ghost use Rattle.std.proofs.Common.{rules};
    ghost use Rattle.std.specs.Cmp.Rules.{comparing};
    ghost use Rattle.std.specs.Ordering.{eq_by_cmp};
    ghost use Rattle.net_names.specs.steps.Pins.{by_number};

    ghost eq = { eq_by_cmp by_number };

    ghost laws = { Prim.search (comparing, rules) };

    fn eq(&self, other: &ClassPin<'a>) -> bool {
        self.cmp(other).is_eq()
    }
}

impl<'a> Eq for ClassPin<'a> {
    ghost use Rattle.std.proofs.Common.{rules};
    ghost use Rattle.std.specs.Cmp.Rules.{comparing};

    ghost laws = { Prim.search (comparing, rules) };
}

impl<'a> PartialOrd for ClassPin<'a> {
    ghost use Rattle.std.specs.Prelude.{Some};
    ghost use Rattle.std.proofs.Common.{rules};
    ghost use Rattle.std.specs.Cmp.{partial_order_from_own_ties};
    ghost use Rattle.std.specs.Cmp.Rules.{comparing};
    ghost use Rattle.std.specs.Ordering.{as_partial_cmp};
    ghost use Rattle.net_names.specs.steps.Pins.{by_number};

    ghost partial_cmp = { as_partial_cmp by_number };

    ghost laws = { partial_order_from_own_ties
        (Prim.search (comparing, rules)) (Prim.search (comparing, rules)) };

    fn partial_cmp(&self, other: &ClassPin<'a>) -> Option<Ordering> {
        Some(self.cmp(other))
    }
}

impl<'a> Ord for ClassPin<'a> {
    ghost use Rattle.std.proofs.Common.{rules};
    ghost use Rattle.std.specs.Cmp.Rules.{comparing};
    ghost use Rattle.net_names.specs.steps.Pins.{by_number};

    ghost cmp = { by_number };

    ghost total = { Prim.search (comparing, rules) };

    ghost matches_partial_cmp = { Prim.search (comparing, rules) };

    ghost matches_eq = { Prim.search (comparing, rules) };

    fn cmp(&self, other: &ClassPin<'a>) -> Ordering {
        if self.head != other.head {
            return self.head.cmp(&other.head);
        }
        self.number.cmp(other.number)
    }
}

impl<'a> ClassPin<'a> {
    /// What is printed of it.
    pub fn member(&self) -> Result<Member, AllocError>
        ensures { IfOk result (λ member. member ≡ self.now.member) }
    {
        let refdes = self.refdes.clone()?;
        let pin = self.number.clone()?;
        let kind = self.kind;
        Ok(Member { refdes, pin, kind })
    }
}

/// The pin that a member of parts with these refdeses is. It takes no memory.
pub fn class_pin<'a>(refdeses: &'a [Line], member: &'a (RowMember, usize)) -> ClassPin<'a>
    requires { member.now.0.part < length refdeses.now }
    ensures { result ≡ pin_under refdeses.now member.now }
{
    let number = &member.0.pin;
    ClassPin {
        place: member.1,
        refdes: &refdeses[member.0.part],
        number,
        head: short_text_head(number.as_str()),
        kind: member.0.kind,
    }
}

/// The pins that members of parts with these refdeses are.
pub fn class_pins<'a>(
    alloc: Global,
    refdeses: &'a [Line],
    members: &'a [(RowMember, usize)],
) -> Result<Vec<ClassPin<'a>>, AllocError>
    requires { All (λ m. m.0.part < length refdeses.now) members.now }
    ensures { IfOk result (λ pins. pins.items ≡ map (pin_under refdeses.now) members.now) }
{
    let mut pins = Vec::with_capacity(alloc, members.len())?;
    for at in 0..members.len() {
        pins.push(class_pin(refdeses, &members[at]))?;
    }
    Ok(pins)
}

/// The rank of the part of each member.
pub fn ranks_of_pins(
    alloc: Global,
    ranks: &[usize],
    members: &[(RowMember, usize)],
) -> Result<Vec<usize>, AllocError>
    requires { All (λ m. m.0.part < length ranks.now) members.now }
    ensures { IfOk result (λ found. found.items ≡ ranks_of_pins ranks.now members.now) }
{
    let mut found = Vec::with_capacity(alloc, members.len())?;
    for at in 0..members.len() {
        found.push(ranks[members[at].0.part])?;
    }
    Ok(found)
}
