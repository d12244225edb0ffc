// The ledger of losses: each seat has an allowance of 4,294,967,295, and gives one of it for each
// fault of the keeper that it is told.
ghost use Rattle.std.specs.Prelude.{◌≡◌, ℕ, ◌+◌, ◌-◌, ◌*◌, ◌^◌, ◌<◌, ◌≤◌, min, false};

use hall_log::HallName;
use std::sync::ledger;
use std::sync::ledger::Share;

/// What a seat has given of its allowance. It holds the rest.
#[derive(Drop)]
pub(crate) struct Allowance<B: HallName> {
    pub(crate) losses: u32,
    pub(crate) share: Share<B>,
    ghost one: { share.parts ≡ 1 },
    ghost rest: { share.amount + losses ≡ 4294967295 },
}

/// What all seats have given, and the book of what they hold.
#[derive(Drop)]
pub(crate) struct LossTotal<B: HallName> {
    owed: ledger::Book<B>,
    pub(crate) total: u64,
    ghost all: { owed.total + total ≡ B.seats * 4294967295 },
    ghost few: { B.seats ≤ 32 },
}

impl<B: HallName> Allowance<B> {
    /// A whole allowance, with one part of the ledger.
    pub(crate) fn new(owed: &mut ledger::Book<B>, rest: &mut Share<B>) -> Allowance<B>
        requires { (0 < rest.old.parts) × (rest.old.amount ≡ 0) }
        ensures losses { result.losses ≡ 0 }
        ensures owed { owed.new.total ≡ owed.old.total + 4294967295 }
        ensures rest { (rest.new.parts + 1 ≡ rest.old.parts) × (rest.new.amount ≡ 0) }
    {
        let mut share = rest.split_off(1, 0);
        owed.add(&mut share, 4_294_967_295);
        Allowance { losses: 0, share }
    }
}

impl<B: HallName> LossTotal<B> {
    /// Of a hall whose seats have given nothing.
    pub(crate) fn new(owed: ledger::Book<B>) -> LossTotal<B>
        requires { (owed.total ≡ B.seats * 4294967295) × (B.seats ≤ 32) }
        ensures { result.total ≡ 0 }
    {
        LossTotal { owed, total: 0 }
    }

    /// Takes one of an allowance, unless that is spent.
    pub(crate) fn charge(&mut self, allowance: &mut Allowance<B>)
        ensures losses { allowance.new.losses ≡ min (allowance.old.losses + 1) 4294967295 }
        ensures total { self.new.total ≤ self.old.total + 1 }
        ensures low { self.new.total < 2 ^ 38 }
    {
        let LossTotal { owed, total } = self;
        let Allowance { losses, share } = allowance;
        owed.audit(share);
        if *losses < u32::MAX {
            owed.sub(share, 1);
            *losses += 1;
            *total += 1;
        }
    }

    /// How what is held stands to what was given.
    pub(crate) fn audit(&mut self, all: &mut Share<B>)
        ensures total { self.new.total ≡ self.old.total }
        ensures all { (all.new.parts ≡ all.old.parts) × (all.new.amount ≡ all.old.amount) }
        ensures whole { all.old.parts ≡ B.parts →
            all.old.amount + self.old.total ≡ B.seats * 4294967295 }
    {
        self.owed.audit(all);
    }
}
