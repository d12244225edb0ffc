// Who may close a hall, and what keeps its rows until then.
ghost use Rattle.std.specs.Prelude.{◌≡◌, ◌+◌, ◌*◌, ◌<◌, ◌++◌, ◌∷◌, [], ℕ, length, IfSome, MatchResult, None, Some};
ghost use Rattle.std.specs.Option.{option_map};
ghost use Rattle.geda_defs.specs.Causes.{HasCause};
ghost use Rattle.hall_core.specs.Pens.{faults_of, rows_of};

use edit_entries::Entry;
use hall_log::HallName;
use keeper_core::{KeepFault, Keeper};
use std::sync::ledger::Share;

/// What closes a hall, once (docs/RULES.md, "Histories that are shared"). It takes no bytes.
///
/// It has all parts of the hall's ledger but one for each seat, which is more than half of them: so
/// there is one alone.
#[derive(Drop)]
pub struct Keys<B: HallName> {
    share: Share<B>,
    ghost most: { share.parts ≡ B.seats + 1 },
    ghost nothing: { share.amount ≡ 0 },
}

impl<B: HallName> Keys<B> {
    /// Of a hall of so many seats, out of the whole ledger.
    pub(crate) fn new(rest: &mut Share<B>, seats: u32) -> Keys<B>
        requires seats { seats ≡ B.seats }
        requires whole { (rest.old.parts ≡ B.seats * 2 + 1) × (rest.old.amount ≡ 0) }
        ensures left { (rest.new.parts ≡ B.seats) × (rest.new.amount ≡ 0) }
    {
        Keys {
            share: rest.split_off(u64::from(seats) + 1, 0),
        }
    }

    /// The parts that no seat has.
    pub(crate) fn into_share(self) -> Share<B>
        ensures most { result.parts ≡ B.seats + 1 }
        ensures nothing { result.amount ≡ 0 }
    {
        let Keys { share } = self;
        share
    }
}

/// What keeps the rows of a hall, until its keys come back.
pub(crate) struct EditLog<K: Keeper, B: HallName> {
    pub(crate) keeper: Option<K>,
    returned: Share<B>,
    ghost open: { keeper ≡ None → B.seats < returned.parts },
}

impl<K: Keeper, B: HallName> Drop for EditLog<K, B> {
    fn drop(self) {
        let EditLog {
            keeper: _,
            returned: _,
        } = self;
    }
}

impl<K: Keeper, B: HallName> EditLog<K, B> {
    /// Of a hall whose keys are out.
    pub(crate) fn new(keeper: K, rest: &mut Share<B>) -> EditLog<K, B>
        ensures keeper { result.keeper ≡ Some keeper }
        ensures same { rest.new ≡ rest.old }
    {
        EditLog {
            keeper: Some(keeper),
            returned: rest.empty(),
        }
    }

    /// Keeps one more row, where the keys are out.
    pub(crate) fn put(&mut self, serial: u32, entry: &Entry) -> Result<(), KeepFault>
        requires { IfSome (rows_of K.rows self.old.keeper) (λ all. serial ≡ length all) }
        ensures rows { MatchResult result
            (λ _. rows_of K.rows self.new.keeper
            ≡ option_map (λ all. all ++ entry.now ∷ []) (rows_of K.rows self.old.keeper))
            (λ _. rows_of K.rows self.new.keeper ≡ rows_of K.rows self.old.keeper) }
        ensures cause { (other : ℕ) → HasCause (faults_of K.faults other self.old.keeper)
            (faults_of K.faults other self.new.keeper) result KeepFault.Failed }
    {
        match &mut self.keeper {
            Some(keeper) => keeper.put(serial, entry),
            None => Err(KeepFault::NoMemory),
        }
    }

    /// The keeper, for the parts of the keys. There is one, since these come back once, and none
    /// afterwards.
    pub(crate) fn close(&mut self, share: Share<B>) -> K
        requires parts { B.parts ≡ B.seats * 2 + 1 }
        requires most { B.seats < share.parts }
        ensures keeper { self.old.keeper ≡ Some result }
        ensures none { self.new.keeper ≡ None }
    {
        self.returned.merge(share);
        match self.keeper.take() {
            Some(keeper) => keeper,
            None => unreachable!(),
        }
    }
}
