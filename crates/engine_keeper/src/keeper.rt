// The keeper of rows on several machines.
ghost use Rattle.std.specs.Prelude.{◌≡◌, ◌++◌, ◌∷◌, ◌<◌, ◌≤◌, [], IfOk, IfSome, IsOk, IsSome, MatchResult, None, Ok, false, true};
ghost use Rattle.std.specs.List.{slice_get};
ghost use Rattle.std.specs.Option.{option_map};
ghost use Rattle.engine_board.specs.Holds.{HoldsBoard};
ghost use Rattle.engine_keeper.specs.Vouched.{vouched_rows};
ghost use Rattle.geda_defs.specs.Causes.{HasCause};

use crate::steps::{load_row, put_row};
use edit_entries::Entry;
use engine_board::Hold;
use engine_core::Engine;
use keeper_core::{KeepFault, Keeper};
use std::alloc::Global;
use std::marker::Model;

/// The durable log of accepted edits, as rows on several machines, of a board that was taken.
#[derive(Drop)]
pub struct EngineKeeper<E: Engine> {
    engine: E,
    hold: Hold,
    alloc: Global,
    faults: u64,
}

impl<E: Engine> Model for EngineKeeper<E> {
    ghost use Rattle.std.specs.Prelude.{IfSome};
    ghost use Rattle.engine_board.specs.Holds.{HoldsBoard};
    ghost use Rattle.engine_keeper.specs.EngineKeepers.{EngineKeeperData, engine_keeper_code};

    ghost Value = { EngineKeeperData E };

    ghost coded = { engine_keeper_code E.code };

    ghost view = { λ k. record { engine = k.engine; hold = k.hold; faults = k.faults } };

    ghost invariant = { λ k. IfSome (E.world k.engine) (HoldsBoard k.hold) };
}

impl<E: Engine> EngineKeeper<E> {
    /// The keeper of a board that was taken. It takes no memory.
    pub fn over(engine: E, hold: Hold, alloc: Global) -> EngineKeeper<E>
        requires held { IfSome (E.world engine) (HoldsBoard hold) }
        ensures faults { result.faults ≡ 0 }
        ensures engine { result.engine ≡ engine }
        ensures hold { result.hold ≡ hold }
    {
        EngineKeeper {
            engine,
            hold,
            alloc,
            faults: 0,
        }
    }

    /// Another one's key was found, so another one has the board. No row is put any more, and none
    /// is asked for to be put. It takes no memory.
    pub fn is_lost(&self) -> bool
        ensures said { result ≡ self.now.hold.lost }
        ensures others { result ≡ true →
            IfSome (E.world self.now.engine) (λ w. w.ours ≡ false) }
    {
        self.hold.lost
    }

    /// Counts what failed, and hands the answer on.
    fn count<T: Drop>(&mut self, answer: Result<T, KeepFault>) -> Result<T, KeepFault>
        ensures same { result ≡ answer }
        ensures engine { self.new.engine ≡ self.old.engine }
        ensures hold { self.new.hold ≡ self.old.hold }
        ensures cause { HasCause self.old.faults self.new.faults result KeepFault.Failed }
    {
        if let Err(KeepFault::Failed) = &answer {
            self.faults = self.faults.saturating_add(1);
        }
        answer
    }
}

impl<E: Engine> Keeper for EngineKeeper<E> {
    ghost use Rattle.engine_keeper.specs.Vouched.{vouched_rows};

    ghost rows = { λ k. vouched_rows k.hold.count (E.world k.engine) };

    ghost faults = { λ k. k.faults };

    ghost never_fails = { λ _. ⊥ };

    /// Nothing is asked: the board is taken already. The name of the store does not matter.
    fn attach(&mut self, _store: &str) -> Result<(), KeepFault> {
        Ok(())
    }

    /// Puts a row behind those that are vouched for.
    ///
    /// `Failed` only where the count of faults rose, as where the board is another's, where the
    /// serial is not the number of rows, and where no answer came; then the row may be there as one
    /// more than those that are vouched for, until the next one takes its place.
    fn put(&mut self, serial: u32, entry: &Entry) -> Result<(), KeepFault>
        ensures rows { MatchResult result
            (λ _. vouched_rows self.new.hold.count (E.world self.new.engine)
            ≡ option_map (λ all. all ++ entry.now ∷ [])
            (vouched_rows self.old.hold.count (E.world self.old.engine)))
            (λ _. vouched_rows self.new.hold.count (E.world self.new.engine)
            ≡ vouched_rows self.old.hold.count (E.world self.old.engine)) }
        ensures cause { HasCause self.old.faults self.new.faults result KeepFault.Failed }
        ensures others { IfSome (E.world self.old.engine) (λ w. w.ours ≡ false → ¬ (IsOk result)) }
        ensures lost { self.old.hold.lost ≡ true → ¬ (IsOk result) }
        ensures still { self.old.hold.lost ≡ true → self.new.hold.lost ≡ true }
        ensures unasked { self.old.hold.lost ≡ true → self.new.engine ≡ self.old.engine }
    {
        let put = put_row(&mut self.engine, &mut self.hold, self.alloc, serial, entry);
        self.count(put)
    }

    /// The row of a serial that is vouched for; `None` exactly where it is not, and then nothing is
    /// asked.
    ///
    /// `Failed` only where the count of faults rose, as where the row is missing or is no row, and
    /// where no answer came.
    fn load(&mut self, serial: u32) -> Result<Option<Entry>, KeepFault>
        ensures rows { vouched_rows self.new.hold.count (E.world self.new.engine)
            ≡ vouched_rows self.old.hold.count (E.world self.old.engine) }
        ensures row { IfOk result (λ row.
            IfSome (vouched_rows self.old.hold.count (E.world self.old.engine))
            (λ all. row ≡ slice_get all serial)) }
        ensures cause { HasCause self.old.faults self.new.faults result KeepFault.Failed }
        ensures hold { self.new.hold ≡ self.old.hold }
        ensures below { serial < self.old.hold.count → IfOk result IsSome }
        ensures past { self.old.hold.count ≤ serial → result ≡ Ok None }
    {
        let row = load_row(&mut self.engine, self.hold, self.alloc, serial);
        self.count(row)
    }
}
