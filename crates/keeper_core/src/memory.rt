// A keeper in memory, of which some calls fail.
ghost use Rattle.std.specs.Prelude.{◌≡◌, ◌↔◌, ◌++◌, ◌∷◌, [], Contains, IfErr, IfOk, IsErrOf, IsTrue, MatchBool, MatchResult, OnOk, ◌≤◌};
ghost use Rattle.std.specs.List.{slice_get};
ghost use Rattle.geda_defs.specs.Causes.{HasCause, HasRisen};
ghost use Rattle.keeper_core.specs.Faults.{NeverFails};
ghost use Rattle.keeper_core.specs.MemoryKeepers.{KeeperFails, keeper_after_call, keeper_after_fault, with_rows};
ghost use Rattle.keeper_core.specs.declared.keeper.KeepFault.TheVariants as faults;

use crate::keeper::{KeepFault, Keeper};
use edit_entries::Entry;
use outside::FailingCalls;
use std::marker::Model;

/// A keeper in memory that tells its rows.
#[derive(Drop)]
pub struct MemoryKeeper {
    rows: Vec<Entry>,
    planned: FailingCalls,
}

impl Model for MemoryKeeper {
    ghost use Rattle.keeper_core.specs.MemoryKeepers.{MemoryKeeperData};

    ghost Value = { MemoryKeeperData };

    ghost view = { λ k. record {
      rows = k.rows.items;
      failing = k.planned.failing;
      calls = k.planned.calls;
      faults = k.planned.faults;
    } };
}

impl MemoryKeeper {
    /// A keeper of these rows. The calls whose numbers are in `failing`, counted from 1 over all
    /// calls, fail. It takes no memory.
    pub fn new(rows: Vec<Entry>, failing: Vec<u64>) -> MemoryKeeper
        ensures rows { result.rows ≡ rows.items }
        ensures failing { result.failing ≡ failing.items }
        ensures calls { result.calls ≡ 0 }
        ensures faults { result.faults ≡ 0 }
    {
        MemoryKeeper {
            rows,
            planned: FailingCalls::new(failing),
        }
    }

    /// The rows, by rising serial. It takes no memory.
    pub fn rows(&self) -> &[Entry]
        ensures { result.now ≡ self.now.rows }
    {
        self.rows.as_slice()
    }

    /// How many calls there were. The count stays at the end of its type. It takes no memory.
    pub fn calls(&self) -> u64
        ensures { result ≡ self.now.calls }
    {
        self.planned.calls()
    }

    // Puts one more row.
    fn push_row(&mut self, entry: &Entry) -> Result<(), KeepFault>
        ensures ok { OnOk result (self.new ≡ with_rows self.old (self.old.rows ++ entry.now ∷ [])) }
        ensures err { IfErr result (λ e. (e ≡ faults.NoMemory) × (self.new ≡ self.old)) }
    {
        self.rows.push(entry.clone()?)?;
        Ok(())
    }

    // A copy of the row of a serial.
    fn row(&self, serial: u32) -> Result<Option<Entry>, KeepFault>
        ensures row { IfOk result (λ row. row ≡ slice_get self.now.rows serial) }
        ensures err { IfErr result (λ e. e ≡ faults.NoMemory) }
    {
        match self.rows.get(serial as usize) {
            Some(row) => Ok(Some(row.clone()?)),
            None => Ok(None),
        }
    }
}

impl Keeper for MemoryKeeper {
    ghost use Rattle.std.specs.Prelude.{Some, [], ◌≡◌};

    ghost rows = { λ k. Some k.rows };

    ghost faults = { λ k. k.faults };

    ghost never_fails = { λ k. k.failing ≡ [] };

    /// The name of the store does not matter. The rows stay.
    ///
    /// `Failed` exactly where the number of the call is in the list of those that fail. The count
    /// of calls rises by one, with `Failed` the count of faults too, and all else stays.
    fn attach(&mut self, _store: &str) -> Result<(), KeepFault>
        ensures rows { self.new.rows ≡ self.old.rows }
        ensures cause { HasCause self.old.faults self.new.faults result KeepFault.Failed }
        ensures never { self.old.failing ≡ [] → NeverFails (self.new.failing ≡ []) result }
        ensures failed { IsErrOf result faults.Failed ↔ KeeperFails self.old }
        ensures ok { OnOk result (self.new ≡ keeper_after_call self.old self.old.rows) }
        ensures err { IfErr result
            (λ e. (e ≡ faults.Failed) × (self.new ≡ keeper_after_fault self.old)) }
    {
        if self.planned.is_next_failing() {
            return Err(KeepFault::Failed);
        }
        Ok(())
    }

    /// Puts the row last, whatever the serial is.
    ///
    /// `Failed` exactly where the number of the call is in the list of those that fail. The count
    /// of calls rises by one, with `Failed` the count of faults too. After a fault the rows stay.
    fn put(&mut self, _serial: u32, entry: &Entry) -> Result<(), KeepFault>
        ensures rows { MatchResult result
            (λ _. self.new.rows ≡ self.old.rows ++ entry.now ∷ [])
            (λ _. self.new.rows ≡ self.old.rows) }
        ensures cause { HasCause self.old.faults self.new.faults result KeepFault.Failed }
        ensures never { self.old.failing ≡ [] → NeverFails (self.new.failing ≡ []) result }
        ensures failed { IsErrOf result faults.Failed ↔ KeeperFails self.old }
        ensures ok { OnOk result
            (self.new ≡ keeper_after_call self.old (self.old.rows ++ entry.now ∷ [])) }
        ensures fault { IsErrOf result faults.Failed → self.new ≡ keeper_after_fault self.old }
        ensures no_memory { IsErrOf result faults.NoMemory →
            self.new ≡ keeper_after_call self.old self.old.rows }
    {
        if self.planned.is_next_failing() {
            return Err(KeepFault::Failed);
        }
        self.push_row(entry)
    }

    /// The row of a serial. `None` exactly where the serial is not below the number of rows. The
    /// rows stay.
    ///
    /// `Failed` exactly where the number of the call is in the list of those that fail. The count
    /// of calls rises by one, with `Failed` the count of faults too, and all else stays.
    fn load(&mut self, serial: u32) -> Result<Option<Entry>, KeepFault>
        ensures rows { self.new.rows ≡ self.old.rows }
        ensures row { IfOk result (λ row. row ≡ slice_get self.old.rows serial) }
        ensures cause { HasCause self.old.faults self.new.faults result KeepFault.Failed }
        ensures never { self.old.failing ≡ [] → NeverFails (self.new.failing ≡ []) result }
        ensures failed { IsErrOf result faults.Failed ↔ KeeperFails self.old }
        ensures fault { IsErrOf result faults.Failed → self.new ≡ keeper_after_fault self.old }
        ensures after { ¬ (IsErrOf result faults.Failed) →
            self.new ≡ keeper_after_call self.old self.old.rows }
    {
        if self.planned.is_next_failing() {
            return Err(KeepFault::Failed);
        }
        self.row(serial)
    }
}
