// The durable log of accepted edits.
ghost use Rattle.std.specs.Prelude.{◌≡◌, ◌++◌, ◌∷◌, [], ℕ, length, List, Option, IfSome, IfOk, MatchResult};
ghost use Rattle.std.specs.List.{slice_get};
ghost use Rattle.std.specs.Option.{option_map};
ghost use Rattle.edit_entries.specs.Entries.{EntryData};
ghost use Rattle.geda_defs.specs.Causes.{HasCause};
ghost use Rattle.keeper_core.specs.Faults.{NeverFails};
ghost use Rattle.keeper_core.specs.declared.keeper.KeepFault.TheVariants.{NoMemory};

use edit_entries::Entry;
use std::alloc::{AllocError, AllocFailed};

/// Why a call of a keeper failed.
#[derive(Clone, Copy, Debug, PartialEq, Eq)]
pub enum KeepFault {
    /// The keeper failed.
    Failed,
    /// Memory ran out.
    NoMemory,
}

impl From<AllocError> for KeepFault {
    ghost from_gives = { λ _ e. e ≡ NoMemory };

    fn from(_: AllocError) -> KeepFault {
        KeepFault::NoMemory
    }
}

impl<T: Drop> From<AllocFailed<T>> for KeepFault {
    ghost from_gives = { λ _ e. e ≡ NoMemory };

    fn from(_: AllocFailed<T>) -> KeepFault {
        KeepFault::NoMemory
    }
}

/// The durable log of accepted edits: rows, of which each is an entry, under serials from 0 on
/// (docs/RULES.md, "Keepers").
pub trait Keeper: Drop {
    /// The rows, where the keeper tells them.
    ghost rows: { Self → Option (List EntryData) };

    /// How often a call failed. The count never falls, and stays at the end of its type.
    ghost faults: { Self → ℕ };

    /// No call of it ever fails.
    ghost never_fails: { Self → Type 0 };

    /// Takes the store of this name. It is called once, before the others. The rows stay.
    ///
    /// `Failed` only where the count of faults rose.
    fn attach(&mut self, store: &str) -> Result<(), KeepFault>
        ensures rows { rows self.new ≡ rows self.old }
        ensures cause { HasCause (faults self.old) (faults self.new) result KeepFault.Failed }
        ensures never { never_fails self.old → NeverFails (never_fails self.new) result };

    /// Keeps one more row, under the serial that is the number of rows.
    ///
    /// `Failed` only where the count of faults rose. After a fault the rows are as before.
    fn put(&mut self, serial: u32, entry: &Entry) -> Result<(), KeepFault>
        requires { IfSome (rows self.old) (λ all. serial ≡ length all) }
        ensures rows { MatchResult result
            (λ _. rows self.new ≡ option_map (λ all. all ++ entry.now ∷ []) (rows self.old))
            (λ _. rows self.new ≡ rows self.old) }
        ensures cause { HasCause (faults self.old) (faults self.new) result KeepFault.Failed }
        ensures never { never_fails self.old → NeverFails (never_fails self.new) result };

    /// The row of a serial. `None` exactly where the serial is not below the number of rows. The
    /// rows stay.
    ///
    /// `Failed` only where the count of faults rose.
    fn load(&mut self, serial: u32) -> Result<Option<Entry>, KeepFault>
        ensures rows { rows self.new ≡ rows self.old }
        ensures row { IfOk result
            (λ row. IfSome (rows self.old) (λ all. row ≡ slice_get all serial)) }
        ensures cause { HasCause (faults self.old) (faults self.new) result KeepFault.Failed }
        ensures never { never_fails self.old → NeverFails (never_fails self.new) result };
}
