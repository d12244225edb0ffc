// The history with the number of conductors of its project, which has a budget.
ghost use Rattle.std.specs.Prelude.{◌≡◌, ◌++◌, ◌∷◌, [], IfOk, OnOk, length};
ghost use Rattle.project_model.specs.Changes.{CanApply, put};
ghost use Rattle.edit_rules.specs.Histories.{project};
ghost use Rattle.edit_rules.specs.Verdicts.{verdict};
ghost use Rattle.edit_rules.specs.declared.verdict.Verdict.TheVariants.{Accept};
ghost use Rattle.edit_desk.specs.Desks.{IsRoomForEntry};
ghost use Rattle.conductor_counts.specs.Conductors.{conductors};

use conductor_counts::{conductors_after, count_conductors};
use edit_desk::Desk;
use edit_entries::Entry;
use project_model::Change;
use std::alloc::{AllocError, Global};
use std::marker::Model;

/// The most conductors that an edit may bring a project to.
const MOST_CONDUCTORS: u64 = 2_000_000;

/// A desk, and how many conductors its project has. Contracts see the desk.
#[derive(Drop)]
pub(crate) struct BudgetDesk {
    desk: Desk,
    count: u64,
}

impl Model for BudgetDesk {
    ghost use Rattle.std.specs.Prelude.{◌≡◌};
    ghost use Rattle.edit_rules.specs.Histories.{project};
    ghost use Rattle.edit_desk.specs.Desks.{DeskView};
    ghost use Rattle.conductor_counts.specs.Conductors.{conductors};

    ghost Value = { DeskView };

    ghost view = { λ d. d.desk };

    ghost invariant = { λ d. d.count ≡ conductors (project d.desk.history) };
}

impl BudgetDesk {
    /// This desk, however many conductors its project has.
    pub(crate) fn of(alloc: Global, desk: Desk) -> Result<BudgetDesk, AllocError>
        ensures { IfOk result (λ d. d ≡ desk) }
    {
        match count_conductors(alloc, desk.project()) {
            Ok(count) => Ok(BudgetDesk { desk, count }),
            Err(_) => {
                drop(desk);
                Err(AllocError)
            }
        }
    }

    /// The desk itself.
    pub(crate) fn desk(&self) -> &Desk
        ensures { result.now ≡ self.now }
    {
        &self.desk
    }

    /// Makes room for an entry with this change, and tells how many conductors there are then.
    ///
    /// A change by which they would be more than they are, and over 2,000,000, is refused as for
    /// want of memory: it would take the board as much. The history stays.
    pub(crate) fn reserve(&mut self, alloc: Global, change: &Change) -> Result<u64, AllocError>
        requires can_apply { CanApply change.now.items }
        ensures same { self.new.history ≡ self.old.history }
        ensures room { OnOk result (IsRoomForEntry change.now.items self.new.spare) }
        ensures count { IfOk result (λ count. count
            ≡ conductors (put (project self.old.history) change.now.items)) }
    {
        let count = conductors_after(alloc, self.desk.project(), self.count, change)?;
        if count > MOST_CONDUCTORS && count > self.count {
            return Err(AllocError);
        }
        self.desk.reserve(alloc, change)?;
        Ok(count)
    }

    /// Takes an accepted entry into the history with its change, by which there are so many
    /// conductors. It can't fail and takes no memory.
    pub(crate) fn commit(&mut self, entry: Entry, change: Change, count: u64) -> u32
        requires accepted { verdict self.old.history entry ≡ Accept change }
        requires room { IsRoomForEntry change.items self.old.spare }
        requires count { count ≡ conductors (put (project self.old.history) change.items) }
        ensures appended { self.new.history ≡ self.old.history ++ entry ∷ [] }
        ensures serial { result ≡ length self.old.history }
    {
        self.count = count;
        self.desk.commit(entry, change)
    }
}
