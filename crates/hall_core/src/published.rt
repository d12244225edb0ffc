// The history with what is published of it, as the pen holds them.
ghost use Rattle.std.specs.Prelude.{◌≡◌, ◌<◌, ◌≤◌, ◌++◌, ◌∷◌, [], fold, length, take, ◌^◌, IfOk, IfSome, None, OnOk};
ghost use mathlib.Core.List.{IsPrefix};
ghost use Rattle.project_model.specs.Changes.{put};
ghost use Rattle.edit_rules.specs.Histories.{project};
ghost use Rattle.edit_rules.specs.declared.verdict.Verdict.TheVariants.{Accept};
ghost use Rattle.edit_desk.specs.Desks.{IsRoomForEntry};
ghost use Rattle.conductor_counts.specs.Conductors.{conductors};
ghost use Rattle.hall_log.specs.Histories.{IsHistory};
ghost use Rattle.hall_core.specs.Histories.{IsJudged, IsNextChange, first_id_at};
ghost use Rattle.hall_core.specs.BoardSteps.{applied_to};
ghost use Rattle.hall_core.specs.steps.Publishing.{IsCaughtUp, IsSameHistory, IsSameShown};

use crate::board_copy::{NextChange, ShowsBoard};
use crate::desk_budget::BudgetDesk;
use crate::door::Door;
use edit_desk::Desk;
use edit_entries::Entry;
use edit_rules::Verdict;
use hall_log::{HallName, LogLength, Prefix};
use left_right::WriteHandle;
use project_model::Change;
use std::alloc::{AllocError, Global};
use std::marker::Model;
use std::sync::Wait;

/// The history, the list that all share, the writer of the board, and the change of the last entry
/// for as long as the writer does not have it.
#[derive(Drop)]
pub(crate) struct PublishedDesk<B: HallName, S: ShowsBoard<B>, R: Wait + Drop> {
    alloc: Global,
    desk: BudgetDesk,
    log_length: LogLength<B>,
    listed: Prefix<B>,
    writer: WriteHandle<S, NextChange<B>, R>,
    change: Option<Change>,
}

impl<B: HallName, S: ShowsBoard<B>, R: Wait + Drop> Model for PublishedDesk<B, S, R> {
    ghost use Rattle.left_right.specs.Handles.{published, pending};
    ghost use Rattle.hall_core.specs.steps.Publishing.{PublishedData, IsPublished};

    ghost Value = { PublishedData };

    ghost view = { λ d. record {
      history = d.desk.history;
      spare = d.desk.spare;
      listed = d.listed;
      shown = S.list (published d.writer);
      waiting = pending d.writer;
      change = d.change;
    } };

    ghost invariant = { λ d.
        IsPublished d.desk.history d.listed
        (S.list (published d.writer)) (pending d.writer) d.change };
}

impl<B: HallName, S: ShowsBoard<B>, R: Wait + Drop> PublishedDesk<B, S, R> {
    /// A history that is published whole, with room for so many readers.
    pub(crate) fn new(
        alloc: Global,
        rt: R,
        desk: Desk,
        log: (LogLength<B>, Prefix<B>),
        first: S,
        second: S,
        readers: usize,
    ) -> Result<PublishedDesk<B, S, R>, AllocError>
        requires listed { log.1 ≡ desk.history }
        requires shown { (S.list first ≡ desk.history) × (S.list second ≡ desk.history) }
        requires readers { (0 < readers) × (readers < 2 ^ 32) }
        ensures { IfOk result (λ d. (d.history ≡ desk.history) × (d.shown ≡ desk.history)
            × (d.waiting ≡ []) × (d.change ≡ None)) }
    {
        let (log_length, listed) = log;
        let _history = listed.len();
        let desk = BudgetDesk::of(alloc, desk)?;
        let Ok(writer) = WriteHandle::new(alloc, rt, first, second, readers) else {
            drop(desk);
            return Err(AllocError);
        };
        Ok(PublishedDesk {
            alloc,
            desk,
            log_length,
            listed,
            writer,
            change: None,
        })
    }

    /// The door of a new reader. There is none where each place is taken.
    pub(crate) fn door(&self) -> Option<Door<B, S>>
        ensures { IfSome result (λ door. door.refusals ≡ 0) }
    {
        match self.writer.handle() {
            Ok(reader) => Some(Door::new(reader)),
            Err(_) => None,
        }
    }

    /// The allocator.
    pub(crate) fn alloc(&self) -> Global {
        self.alloc
    }

    /// The entries that are in the list that all share. The history begins with them.
    pub(crate) fn listed(&self) -> &Prefix<B>
        ensures begins { IsPrefix result.now self.now.history }
    {
        &self.listed
    }

    /// The length of the history.
    pub(crate) fn front(&self) -> u32
        ensures length { result ≡ length self.now.history }
        ensures history { IsHistory self.now.history }
        ensures short { length self.now.history ≤ 200000 }
    {
        self.desk.desk().front()
    }

    /// The id that is free first.
    pub(crate) fn next_id(&self) -> u32
        ensures { result ≡ (project self.now.history).next_id }
    {
        self.desk.desk().project().next_id()
    }

    /// The id that was free first before the entry at a serial.
    pub(crate) fn first_id(&self, serial: u32) -> u32
        requires { serial < length self.now.history }
        ensures { result ≡ first_id_at self.now.history serial }
    {
        self.desk.desk().first_id(serial).unwrap()
    }

    /// What the rules say of the entry after the history.
    pub(crate) fn judge(&self, entry: &Entry) -> Result<Verdict, AllocError>
        ensures { IfOk result (λ verdict. IsJudged self.now.history entry.now verdict) }
    {
        self.desk.desk().judge(self.alloc, entry)
    }

    /// The prefix that is published.
    pub(crate) fn told(&self) -> &Prefix<B>
        ensures { result.now ≡ self.now.shown }
    {
        self.writer.published().prefix()
    }

    /// Makes room for an accepted entry with its change, and tells how many conductors there are
    /// then. They have a budget.
    pub(crate) fn reserve(&mut self, entry: &Entry, change: &Change) -> Result<u64, AllocError>
        requires accepted { IsJudged self.old.history entry.now (Accept change.now) }
        ensures same { IsSameShown self.old self.new × (self.new.history ≡ self.old.history) }
        ensures room { OnOk result (IsRoomForEntry change.now.items self.new.spare) }
        ensures count { IfOk result (λ count. count
            ≡ conductors (put (project self.old.history) change.now.items)) }
    {
        // A field is read so that the proof sees that the entry is in range.
        let _ = &entry.edit;
        self.desk.reserve(self.alloc, change)
    }

    /// Takes the entry into the history with its change, of which a copy is kept to be published,
    /// and by which there are so many conductors.
    pub(crate) fn commit(&mut self, entry: Entry, change: Change, kept: Change, count: u64) -> u32
        requires accepted { IsJudged self.old.history entry (Accept change) }
        requires kept { kept.items ≡ change.items }
        requires room { IsRoomForEntry change.items self.old.spare }
        requires shown { IsCaughtUp self.old }
        requires count { count ≡ conductors (put (project self.old.history) change.items) }
        ensures appended { self.new.history ≡ self.old.history ++ entry ∷ [] }
        ensures serial { result ≡ length self.old.history }
    {
        // A field is read so that the proof sees that the entry is in range.
        let _ = &entry.edit;
        self.change = Some(kept);
        self.desk.commit(entry, change, count)
    }

    // Takes the last entry into the list that all share.
    fn list_next(&mut self) -> Result<(), AllocError>
        ensures same { IsSameHistory self.old self.new
            × (self.new.shown ≡ self.old.shown) × (self.new.waiting ≡ self.old.waiting)
            × (self.new.change ≡ self.old.change) }
        ensures listed { OnOk result (self.new.listed ≡ self.new.history) }
    {
        let serial = self.listed.len();
        let Some(entry) = self.desk.desk().entry(serial as u32) else {
            return Ok(());
        };
        let mut listed = self.listed.again();
        // The list is never longer, since it grows under the lock alone; no clause says so.
        if !listed.add(&self.log_length, entry) {
            return Err(AllocError);
        }
        self.listed = listed;
        Ok(())
    }

    // Hands the change of the last entry to the writer, where it does not have it.
    fn append_next(&mut self) -> Result<(), AllocError>
        requires listed { self.old.listed ≡ self.old.history }
        ensures same { IsSameHistory self.old self.new
            × (self.new.shown ≡ self.old.shown) × (self.new.listed ≡ self.old.listed) }
        ensures taken { OnOk result (self.new.change ≡ None) }
    {
        let before = self.told().again();
        let Some(change) = self.change.take() else {
            return Ok(());
        };
        let step = NextChange::new(before, change, self.listed.again());
        match self.writer.append(step) {
            Ok(()) => Ok(()),
            Err(step) => {
                self.change = Some(step.into_change());
                Err(AllocError)
            }
        }
    }

    // Publishes what the writer has.
    fn show_next(&mut self) -> Result<(), AllocError>
        requires taken { self.old.change ≡ None }
        ensures same { IsSameHistory self.old self.new }
        ensures shown { OnOk result (IsCaughtUp self.new) }
    {
        if self.writer.has_pending_operations() {
            self.writer.publish()?;
        }
        Ok(())
    }

    /// Publishes the whole history.
    pub(crate) fn catch_up(&mut self) -> Result<(), AllocError>
        ensures same { IsSameHistory self.old self.new }
        ensures shown { OnOk result (IsCaughtUp self.new) }
    {
        self.list_next()?;
        self.append_next()?;
        self.show_next()
    }
}
