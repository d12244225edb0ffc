// What stands behind the hall's lock: the history with what is published of it, what keeps the
// rows, and the total of losses.
ghost use Rattle.std.specs.Prelude.{◌≡◌, ◌≤◌, ◌+◌, ◌*◌, [], length, OnOk, None, min};
ghost use Rattle.std.specs.List.{sum_by};
ghost use Rattle.geda_defs.specs.Causes.{HasRisen};
ghost use Rattle.edit_rules.specs.declared.verdict.Verdict.TheVariants.{Accept};
ghost use Rattle.hall_core.specs.Histories.{IsJudged};
ghost use Rattle.hall_core.specs.Pens.{Edits, IsSameButShown, Steps};
ghost use Rattle.hall_core.specs.Closings.{Closes, Settles};

use crate::board_copy::ShowsBoard;
use crate::keys::{EditLog, Keys};
use crate::losses::{Allowance, LossTotal};
use crate::published::PublishedDesk;
use crate::seat::Seat;
use edit_entries::Entry;
use edit_rules::Verdict;
use hall_log::{HallName, Prefix};
use keeper_core::{KeepFault, Keeper, Reply};
use project_model::Change;
use std::alloc::AllocError;
use std::marker::Model;
use std::sync::Wait;
use std::sync::ledger::Share;

/// The state under the write lock. Contracts see the history, what is published of it, the keeper's
/// rows and faults, and the total of all losses.
pub struct Pen<K: Keeper, B: HallName, S: ShowsBoard<B>, R: Wait + Drop> {
    pub(crate) desk: PublishedDesk<B, S, R>,
    pub(crate) edit_log: EditLog<K, B>,
    pub(crate) losses: LossTotal<B>,
}

impl<K: Keeper, B: HallName, S: ShowsBoard<B>, R: Wait + Drop> Drop for Pen<K, B, S, R> {
    fn drop(self) {
        let Pen {
            desk: _,
            edit_log: _,
            losses: _,
        } = self;
    }
}

impl<K: Keeper, B: HallName, S: ShowsBoard<B>, R: Wait + Drop> Model for Pen<K, B, S, R> {
    ghost use Rattle.hall_core.specs.Pens.{PenData, IsPen, rows_of, faults_of};

    ghost Value = { PenData };

    ghost view = { λ p. record {
      history = p.desk.history;
      shown = p.desk.shown;
      waiting = p.desk.waiting;
      change = p.desk.change;
      rows = rows_of K.rows p.edit_log.keeper;
      faults = faults_of K.faults p.losses.total p.edit_log.keeper;
      total = p.losses.total;
    } };

    ghost invariant = { λ p.
        IsPen p.desk.history (rows_of K.rows p.edit_log.keeper)
        (faults_of K.faults p.losses.total p.edit_log.keeper) p.losses.total };
}

// Whether the listed entries hold all that each seat has seen. `all` is what is held of the ledger
// by the keys and by the seats before these.
fn settle<B: HallName, S: ShowsBoard<B>>(
    seats: &mut [Seat<B, S>],
    listed: &Prefix<B>,
    total: &mut LossTotal<B>,
    all: &mut Share<B>,
) -> bool
    requires backed { all.old.parts ≡ 0 → all.old.amount ≡ 0 }
    ensures settles { Settles listed.now result seats.old seats.new }
    ensures total { total.new.total ≡ total.old.total }
    ensures share { (all.new.parts ≡ all.old.parts) × (all.new.amount ≡ all.old.amount) }
    ensures losses { all.old.parts + length seats.old ≡ B.parts →
        all.old.amount + length seats.old * 4294967295 + total.old.total
        ≡ B.seats * 4294967295 + sum_by (λ seat. seat.losses) seats.old }
{
    match seats.split_first_mut() {
        None => {
            total.audit(all);
            true
        }
        Some((seat, rest)) => {
            let held = seat.is_held(listed);
            let Allowance { losses, share } = &mut seat.allowance;
            let left = u32::MAX - *losses;
            share.give(all, 1, u64::from(left));
            let others = settle(rest, listed, total, all);
            all.give(share, 1, u64::from(left));
            held && others
        }
    }
}

impl<K: Keeper, B: HallName, S: ShowsBoard<B>, R: Wait + Drop> Pen<K, B, S, R> {
    /// The keeper, whose rows are a legal history, and whether they hold all that these seats have
    /// seen.
    pub(crate) fn close(&mut self, keys: Keys<B>, seats: &mut [Seat<B, S>]) -> (K, bool)
        requires { B.parts ≡ B.seats * 2 + 1 }
        ensures { Closes (K.rows result.0) (K.faults result.0) B.seats
            result.1 seats.old seats.new }
    {
        let _history = self.desk.front();
        let mut all = keys.into_share();
        let held = settle(seats, self.desk.listed(), &mut self.losses, &mut all);
        (self.edit_log.close(all), held)
    }

    // Publishes the whole history.
    fn catch_up(&mut self) -> Result<(), AllocError>
        ensures same { IsSameButShown self.old self.new }
        ensures shown { OnOk result ((self.new.shown ≡ self.new.history)
            × (self.new.waiting ≡ []) × (self.new.change ≡ None)) }
    {
        self.desk.catch_up()
    }

    // Keeps an accepted entry, takes it into the history and publishes it. All that may want memory
    // comes before the row is put, but for the publishing.
    fn put(&mut self, entry: Entry, change: Change) -> Reply
        requires accepted { IsJudged self.old.history entry (Accept change) }
        requires shown { (self.old.shown ≡ self.old.history)
            × (self.old.waiting ≡ []) × (self.old.change ≡ None) }
        ensures { Steps self.old entry result self.new }
    {
        let Ok(kept) = change.copy(self.desk.alloc()) else {
            drop((entry, change));
            return Reply::NoMemory;
        };
        let Ok(count) = self.desk.reserve(&entry, &change) else {
            drop((entry, change, kept));
            return Reply::NoMemory;
        };
        let front = self.desk.front();
        match self.edit_log.put(front, &entry) {
            Ok(()) => {}
            Err(fault) => {
                drop((entry, change, kept));
                match fault {
                    KeepFault::Failed => return Reply::KeeperFault { front },
                    KeepFault::NoMemory => return Reply::NoMemory,
                }
            }
        }
        let first_id = self.desk.next_id();
        let serial = self.desk.commit(entry, change, kept, count);
        match self.catch_up() {
            Ok(()) => Reply::Done {
                serial,
                first_id,
                front: serial + 1,
            },
            Err(_) => Reply::NoMemory,
        }
    }

    /// Judges the entry after the whole history, and takes it where it may follow.
    pub(crate) fn step(&mut self, entry: Entry) -> Reply
        ensures { Steps self.old entry result self.new }
    {
        if self.catch_up().is_err() {
            drop(entry);
            return Reply::NoMemory;
        }
        let front = self.desk.front();
        match self.desk.judge(&entry) {
            Ok(Verdict::Accept { change }) => self.put(entry, change),
            Ok(Verdict::Repeat { serial }) => {
                drop(entry);
                Reply::Repeat {
                    serial,
                    first_id: self.desk.first_id(serial),
                    front,
                }
            }
            Ok(Verdict::Refused { fault }) => {
                drop(entry);
                Reply::Refused { fault, front }
            }
            Err(_) => {
                drop(entry);
                Reply::NoMemory
            }
        }
    }

    // Takes one of the seat's allowance for a fault of the keeper.
    fn charge(&mut self, allowance: &mut Allowance<B>)
        requires { HasRisen self.old.total self.old.faults }
        ensures losses { allowance.new.losses ≡ min (allowance.old.losses + 1) 4294967295 }
        ensures history { self.new.history ≡ self.old.history }
        ensures shown { self.new.shown ≡ self.old.shown }
    {
        self.losses.charge(allowance);
    }

    /// A step for a seat, which has then seen the whole history.
    pub(crate) fn edit(&mut self, seat: &mut Seat<B, S>, entry: Entry) -> Reply
        ensures edits { Edits seat.old entry result seat.new }
        ensures later { seat.old.refusals ≤ seat.new.refusals }
    {
        if self.catch_up().is_err() {
            drop(entry);
            return Reply::NoMemory;
        }
        if !seat.learn(self.desk.told()) {
            drop(entry);
            return Reply::NoEntry;
        }
        match self.step(entry) {
            done @ Reply::Done { .. } => {
                if !seat.learn(self.desk.told()) {
                    return Reply::NoEntry;
                }
                done
            }
            repeat @ Reply::Repeat { .. } => repeat,
            Reply::Refused { fault, front } => Reply::Refused { fault, front },
            Reply::KeeperFault { front } => {
                self.charge(&mut seat.allowance);
                Reply::KeeperFault { front }
            }
            Reply::NoEntry => Reply::NoMemory,
            Reply::NoMemory => Reply::NoMemory,
        }
    }
}
