// The history of a keeper's rows.
ghost use Rattle.std.specs.Prelude.{◌≡◌, ◌≤◌, [], IsErrOf};
ghost use Rattle.geda_defs.specs.Causes.{HasCause, HasRisen};
ghost use Rattle.hall_core.specs.Rows.{NeverFaults, ReadsRows};
ghost use Rattle.hall_core.specs.steps.NextRows.{FindsRow, TakesRow};

use edit_desk::Desk;
use edit_entries::Entry;
use edit_rules::Verdict;
use keeper_core::{KeepFault, Keeper};
use project_model::Change;
use std::alloc::Global;

/// Why a hall does not open.
#[derive(Debug, Drop)]
pub enum OpenFault {
    /// The keeper failed.
    KeeperFault,
    /// The rules do not accept a row after those before it.
    RowRefused {
        /// The serial of the first such row, which counts from 0.
        serial: u32,
    },
    /// A seat was refused its place at the board.
    NoPlace,
    /// Memory ran out.
    NoMemory,
}

// The next row with its change, where the rules accept it after the history; none where there is no
// row left.
fn next_row<K: Keeper>(
    alloc: Global,
    keeper: &mut K,
    desk: &Desk,
) -> Result<Option<(Entry, Change)>, OpenFault>
    ensures rows { K.rows keeper.new ≡ K.rows keeper.old }
    ensures cause { HasCause (K.faults keeper.old) (K.faults keeper.new) result
        OpenFault.KeeperFault }
    ensures never { K.never_fails keeper.old → NeverFaults (K.never_fails keeper.new) result }
    ensures other { ¬ (IsErrOf result OpenFault.NoPlace) }
    ensures finds { FindsRow (K.rows keeper.old) desk.now.history result }
{
    let serial = desk.front();
    let entry = match keeper.load(serial) {
        Ok(Some(entry)) => entry,
        Ok(None) => return Ok(None),
        Err(KeepFault::Failed) => return Err(OpenFault::KeeperFault),
        Err(KeepFault::NoMemory) => return Err(OpenFault::NoMemory),
    };
    match desk.judge(alloc, &entry) {
        Ok(Verdict::Accept { change }) => Ok(Some((entry, change))),
        Ok(Verdict::Repeat { serial: _ }) => {
            drop(entry);
            Err(OpenFault::RowRefused { serial })
        }
        Ok(Verdict::Refused { fault: _ }) => {
            drop(entry);
            Err(OpenFault::RowRefused { serial })
        }
        Err(_) => {
            drop(entry);
            Err(OpenFault::NoMemory)
        }
    }
}

// Takes the next row into the history, and says whether there was one.
fn take_row<K: Keeper>(alloc: Global, keeper: &mut K, desk: &mut Desk) -> Result<bool, OpenFault>
    ensures rows { K.rows keeper.new ≡ K.rows keeper.old }
    ensures cause { HasCause (K.faults keeper.old) (K.faults keeper.new) result
        OpenFault.KeeperFault }
    ensures never { K.never_fails keeper.old → NeverFaults (K.never_fails keeper.new) result }
    ensures other { ¬ (IsErrOf result OpenFault.NoPlace) }
    ensures takes { TakesRow (K.rows keeper.old) desk.old.history result desk.new.history }
{
    match next_row(alloc, keeper, desk) {
        Ok(None) => Ok(false),
        Ok(Some((entry, change))) => {
            if desk.reserve(alloc, &change).is_err() {
                drop((entry, change));
                return Err(OpenFault::NoMemory);
            }
            desk.commit(entry, change);
            Ok(true)
        }
        Err(fault) => Err(fault),
    }
}

/// The history of all of a keeper's rows (docs/RULES.md, "Histories that are shared"). The rows
/// stay.
///
/// `KeeperFault` only where the keeper's count of faults rose, and never over a keeper that never
/// fails. Where the rows are told, `RowRefused` only where the rules do not accept that row, which
/// is the first such one, and a history only where they accept each. `NoPlace` never comes.
pub fn read_rows<K: Keeper>(alloc: Global, keeper: &mut K) -> Result<Desk, OpenFault>
    ensures rows { K.rows keeper.new ≡ K.rows keeper.old }
    ensures later { K.faults keeper.old ≤ K.faults keeper.new }
    ensures cause { IsErrOf result OpenFault.KeeperFault →
        HasRisen (K.faults keeper.old) (K.faults keeper.new) }
    ensures never { K.never_fails keeper.old → NeverFaults (K.never_fails keeper.new) result }
    ensures other { ¬ (IsErrOf result OpenFault.NoPlace) }
    ensures reads { ReadsRows (K.rows keeper.old) result }
{
    let mut desk = Desk::new(alloc);
    'rows: loop {
        match take_row(alloc, keeper, &mut desk) {
            Ok(true) => {}
            Ok(false) => break,
            Err(fault) => {
                drop(desk);
                return Err(fault);
            }
        }
    }
    // The length is asked so that the proof sees that the history is legal.
    let _history = desk.front();
    Ok(desk)
}
