// The rows that a keeper has already, beside those of a history.
ghost use Rattle.std.specs.Prelude.{◌≡◌, ◌≤◌, ◌↔◌, IsErrOf, IsTrue, Some};
ghost use Rattle.std.specs.List.{slice_get};
ghost use Rattle.geda_defs.specs.Causes.{HasRisen};
ghost use Rattle.store_copy.specs.Copies.{CausesNoFault};
ghost use Rattle.store_copy.specs.steps.Comparing.{Agrees, AgreesSoFar};

use crate::fault::StoreFault;
use edit_desk::Desk;
use edit_entries::Entry;
use keeper_core::{KeepFault, Keeper};

/// Whether the history has this row at a serial.
fn is_row_of(desk: &Desk, serial: u32, row: &Entry) -> bool
    ensures { IsTrue result ↔ (slice_get desk.now.history serial ≡ Some row.now) }
{
    match desk.entry(serial) {
        Some(entry) => *entry == *row,
        None => false,
    }
}

/// Whether the keeper has a row at a serial, which is that of the history.
fn is_next_same<D: Keeper>(desk: &Desk, to: &mut D, serial: u32) -> Result<bool, StoreFault>
    ensures rows { D.rows to.new ≡ D.rows to.old }
    ensures later { D.faults to.old ≤ D.faults to.new }
    ensures cause { IsErrOf result StoreFault.ToFault →
        HasRisen (D.faults to.old) (D.faults to.new) }
    ensures never { D.never_fails to.old →
        CausesNoFault (D.never_fails to.new) result StoreFault.ToFault }
    ensures agrees { Agrees (D.rows to.old) desk.now.history serial result }
{
    match to.load(serial) {
        Ok(Some(row)) => {
            if is_row_of(desk, serial, &row) {
                drop(row);
                return Ok(true);
            }
            drop(row);
            Err(StoreFault::Differs { serial })
        }
        Ok(None) => Ok(false),
        Err(KeepFault::Failed) => Err(StoreFault::ToFault),
        Err(KeepFault::NoMemory) => Err(StoreFault::NoMemory),
    }
}

/// How many rows the keeper has, each of which is that of the history.
pub fn same_rows<D: Keeper>(desk: &Desk, to: &mut D) -> Result<u32, StoreFault>
    ensures rows { D.rows to.new ≡ D.rows to.old }
    ensures later { D.faults to.old ≤ D.faults to.new }
    ensures cause { IsErrOf result StoreFault.ToFault →
        HasRisen (D.faults to.old) (D.faults to.new) }
    ensures never { D.never_fails to.old →
        CausesNoFault (D.never_fails to.new) result StoreFault.ToFault }
    ensures agrees { AgreesSoFar (D.rows to.old) desk.now.history result }
{
    // The length is asked so that the proof sees that it is small.
    let _front = desk.front();
    let mut serial = 0;
    'rows: while is_next_same(desk, to, serial)? {
        serial += 1;
    }
    Ok(serial)
}
