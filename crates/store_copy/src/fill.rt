// Putting the rows of a history into a keeper that has the first of them.
ghost use Rattle.std.specs.Prelude.{◌≡◌, ◌≤◌, ◌<◌, ◌+◌, IsErrOf, MatchResult, length, take};
ghost use Rattle.geda_defs.specs.Causes.{HasRisen};
ghost use Rattle.store_copy.specs.Copies.{CausesNoFault};
ghost use Rattle.store_copy.specs.steps.Filling.{HasFirst, HasSome, IsOfTo};

use crate::fault::StoreFault;
use edit_desk::Desk;
use keeper_core::{KeepFault, Keeper};

/// Puts the row of a serial, behind those before it.
fn put_next<D: Keeper>(desk: &Desk, to: &mut D, serial: u32) -> Result<(), StoreFault>
    requires within { serial < length desk.now.history }
    requires first { HasFirst serial desk.now.history (D.rows to.old) (D.rows to.old) }
    ensures later { D.faults to.old ≤ D.faults to.new }
    ensures cause { IsErrOf result StoreFault.ToFault →
        HasRisen (D.faults to.old) (D.faults to.new) }
    ensures never { D.never_fails to.old →
        CausesNoFault (D.never_fails to.new) result StoreFault.ToFault }
    ensures kind { IsOfTo result }
    ensures rows { MatchResult result
        (λ _. HasFirst (serial + 1) desk.now.history (D.rows to.old) (D.rows to.new))
        (λ _. D.rows to.new ≡ D.rows to.old) }
{
    let Some(entry) = desk.entry(serial) else {
        return Ok(());
    };
    match to.put(serial, entry) {
        Ok(()) => Ok(()),
        Err(KeepFault::Failed) => Err(StoreFault::ToFault),
        Err(KeepFault::NoMemory) => Err(StoreFault::NoMemory),
    }
}

/// Puts the rows from a serial on, behind those before it.
fn put_each<D: Keeper>(desk: &Desk, to: &mut D, serial: u32) -> Result<(), StoreFault>
    requires within { serial ≤ length desk.now.history }
    requires first { HasFirst serial desk.now.history (D.rows to.old) (D.rows to.old) }
    ensures later { D.faults to.old ≤ D.faults to.new }
    ensures cause { IsErrOf result StoreFault.ToFault →
        HasRisen (D.faults to.old) (D.faults to.new) }
    ensures never { D.never_fails to.old →
        CausesNoFault (D.never_fails to.new) result StoreFault.ToFault }
    ensures kind { IsOfTo result }
    ensures rows { MatchResult result
        (λ _. HasFirst (length desk.now.history) desk.now.history (D.rows to.old) (D.rows to.new))
        (λ _. HasSome desk.now.history (D.rows to.old) (D.rows to.new)) }
{
    for next in serial..desk.front() {
        put_next(desk, to, next)?;
    }
    Ok(())
}

/// Asks for the row behind the last one. A keeper may gather rows that are put, and keep them all
/// before it answers what is asked (`SqlBatchKeeper`): once it does, all rows are kept.
fn settle_rows<D: Keeper>(desk: &Desk, to: &mut D) -> Result<(), StoreFault>
    ensures later { D.faults to.old ≤ D.faults to.new }
    ensures cause { IsErrOf result StoreFault.ToFault →
        HasRisen (D.faults to.old) (D.faults to.new) }
    ensures never { D.never_fails to.old →
        CausesNoFault (D.never_fails to.new) result StoreFault.ToFault }
    ensures kind { IsOfTo result }
    ensures rows { D.rows to.new ≡ D.rows to.old }
{
    match to.load(desk.front()) {
        Ok(None) => Ok(()),
        Ok(Some(row)) => {
            drop(row);
            Ok(())
        }
        Err(KeepFault::Failed) => Err(StoreFault::ToFault),
        Err(KeepFault::NoMemory) => Err(StoreFault::NoMemory),
    }
}

/// Puts the rows from a serial on, behind those before it, so that all are kept.
pub fn put_rows<D: Keeper>(desk: &Desk, to: &mut D, serial: u32) -> Result<(), StoreFault>
    requires within { serial ≤ length desk.now.history }
    requires first { HasFirst serial desk.now.history (D.rows to.old) (D.rows to.old) }
    ensures later { D.faults to.old ≤ D.faults to.new }
    ensures cause { IsErrOf result StoreFault.ToFault →
        HasRisen (D.faults to.old) (D.faults to.new) }
    ensures never { D.never_fails to.old →
        CausesNoFault (D.never_fails to.new) result StoreFault.ToFault }
    ensures kind { IsOfTo result }
    ensures rows { MatchResult result
        (λ _. HasFirst (length desk.now.history) desk.now.history (D.rows to.old) (D.rows to.new))
        (λ _. HasSome desk.now.history (D.rows to.old) (D.rows to.new)) }
{
    put_each(desk, to, serial)?;
    settle_rows(desk, to)
}
