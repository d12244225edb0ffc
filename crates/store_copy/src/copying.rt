// The rows of one keeper in another.
ghost use Rattle.std.specs.Prelude.{◌≡◌, ◌≤◌, IsErrOf};
ghost use Rattle.geda_defs.specs.Causes.{HasRisen};
ghost use Rattle.store_copy.specs.Copies.{CausesNoFault, Stores};
ghost use Rattle.store_copy.specs.steps.Filling.{Copies};

use crate::compare::same_rows;
use crate::fault::StoreFault;
use crate::fill::put_rows;
use edit_desk::Desk;
use hall_core::OpenFault;
use hall_core::laws::read_rows;
use keeper_core::Keeper;
use std::alloc::Global;

/// Puts the rows of a history that a keeper does not have, and says how many.
fn copy_rows<D: Keeper>(desk: &Desk, to: &mut D) -> Result<u32, StoreFault>
    ensures later { D.faults to.old ≤ D.faults to.new }
    ensures cause { IsErrOf result StoreFault.ToFault →
        HasRisen (D.faults to.old) (D.faults to.new) }
    ensures never { D.never_fails to.old →
        CausesNoFault (D.never_fails to.new) result StoreFault.ToFault }
    ensures copies { Copies desk.now.history (D.rows to.old) result (D.rows to.new) }
{
    let held = same_rows(desk, to)?;
    put_rows(desk, to, held)?;
    Ok(desk.front() - held)
}

/// Puts the rows of a keeper into another that has the first of them, and says how many.
///
/// `FromFault` and `ToFault` only where that keeper's count of faults rose, and never over keepers
/// that never fail. `RowRefused` only where the rules do not accept that row of the first keeper,
/// which is the first such one. `Differs` only where the rules accept each, and the other keeper
/// has a row at that serial, where the first has none or another one; it is the first such serial.
/// Then nothing is put. After a later fault the other keeper has the first of the rows.
///
/// Rule: docs/RULES.md, "Stores in databases".
pub fn store_rows<K: Keeper, D: Keeper>(
    alloc: Global,
    from: &mut K,
    to: &mut D,
) -> Result<u32, StoreFault>
    ensures from_rows { K.rows from.new ≡ K.rows from.old }
    ensures from_later { K.faults from.old ≤ K.faults from.new }
    ensures to_later { D.faults to.old ≤ D.faults to.new }
    ensures from_cause { IsErrOf result StoreFault.FromFault →
        HasRisen (K.faults from.old) (K.faults from.new) }
    ensures to_cause { IsErrOf result StoreFault.ToFault →
        HasRisen (D.faults to.old) (D.faults to.new) }
    ensures from_never { K.never_fails from.old →
        CausesNoFault (K.never_fails from.new) result StoreFault.FromFault }
    ensures to_never { D.never_fails to.old →
        CausesNoFault (D.never_fails to.new) result StoreFault.ToFault }
    ensures stores { Stores (K.rows from.old) (D.rows to.old) result (D.rows to.new) }
{
    match read_rows(alloc, from) {
        Ok(desk) => {
            let stored = copy_rows(&desk, to);
            drop(desk);
            stored
        }
        Err(OpenFault::KeeperFault) => Err(StoreFault::FromFault),
        Err(OpenFault::RowRefused { serial }) => Err(StoreFault::RowRefused { serial }),
        Err(OpenFault::NoPlace) | Err(OpenFault::NoMemory) => Err(StoreFault::NoMemory),
    }
}
