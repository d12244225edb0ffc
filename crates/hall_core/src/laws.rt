//! The step on the lent pen, and the history of a keeper's rows.
ghost use Rattle.std.specs.Prelude.{◌≡◌};
ghost use Rattle.hall_core.specs.Pens.{Steps};

use crate::board_copy::ShowsBoard;
use crate::pen::Pen;
pub use crate::rows::read_rows;
use edit_entries::Entry;
use hall_log::HallName;
use keeper_core::{Keeper, Reply};
use std::sync::Wait;

/// The step of one caller under the lock: exactly the verdict on the entry after the whole history
/// (docs/RULES.md, "Histories that are shared").
///
/// `Done` adds this one entry. `Repeat` and `Refused` leave the history. `KeeperFault` comes only
/// where the entry may follow and the keeper's count of faults rose, and leaves the history. In
/// each of these all is published. `NoMemory` leaves the history as it was, or with this entry
/// last. `NoEntry` never comes.
pub fn step<K: Keeper, B: HallName, S: ShowsBoard<B>, R: Wait + Drop>(
    pen: &mut Pen<K, B, S, R>,
    entry: Entry,
) -> Reply
    ensures { Steps pen.old entry result pen.new }
{
    pen.step(entry)
}
