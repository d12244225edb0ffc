// The calls of a keeper, on a store.
ghost use Rattle.std.specs.Prelude.{◌≡◌, ◌++◌, ◌∷◌, ◌<◌, ◌≤◌, [], IfOk, IfSome, IsOk, IsSome, MatchResult, None, Ok, false, true};
ghost use Rattle.std.specs.List.{slice_get};
ghost use Rattle.std.specs.Option.{option_map};
ghost use Rattle.edit_entries.specs.Entries.{EntryData};
ghost use Rattle.engine_board.specs.Holds.{HoldsBoard};
ghost use Rattle.engine_keeper.specs.Vouched.{vouched_rows};
ghost use Rattle.row_texts.specs.RowTexts.{IsRowOf, entry_of};

use edit_entries::Entry;
use engine_board::{Hold, put, row};
use engine_core::{Body, Engine, EngineFault};
use keeper_core::KeepFault;
use row_texts::{row_body, row_entry};
use std::alloc::Global;

/// How often a row is tried.
const TRIES: u32 = 6;

/// The fault of a keeper.
fn keep_fault(fault: EngineFault) -> KeepFault {
    match fault {
        EngineFault::NoAnswer => KeepFault::Failed,
        EngineFault::NoMemory => KeepFault::NoMemory,
    }
}

/// Puts the body of an entry.
fn put_body<E: Engine>(engine: &mut E, hold: &mut Hold, body: &Body) -> Result<(), KeepFault>
    requires held { IfSome (E.world engine.old) (HoldsBoard hold.old) }
    ensures held { IfSome (E.world engine.new) (HoldsBoard hold.new) }
    ensures rows { (entry : EntryData) → IsRowOf body.now entry → MatchResult result
        (λ _. vouched_rows hold.new.count (E.world engine.new)
        ≡ option_map (λ all. all ++ entry ∷ []) (vouched_rows hold.old.count (E.world engine.old)))
        (λ _. vouched_rows hold.new.count (E.world engine.new)
        ≡ vouched_rows hold.old.count (E.world engine.old)) }
    ensures others { IfSome (E.world engine.old) (λ w. w.ours ≡ false → ¬ (IsOk result)) }
    ensures lost { hold.old.lost ≡ true → ¬ (IsOk result) }
    ensures still { hold.old.lost ≡ true → hold.new.lost ≡ true }
    ensures unasked { hold.old.lost ≡ true → engine.new ≡ engine.old }
{
    match put(engine, hold, body, TRIES) {
        Ok(()) => Ok(()),
        Err(fault) => Err(keep_fault(fault)),
    }
}

/// Puts an entry behind those that are vouched for.
pub fn put_row<E: Engine>(
    engine: &mut E,
    hold: &mut Hold,
    alloc: Global,
    serial: u32,
    entry: &Entry,
) -> Result<(), KeepFault>
    requires held { IfSome (E.world engine.old) (HoldsBoard hold.old) }
    ensures held { IfSome (E.world engine.new) (HoldsBoard hold.new) }
    ensures rows { MatchResult result
        (λ _. vouched_rows hold.new.count (E.world engine.new)
        ≡ option_map (λ all. all ++ entry.now ∷ [])
        (vouched_rows hold.old.count (E.world engine.old)))
        (λ _. vouched_rows hold.new.count (E.world engine.new)
        ≡ vouched_rows hold.old.count (E.world engine.old)) }
    ensures others { IfSome (E.world engine.old) (λ w. w.ours ≡ false → ¬ (IsOk result)) }
    ensures lost { hold.old.lost ≡ true → ¬ (IsOk result) }
    ensures still { hold.old.lost ≡ true → hold.new.lost ≡ true }
    ensures unasked { hold.old.lost ≡ true → engine.new ≡ engine.old }
{
    if serial != hold.count {
        return Err(KeepFault::Failed);
    }
    match row_body(alloc, entry) {
        Ok(bytes) => {
            let body = Body::new(bytes);
            put_body(engine, hold, &body)
        }
        Err(_) => Err(KeepFault::NoMemory),
    }
}

/// The entry of what was read of a serial; what is missing below the count is a fault.
fn entry_in(
    alloc: Global,
    found: Option<Body>,
    serial: u32,
    count: u32,
) -> Result<Option<Entry>, KeepFault>
    ensures row { IfOk result (λ row. row ≡ option_map entry_of found) }
    ensures below { serial < count → IfOk result IsSome }
    ensures past { count ≤ serial → found ≡ None → result ≡ Ok None }
{
    match found {
        Some(body) => Ok(Some(row_entry(alloc, body.as_slice())?)),
        None => {
            if serial < count {
                return Err(KeepFault::Failed);
            }
            Ok(None)
        }
    }
}

/// The entry of a serial; `None` where it is not vouched for.
pub fn load_row<E: Engine>(
    engine: &mut E,
    hold: Hold,
    alloc: Global,
    serial: u32,
) -> Result<Option<Entry>, KeepFault>
    requires held { IfSome (E.world engine.old) (HoldsBoard hold) }
    ensures held { IfSome (E.world engine.new) (HoldsBoard hold) }
    ensures rows { vouched_rows hold.count (E.world engine.new)
        ≡ vouched_rows hold.count (E.world engine.old) }
    ensures row { IfOk result (λ row. IfSome (vouched_rows hold.count (E.world engine.old))
        (λ all. row ≡ slice_get all serial)) }
    ensures below { serial < hold.count → IfOk result IsSome }
    ensures past { hold.count ≤ serial → result ≡ Ok None }
{
    match row(engine, hold, serial) {
        Ok(found) => entry_in(alloc, found, serial, hold.count),
        Err(fault) => Err(keep_fault(fault)),
    }
}
