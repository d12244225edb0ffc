// The hall: the pen behind a lock, and the seats.
ghost use Rattle.std.specs.Prelude.{◌≡◌, ◌≤◌, ◌<◌, ◌+◌, ◌*◌, [], All, length, IfSome, IfOk, IfErr, IsErrOf, IsTrue, None, Option, List};
ghost use Rattle.geda_defs.specs.Causes.{HasRisen};
ghost use Rattle.edit_entries.specs.Entries.{EntryData};
ghost use Rattle.edit_rules.specs.Verdicts.{Legal};
ghost use Rattle.hall_core.specs.Closings.{Closes};
ghost use Rattle.hall_core.specs.Rows.{Refuses};
ghost use Rattle.hall_core.specs.Seats.{HasLostNothing, IsNew};
ghost use Rattle.hall_core.specs.Pens.{Edits};

use crate::board_copy::{PrefixBoard, ShowsBoard};
use crate::door::Places;
use crate::keys::{EditLog, Keys};
use crate::losses::{Allowance, LossTotal};
use crate::pen::Pen;
use crate::published::PublishedDesk;
use crate::rows::{OpenFault, read_rows};
use crate::seat::Seat;
use board_core::Board;
use edit_desk::Desk;
use edit_entries::Entry;
use hall_log::{HallName, LogLength, NamedLog, Prefix};
use keeper_core::{Keeper, Reply};
use std::alloc::{AllocError, Global};
use std::sync::ledger::Share;
use std::sync::{Mutex, Wait, ledger};

/// The state that all connections share: the pen behind a lock (docs/RULES.md, "Histories that are
/// shared"). A hall stands to the end of its process: who opens one ends in `mem::forget`.
pub struct Hall<K: Keeper, B: HallName, S: ShowsBoard<B>, R: Wait + Drop> {
    pub(crate) pen: Mutex<Pen<K, B, S, R>>,
}

impl<K: Keeper, B: HallName, S: ShowsBoard<B>, R: Wait + Drop> Drop for Hall<K, B, S, R> {
    fn drop(self) {
        let Hall { pen: _ } = self;
    }
}

/// The hall of a board whose writer waits by R.
pub type BoardHall<K, B, R> = Hall<K, B, PrefixBoard<B>, R>;

/// A seat of it.
pub type BoardSeat<B> = Seat<B, PrefixBoard<B>>;

/// Takes the lock, and answers the entry: exactly by the verdict on it after the whole history
/// (docs/RULES.md, "Seats"). The seat has then seen the whole history, but for `NoEntry` and
/// `NoMemory`; what it had seen begins what it has seen.
///
/// `KeeperFault` only where the keeper failed to put the row; the seat's losses then rose, or stand
/// at 4,294,967,295, and the history is as before. In every other reply they stay. `NoEntry` only
/// where the seat's refusals rose; like `NoMemory` it leaves the history as before, or with this
/// entry last. A closed hall answers `NoMemory`.
pub fn edit<W: Wait, K: Keeper, B: HallName, S: ShowsBoard<B>, R: Wait + Drop>(
    rt: &W,
    hall: &Hall<K, B, S, R>,
    seat: &mut Seat<B, S>,
    entry: Entry,
) -> Reply
    ensures edits { Edits seat.old entry result seat.new }
    ensures later { seat.old.refusals ≤ seat.new.refusals }
{
    hall.pen.lock(rt).edit(seat, entry)
}

// So many seats that have seen what is published, each with an allowance.
fn seats_at<B: HallName, S: ShowsBoard<B>, R: Wait + Drop>(
    alloc: Global,
    desk: &PublishedDesk<B, S, R>,
    owed: &mut ledger::Book<B>,
    rest: &mut Share<B>,
    count: u32,
    places: &mut Places,
) -> Result<Vec<Seat<B, S>>, OpenFault>
    requires { (owed.old.total ≡ 0) × (rest.old.parts ≡ count) × (rest.old.amount ≡ 0) }
    ensures seen { IfOk result
        (λ seats. All (IsNew desk.now.shown) seats.items × (length seats.items ≡ count)) }
    ensures owed { IfOk result (λ _. owed.new.total ≡ count * 4294967295) }
    ensures later { places.old.refused ≤ places.new.refused }
    ensures cause { IsErrOf result OpenFault.NoPlace →
        HasRisen places.old.refused places.new.refused }
    ensures other { IsErrOf result OpenFault.KeeperFault → ⊥ }
    ensures rows { (rows : Option (List EntryData)) → IfErr result (λ e. Refuses rows e) }
{
    let mut seats = Vec::new(alloc);
    let mut made = 0;
    while made < count {
        let Some(door) = places.door(desk) else {
            return Err(OpenFault::NoPlace);
        };
        let allowance = Allowance::new(owed, rest);
        let seat = Seat::new(door, desk.told().again(), allowance);
        seats.push(seat).map_err(|_| OpenFault::NoMemory)?;
        made += 1;
    }
    Ok(seats)
}

// Adds the entries of a history to the list of none, and says whether it did: it did not where the
// list is longer than was seen.
fn list_all<B: HallName>(listed: &mut Prefix<B>, log_length: &LogLength<B>, desk: &Desk) -> bool
    requires { listed.old ≡ [] }
    ensures { IsTrue result → listed.new ≡ desk.now.history }
{
    let front = desk.front();
    let mut serial = 0;
    while serial < front {
        let Some(entry) = desk.entry(serial) else {
            return false;
        };
        if !listed.add(log_length, entry) {
            return false;
        }
        serial += 1;
    }
    true
}

// What is published at first: the board of the whole history.
fn first_board<B: HallName>(
    alloc: Global,
    desk: &Desk,
    prefix: &Prefix<B>,
) -> Result<PrefixBoard<B>, AllocError>
    requires { prefix.now ≡ desk.now.history }
    ensures { IfOk result (λ board. board ≡ desk.now.history) }
{
    let board = Board::of(alloc, desk.project())?;
    Ok(PrefixBoard::new(alloc, board, prefix.again()))
}

fn first_boards<B: HallName>(
    alloc: Global,
    desk: &Desk,
    prefix: &Prefix<B>,
) -> Result<(PrefixBoard<B>, PrefixBoard<B>), AllocError>
    requires { prefix.now ≡ desk.now.history }
    ensures { IfOk result
        (λ boards. (boards.0 ≡ desk.now.history) × (boards.1 ≡ desk.now.history)) }
{
    let first = first_board(alloc, desk, prefix)?;
    let Ok(second) = first_board(alloc, desk, prefix) else {
        drop(first);
        return Err(AllocError);
    };
    Ok((first, second))
}

// The history, published whole. Each exit gives what goes away to `drop`, by its type.
fn published_at_first<B: HallName, R: Wait + Drop>(
    alloc: Global,
    rt: R,
    desk: Desk,
    log: (LogLength<B>, Prefix<B>),
    seats: u32,
) -> Result<PublishedDesk<B, PrefixBoard<B>, R>, OpenFault>
    requires listed { log.1 ≡ desk.history }
    requires seats { 0 < seats }
    ensures published { IfOk result (λ d. (d.history ≡ desk.history) × (d.shown ≡ desk.history)
        × (d.waiting ≡ []) × (d.change ≡ None)) }
    ensures other { IfErr result (λ e. e ≡ OpenFault.NoMemory) }
{
    let Ok((first, second)) = first_boards(alloc, &desk, &log.1) else {
        drop(desk);
        return Err(OpenFault::NoMemory);
    };
    match PublishedDesk::new(alloc, rt, desk, log, first, second, seats as usize) {
        Ok(published) => Ok(published),
        Err(_) => Err(OpenFault::NoMemory),
    }
}

/// Opens a hall over a keeper's rows, which are the history, with so many seats, which have seen
/// them all (docs/RULES.md, "Histories that are shared"). The seats have lost nothing and were
/// refused nothing. The keys close it.
///
/// `KeeperFault` only where a call of the keeper failed. Where the rows are told, `RowRefused` only
/// where the rules do not accept that row, which is the first such one, and a hall only where they
/// accept each. `NoPlace` only where the count of `places` rose.
pub fn open_hall<K: Keeper, B: HallName, R: Wait + Drop>(
    alloc: Global,
    rt: R,
    named: NamedLog<B>,
    keeper: K,
    seats: u32,
    places: &mut Places,
) -> Result<(BoardHall<K, B, R>, Vec<BoardSeat<B>>, Keys<B>), OpenFault>
    requires { (0 < seats) × (seats ≤ 32) × (seats ≡ B.seats) }
    ensures seats { IfOk result (λ opened. length opened.1.items ≡ seats) }
    ensures nothing { IfOk result (λ opened. All HasLostNothing opened.1.items) }
    ensures seen { IfOk result (λ opened. IfSome (K.rows keeper)
        (λ all. All (IsNew all) opened.1.items × Legal all)) }
    ensures refused { IfErr result (λ e. Refuses (K.rows keeper) e) }
    ensures place { IsErrOf result OpenFault.NoPlace →
        HasRisen places.old.refused places.new.refused }
    ensures never { K.never_fails keeper → IsErrOf result OpenFault.KeeperFault → ⊥ }
{
    let mut keeper = keeper;
    let desk = read_rows(alloc, &mut keeper)?;
    let (log_length, mut seen, mut owed, mut rest) = named.into_parts();
    // The list is new, so that it takes all entries; no clause says so.
    if !list_all(&mut seen, &log_length, &desk) {
        drop(desk);
        return Err(OpenFault::NoMemory);
    }
    let keys = Keys::new(&mut rest, seats);
    let published = published_at_first(alloc, rt, desk, (log_length, seen), seats)?;
    let taken = match seats_at(alloc, &published, &mut owed, &mut rest, seats, places) {
        Ok(taken) => taken,
        Err(fault) => {
            drop(published);
            return Err(fault);
        }
    };
    let pen = Pen {
        desk: published,
        edit_log: EditLog::new(keeper, &mut rest),
        losses: LossTotal::new(owed),
    };
    let pen = Mutex::new(pen);
    Ok((Hall { pen }, taken, keys))
}

/// Takes the lock, hands the keeper back, and says whether its rows hold all that these seats have
/// seen. The hall has no keeper then. It takes no memory.
///
/// Where the keeper tells its rows, they are a legal history; false only where the refusals of one
/// of the seats rose. Where these are all seats of the hall, their losses together are at most the
/// keeper's count of faults.
pub fn close_hall<W: Wait, K: Keeper, B: HallName, S: ShowsBoard<B>, R: Wait + Drop>(
    rt: &W,
    hall: &Hall<K, B, S, R>,
    keys: Keys<B>,
    seats: &mut [Seat<B, S>],
) -> (K, bool)
    requires { B.parts ≡ B.seats * 2 + 1 }
    ensures { Closes (K.rows result.0) (K.faults result.0) B.seats result.1 seats.old seats.new }
{
    hall.pen.lock(rt).close(keys, seats)
}
