// Rows that are put on disks, one of which stops, and what is there when they are found again.
ghost use Rattle.std.specs.Prelude.{◌≡◌, None, false};

use crate::disks::{Stop, found_again, has_stopped, new_disks};
use case_tables::CaseFault;
use edit_entries::Entry;
use keeper_core::{KeepFault, Keeper};
use sqlite::{Connection, FileStore, Files, Options};
use sqlite_disk::Disk;
use sqlite_keeper::{SqlKeeper, TellsRows};
use std::alloc::Global;

/// A database over disks.
type Database<D> = Connection<FileStore<D>>;

/// What came of rows that were put.
#[derive(Clone, Copy, Debug)]
pub struct Outcome {
    /// How many were answered.
    pub answered: u32,
    /// How many are there again; none where another row is there, or the database does not open.
    pub found: Option<u32>,
    /// One of the disks stopped.
    pub has_stopped: bool,
}

fn open<D: Disk + Drop>(
    alloc: Global,
    disks: Files<D>,
    options: Options,
) -> Result<Database<D>, Files<D>> {
    if !disks.log.may_be_used() {
        return Err(disks);
    }
    if !disks.db.may_be_used() {
        return Err(disks);
    }
    match Connection::open_files(alloc, disks, options) {
        Ok(connection) => Ok(connection),
        Err((_, left)) => Err(left.into_files()),
    }
}

/// Puts rows into a keeper that tells none, up to the first that fails, and says how many were
/// answered.
fn put_rows<K: Keeper>(keeper: &mut K, rows: &[Entry]) -> u32
    requires { K.rows keeper.old ≡ None }
{
    if keeper.attach("").is_err() {
        return 0;
    }
    let mut serial = 0u32;
    for row in rows {
        match keeper.put(serial, row) {
            Ok(()) => serial = serial.saturating_add(1),
            Err(_) => return serial,
        }
    }
    serial
}

/// Whether this row was loaded, rather than nothing; none for another row and for a fault.
fn is_row(loaded: Result<Option<Entry>, KeepFault>, row: &Entry) -> Option<bool> {
    match loaded {
        Ok(Some(found)) => {
            let is_same = found == *row;
            drop(found);
            if is_same { Some(true) } else { None }
        }
        Ok(None) => Some(false),
        Err(_) => None,
    }
}

/// Whether no row was loaded, without a fault.
fn is_nothing(loaded: Result<Option<Entry>, KeepFault>) -> bool {
    match loaded {
        Ok(Some(found)) => {
            drop(found);
            false
        }
        Ok(None) => true,
        Err(_) => false,
    }
}

/// How many of the rows there are, from the first on; none where another one is there, too.
fn rows_in<K: Keeper>(keeper: &mut K, rows: &[Entry]) -> Option<u32> {
    let mut count = 0u32;
    let mut serial = 0u32;
    for row in rows {
        if is_row(keeper.load(serial), row)? {
            if serial != count {
                return None;
            }
            count = count.saturating_add(1);
        }
        serial = serial.saturating_add(1);
    }
    if is_nothing(keeper.load(serial)) {
        Some(count)
    } else {
        None
    }
}

/// The same of a keeper that has not taken its store yet.
fn rows_attached<K: Keeper>(keeper: &mut K, rows: &[Entry]) -> Option<u32> {
    match keeper.attach("") {
        Ok(()) => rows_in(keeper, rows),
        Err(_) => None,
    }
}

/// Puts rows into a database whose rows are not told, and says how many were answered.
fn put_into<S: TellsRows>(
    alloc: Global,
    database: Connection<S>,
    rows: &[Entry],
) -> (u32, Connection<S>)
    requires { S.tells ≡ false }
{
    let mut keeper = SqlKeeper::over(alloc, database);
    let answered = put_rows(&mut keeper, rows);
    (answered, keeper.into_connection())
}

/// How many of the rows a database has whose rows are not told.
fn found_in<S: TellsRows>(
    alloc: Global,
    database: Connection<S>,
    rows: &[Entry],
) -> (Option<u32>, Connection<S>)
    requires { S.tells ≡ false }
{
    let mut keeper = SqlKeeper::over(alloc, database);
    let found = rows_attached(&mut keeper, rows);
    (found, keeper.into_connection())
}

/// Hands the disks of a database back.
fn close<D: Disk + Drop>(database: Database<D>) -> Files<D> {
    database.into_store().close()
}

/// Puts rows into a new database, and says how many were answered.
fn put_on<D: Disk + Drop>(
    alloc: Global,
    disks: Files<D>,
    options: Options,
    rows: &[Entry],
) -> (u32, Files<D>) {
    match open(alloc, disks, options) {
        Ok(database) => {
            let (answered, database) = put_into(alloc, database, rows);
            (answered, close(database))
        }
        Err(disks) => (0, disks),
    }
}

/// How many of the rows there are on disks.
fn found_on<D: Disk + Drop>(
    alloc: Global,
    disks: Files<D>,
    options: Options,
    rows: &[Entry],
) -> Option<u32> {
    match open(alloc, disks, options) {
        Ok(database) => {
            let (found, database) = found_in(alloc, database, rows);
            drop(close(database));
            found
        }
        Err(disks) => {
            drop(disks);
            None
        }
    }
}

/// Puts rows into a new database on disks, one of which stops, and looks what is there again.
pub fn put_and_stop(
    alloc: Global,
    rows: &[Entry],
    options: Options,
    stop: Stop,
) -> Result<Outcome, CaseFault> {
    let (answered, mut disks) = put_on(alloc, new_disks(alloc, stop), options, rows);
    let has_stopped = has_stopped(&mut disks);
    let disks = found_again(alloc, disks, stop.is_lossy).ok_or(CaseFault::NoMemory)?;
    Ok(Outcome {
        answered,
        found: found_on(alloc, disks, options, rows),
        has_stopped,
    })
}
