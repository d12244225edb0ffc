// The copying of a store into a database.
ghost use Rattle.std.specs.Prelude.{◌≡◌, ◌++◌, IfOk, codes, string_bytes};
ghost use Rattle.std.specs.Fmt.{decimal};
ghost use Rattle.outside.specs.Counts.{counts};
ghost use Rattle.sinks.specs.Streams.{stream};
ghost use Rattle.store_copy.specs.Storing.{StoresTo, keepers, stored_line};
ghost use Rattle.store_copy.specs.steps.Copying.{CopiesTo, Tells};

use crate::copying::store_rows;
use crate::storing_fault::StoringFault;
use keeper_core::Keeper;
use sinks::Sink;
use std::alloc::{AllocError, Global};

/// The line that tells how many rows were put.
fn line_of(alloc: Global, count: u32) -> Result<String, AllocError>
    ensures { IfOk result (λ line. string_bytes line ≡ stored_line count) }
{
    format!(in alloc; "stored {count}\n")
}

/// Copies the rows, and says how many were put.
fn copied<K: Keeper, D: Keeper>(
    alloc: Global,
    keeper: &mut K,
    database: &mut D,
) -> Result<u32, StoringFault>
    ensures { CopiesTo (keepers (K.never_fails keeper.old) (D.never_fails database.old)
        (K.rows keeper.old) (D.rows database.old) (D.rows database.new)) result }
{
    match store_rows(alloc, keeper, database) {
        Ok(count) => Ok(count),
        Err(fault) => Err(StoringFault::from(fault)),
    }
}

/// Tells how many rows were put.
fn told<O: Sink>(alloc: Global, count: u32, out: &mut O) -> Result<(), StoringFault>
    ensures { Tells (stream (O.written out.old) (O.written out.new)
        (counts (O.faults out.old) (O.faults out.new))) count result }
{
    let line = line_of(alloc, count)?;
    out.write(line.as_bytes())?;
    Ok(())
}

/// Copies the rows of a keeper into another, both with their stores, and tells how many were put.
fn store_attached<K: Keeper, D: Keeper, O: Sink>(
    alloc: Global,
    keeper: K,
    database: &mut D,
    out: &mut O,
) -> Result<(), StoringFault>
    ensures { StoresTo (keepers (K.never_fails keeper) (D.never_fails database.old)
        (K.rows keeper) (D.rows database.old) (D.rows database.new))
        (stream (O.written out.old) (O.written out.new)
        (counts (O.faults out.old) (O.faults out.new))) result }
{
    let mut keeper = keeper;
    match copied(alloc, &mut keeper, database) {
        Ok(count) => told(alloc, count, out),
        Err(fault) => Err(fault),
    }
}

/// Takes the database, and copies the rows of a keeper with its store into it.
fn store_into<K: Keeper, D: Keeper, O: Sink>(
    alloc: Global,
    name: &str,
    keeper: K,
    database: &mut D,
    out: &mut O,
) -> Result<(), StoringFault>
    ensures { StoresTo (keepers (K.never_fails keeper) (D.never_fails database.old)
        (K.rows keeper) (D.rows database.old) (D.rows database.new))
        (stream (O.written out.old) (O.written out.new)
        (counts (O.faults out.old) (O.faults out.new))) result }
{
    match database.attach(name) {
        Ok(()) => store_attached(alloc, keeper, database, out),
        Err(fault) => Err(StoringFault::from(fault)),
    }
}

/// Attaches a keeper to a store and another to a database, puts the rows of the first that the
/// other does not have into it, and writes `stored N` and LF to `out`, N the number of rows that
/// were put. The database then has all rows of the store. The first fault that is met ends it.
///
/// `KeeperFault` never comes of two keepers that never fail. Where the rows are told, `RowRefused`
/// only where the rules do not accept that row of the store, which is the first such one, and
/// `RowDiffers` only where they accept each, and the database has a row at that serial, where the
/// store has none or another one; it is the first such one; then nothing was put. `OutputFault`
/// only where the count of `out` rose; then all rows are put, and a prefix of the line is out.
/// After `KeeperFault` and `NoMemory` the database has the first of the rows.
pub fn store<K: Keeper, D: Keeper, O: Sink>(
    alloc: Global,
    store_name: &str,
    database_name: &str,
    keeper: K,
    database: &mut D,
    out: &mut O,
) -> Result<(), StoringFault>
    ensures { StoresTo (keepers (K.never_fails keeper) (D.never_fails database.old)
        (K.rows keeper) (D.rows database.old) (D.rows database.new))
        (stream (O.written out.old) (O.written out.new)
        (counts (O.faults out.old) (O.faults out.new))) result }
{
    let mut keeper = keeper;
    match keeper.attach(store_name) {
        Ok(()) => store_into(alloc, database_name, keeper, database, out),
        Err(fault) => Err(StoringFault::from(fault)),
    }
}
