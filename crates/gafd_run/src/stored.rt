// The copying of a store into a database.
ghost use Rattle.outside.specs.Counts.{counts};
ghost use Rattle.sinks.specs.Streams.{stream};
ghost use Rattle.store_copy.specs.Storing.{keepers};
ghost use Rattle.gafd_run.specs.Endings.{StoringEnds};

use crate::error_lines::report;
use crate::fault::RunFault;
use command_words::Argument;
use keeper_core::Keeper;
use sinks::Sink;
use std::alloc::Global;
use store_copy::store as copy_store;

/// Copies a store into a database, and answers the status with which that ends. For a fault its
/// line goes to `err`.
#[tactic(auto, using(crate::proofs::StoringLemmas::storing_reported))]
pub fn stored<O: Sink, E: Sink, K: Keeper, D: Keeper>(
    alloc: Global,
    store: Argument,
    database_name: Argument,
    out: &mut O,
    err: &mut E,
    keeper: K,
    database: &mut D,
) -> u8
    ensures { StoringEnds (keepers (K.never_fails keeper) (D.never_fails database.old)
        (K.rows keeper) (D.rows database.old) (D.rows database.new))
        (stream (O.written out.old) (O.written out.new)
        (counts (O.faults out.old) (O.faults out.new)))
        (stream (E.written err.old) (E.written err.new)
        (counts (E.faults err.old) (E.faults err.new)))
        result }
{
    match copy_store(
        alloc,
        store.as_str(),
        database_name.as_str(),
        keeper,
        database,
        out,
    ) {
        Ok(()) => 0,
        Err(fault) => report(alloc, &RunFault::from(fault), err),
    }
}
