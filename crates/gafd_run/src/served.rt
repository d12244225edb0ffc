// The serving of a store at an address.
ghost use Rattle.outside.specs.Counts.{counts};
ghost use Rattle.sinks.specs.Streams.{stream};
ghost use Rattle.hall_server.specs.Serving.{outside};
ghost use Rattle.gafd_run.specs.Endings.{ServingEnds};

use crate::error_lines::report;
use crate::fault::RunFault;
use command_words::Argument;
use gates::Gate;
use hall_core::Places;
use hall_server::serve;
use keeper_core::Keeper;
use sinks::Sink;
use std::alloc::Global;
use std::sync::Wait;
use std::thread::Threads;
use web_heads::Access;

/// Serves, and answers the status with which that ends. For a fault its line goes to `err`.
#[tactic(auto, using(crate::proofs::ServingLemmas::serving_reported))]
pub fn served<W: Threads + Wait + Sync, O: Sink, E: Sink, G: Gate + Sync, K: Keeper + Send>(
    rt: &W,
    alloc: Global,
    address: Argument,
    store: Argument,
    access: &Access,
    out: &mut O,
    err: &mut E,
    gate: &mut G,
    keeper: K,
    places: &mut Places,
) -> u8
    ensures { ServingEnds (outside (K.never_fails keeper) (K.rows keeper)
        (counts (G.faults gate.old) (G.faults gate.new))
        (counts places.old.refused places.new.refused))
        (stream (O.written out.old) (O.written out.new)
        (counts (O.faults out.old) (O.faults out.new)))
        (stream (E.written err.old) (E.written err.new)
        (counts (E.faults err.old) (E.faults err.new)))
        result }
{
    match serve(
        rt,
        alloc,
        address.as_str(),
        store.as_str(),
        access,
        gate,
        keeper,
        places,
        out,
    ) {
        Ok(()) => 0,
        Err(fault) => report(alloc, &RunFault::from(fault), err),
    }
}
