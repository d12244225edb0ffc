// Serving what a keeper keeps.
ghost use Rattle.std.specs.Prelude.{◌≡◌, ◌+◌, ◌*◌, OnErr, OnOk};
ghost use Rattle.outside.specs.Counts.{Counts, counts};
ghost use Rattle.sinks.specs.Streams.{WrotePrefix, WroteWhole, stream};
ghost use Rattle.hall_server.specs.Serving.{ServesTo, outside, serving_line};
ghost use Rattle.hall_server.specs.steps.Passing.{OpenServesTo};

use crate::fault::ServeFault;
use crate::workers::serve_all;
use gates::Gate;
use hall_core::{BoardHall, BoardSeat, HallName, NewLog, Places, open_hall};
use keeper_core::Keeper;
use sinks::{Sink, SinkFault};
use std::alloc::{AllocError, Global};
use std::marker::Brand;
use std::mem;
use std::sync::Wait;
use std::thread::Threads;
use web_heads::Access;

/// How many seats a hall that is served has.
const SEATS: u32 = 8;

/// What eight workers ask for: each a stack of 8 MiB, and 5 MiB for a connection.
const MEMORY_OF_WORKERS: usize = 8 * 13 * 1024 * 1024;

// Prints the line that tells that links are served.
#[tactic(auto, using(sinks::proofs::Writing::prefix_written, sinks::proofs::Writing::whole_written))]
fn print_serving<O: Sink>(out: &mut O) -> Result<(), SinkFault>
    ensures whole { OnOk result (WroteWhole (stream (O.written out.old) (O.written out.new)
        (counts (O.faults out.old) (O.faults out.new))) serving_line) }
    ensures part { OnErr result (WrotePrefix (stream (O.written out.old) (O.written out.new)
        (counts (O.faults out.old) (O.faults out.new))) serving_line) }
{
    out.write(b"serving\n")
}

// Asks once for the memory of eight workers, so that want of it is told before links are served.
fn ask_for_memory(alloc: Global) -> Result<(), AllocError> {
    let _memory: Vec<u8> = Vec::with_capacity(alloc, MEMORY_OF_WORKERS)?;
    Ok(())
}

// Prints that links are served, and serves them until the gate gives none. The seats stand to the
// end of the process.
fn serve_opened<
    W: Threads + Wait + Sync,
    K: Keeper + Send,
    B: HallName + Send + Sync,
    R: Wait + Drop + Send,
    G: Gate + Sync,
    O: Sink,
>(
    rt: &W,
    alloc: Global,
    hall: &BoardHall<K, B, R>,
    seats: Vec<BoardSeat<B>>,
    gate: &G,
    access: &Access,
    out: &mut O,
) -> Result<(), ServeFault>
    ensures { OpenServesTo (stream (O.written out.old) (O.written out.new)
        (counts (O.faults out.old) (O.faults out.new))) result }
{
    if ask_for_memory(alloc).is_err() {
        mem::forget(seats);
        return Err(ServeFault::NoMemory);
    }
    if print_serving(out).is_err() {
        mem::forget(seats);
        return Err(ServeFault::OutputFault);
    }
    match serve_all(rt, alloc, hall, seats, gate, access) {
        Ok(seats) => {
            mem::forget(seats);
            Ok(())
        }
        Err(AllocError) => Err(ServeFault::NoMemory),
    }
}

// Opens the hall under its name, and serves it. It stands to the end of the process.
fn serve_named<
    W: Threads + Wait + Sync,
    B: HallName + Send + Sync,
    K: Keeper + Send,
    G: Gate + Sync,
    O: Sink,
>(
    rt: &W,
    alloc: Global,
    log: NewLog,
    keeper: K,
    gate: &G,
    access: &Access,
    places: &mut Places,
    out: &mut O,
) -> Result<(), ServeFault>
    requires book { log.book ≡ B.book }
    requires ledger { (log.ledger ≡ B.name) × (log.parts ≡ B.parts) }
    requires seats { (B.parts ≡ B.seats * 2 + 1) × (B.seats ≡ 8) }
    ensures { (gate : Counts) → ServesTo (outside (K.never_fails keeper) (K.rows keeper)
        gate (counts places.old.refused places.new.refused))
        (stream (O.written out.old) (O.written out.new)
        (counts (O.faults out.old) (O.faults out.new))) result }
{
    match open_hall(alloc, rt, log.named::<B>(), keeper, SEATS, places) {
        Ok((hall, seats, _keys)) => {
            let served = serve_opened(rt, alloc, &hall, seats, gate, access, out);
            mem::forget(hall);
            served
        }
        Err(fault) => Err(ServeFault::from(fault)),
    }
}

/// Binds the gate to an address, attaches the keeper to a store, opens a hall of eight seats over
/// its rows, writes `serving` and LF to `out`, and then serves the links of the gate by eight
/// workers until it gives none to each (docs/RULES.md, "Serving"). The first fault that is met ends
/// it. `access` says which heads are let in, and as whom a message speaks.
///
/// `GateFault` only where the gate's count of faults rose, `NoPlace` only where that of `places`
/// did, and `OutputFault` only where that of `out` did; then a prefix of the line is out.
/// `KeeperFault` never comes of a keeper that never fails. Where the rows are told, `RowRefused`
/// only where the rules do not accept that row, which is the first such one, and links are served
/// only where they accept each. Without links served nothing is out. Before the line the memory of
/// eight workers was there once. The hall stands to the end of the process.
pub fn serve<W: Threads + Wait + Sync, G: Gate + Sync, K: Keeper + Send, O: Sink>(
    rt: &W,
    alloc: Global,
    address: &str,
    store: &str,
    access: &Access,
    gate: &mut G,
    keeper: K,
    places: &mut Places,
    out: &mut O,
) -> Result<(), ServeFault>
    ensures { ServesTo (outside (K.never_fails keeper) (K.rows keeper)
        (counts (G.faults gate.old) (G.faults gate.new))
        (counts places.old.refused places.new.refused))
        (stream (O.written out.old) (O.written out.new)
        (counts (O.faults out.old) (O.faults out.new))) result }
{
    gate.bind(address)?;
    let mut keeper = keeper;
    keeper.attach(store)?;
    let log = NewLog::new(SEATS);
    serve_named::<W, Brand, K, G, O>(rt, alloc, log, keeper, gate, access, places, out)
}
