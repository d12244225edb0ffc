// The whole program over what is in memory.
use crate::case_words::{ServingCase, held_call_of};
use case_tables::{CaseFault, TableFiles, arguments_of, failing_calls};
use edit_entries::Entry;
use gafd_run::{MemorySink, run};
use gates::MemoryGate;
use hall_core::Places;
use http_lines::entries_of;
use keeper_core::MemoryKeeper;
use project_files::MemoryFolder;
use scripted_edges::{
    HeldCall, HeldKeeper, NotedGate, Progress, SharedLink, Traces, counted_name, name_count,
    script_of,
};
use std::alloc::Global;
use std::collections::BTreeMap;
use std::sync::{Mutex, Wait};
use std::thread::Threads;
use std::time::Clock;

/// Where steps are not counted.
const NO_PLACE: usize = usize::MAX;

/// How many bytes an output of a serving takes.
const ROOM: usize = 1_000;

/// The outputs of a run.
#[derive(Drop)]
pub struct Outputs {
    /// What goes out.
    pub out: MemorySink,
    /// What goes to the errors.
    pub err: MemorySink,
}

/// What a run comes to.
#[derive(Drop)]
pub struct Ran {
    /// Its status.
    pub status: u8,
    /// What went out, and to the errors.
    pub outputs: Outputs,
    /// What its connections wrote.
    pub traces: Mutex<Traces>,
}

/// What a serving begins with, but its connections.
#[derive(Drop)]
struct Start {
    keeper: MemoryKeeper,
    database: MemoryKeeper,
    failing_binds: Vec<u64>,
    held: Option<HeldCall>,
}

/// Empty outputs that take so many bytes each, of which the calls fail that a case names.
pub fn outputs_of(alloc: Global, room: usize, failing: &str) -> Result<Outputs, CaseFault> {
    let out = failing_calls(alloc, failing, "out")?;
    let err = failing_calls(alloc, failing, "err")?;
    Ok(Outputs {
        out: MemorySink::new(alloc, room, out)?,
        err: MemorySink::new(alloc, room, err)?,
    })
}

/// The rows of the file of this name; none where there is no name.
fn rows_of(alloc: Global, name: &str, files: &TableFiles) -> Result<Vec<Entry>, CaseFault> {
    if name.is_empty() {
        return Ok(Vec::new(alloc));
    }
    entries_of(alloc, name, files)
}

fn start_of(alloc: Global, case: &ServingCase<'_>, files: &TableFiles) -> Result<Start, CaseFault> {
    let held = held_call_of(case.links, case.held)?;
    Ok(Start {
        keeper: MemoryKeeper::new(
            rows_of(alloc, case.rows, files)?,
            failing_calls(alloc, case.failing, "keeper")?,
        ),
        database: MemoryKeeper::new(
            rows_of(alloc, case.database, files)?,
            failing_calls(alloc, case.failing, "database")?,
        ),
        failing_binds: failing_calls(alloc, case.failing, "gate")?,
        held,
    })
}

/// The connections of a case, in their order.
fn links_of<'a, W: Wait + Clock>(
    rt: &'a W,
    alloc: Global,
    names: &str,
    files: &TableFiles,
    traces: &'a Mutex<Traces>,
) -> Result<Vec<SharedLink<'a, W>>, CaseFault> {
    let mut links = Vec::new(alloc);
    let mut place = 0usize;
    for word in names.split_whitespace() {
        let (count, name) = counted_name(word)?;
        for _ in 0..count {
            let script = script_of(alloc, names, name, files)?;
            links.push(SharedLink::new(Progress::new(rt, traces), place, script))?;
            place = place.saturating_add(1);
        }
    }
    Ok(links)
}

/// What a run has beside its folder and its outputs: a gate, the keeper of its store and that of
/// its database.
#[derive(Drop)]
struct Wires<'a, W: Wait + Clock> {
    gate: NotedGate<'a, SharedLink<'a, W>, W>,
    keeper: HeldKeeper<'a, W>,
    database: HeldKeeper<'a, W>,
}

/// What a run has, with these connections, and with a keeper whose steps stand at a place.
fn wires_of<'a, W: Wait + Clock>(
    rt: &'a W,
    start: Start,
    links: Vec<SharedLink<'a, W>>,
    traces: &'a Mutex<Traces>,
    place: usize,
) -> Wires<'a, W> {
    let Start {
        keeper,
        database,
        failing_binds,
        held,
    } = start;
    let gate = MemoryGate::new(rt, links, failing_binds);
    let progress = Progress::new(rt, traces);
    Wires {
        gate: NotedGate::new(gate, Progress::new(rt, traces)),
        keeper: HeldKeeper::new("keeper", keeper, Progress::new(rt, traces), place, held),
        database: HeldKeeper::new("database", database, progress, NO_PLACE, None),
    }
}

/// Runs the program, and answers its status. Nothing in it can fail, and what goes away is given to
/// `drop`, which is proved once for a type.
fn run_with<W: Threads + Wait + Clock + Sync>(
    rt: &W,
    alloc: Global,
    arguments: &[String],
    folder: &mut MemoryFolder,
    outputs: &mut Outputs,
    wires: Wires<'_, W>,
) -> u8 {
    let Wires {
        mut gate,
        keeper,
        mut database,
    } = wires;
    let mut places = Places::new();
    let status = run(
        rt,
        alloc,
        arguments,
        folder,
        &mut outputs.out,
        &mut outputs.err,
        &mut gate,
        keeper,
        &mut places,
        &mut database,
    );
    drop(gate);
    drop(database);
    drop(places);
    status
}

/// Runs the program in a folder, and answers its status. A serving would find no connections and no
/// rows.
pub fn status_in<W: Threads + Wait + Clock + Sync>(
    rt: &W,
    alloc: Global,
    arguments: &[String],
    folder: &mut MemoryFolder,
    outputs: &mut Outputs,
) -> Result<u8, CaseFault> {
    let traces = traces_of(alloc, "")?;
    let start = Start {
        keeper: MemoryKeeper::new(Vec::new(alloc), Vec::new(alloc)),
        database: MemoryKeeper::new(Vec::new(alloc), Vec::new(alloc)),
        failing_binds: Vec::new(alloc),
        held: None,
    };
    let wires = wires_of(rt, start, Vec::new(alloc), &traces, 0);
    Ok(run_with(rt, alloc, arguments, folder, outputs, wires))
}

/// Runs a case, and answers its status. What its connections write is in the traces then.
fn status_of<W: Threads + Wait + Clock + Sync>(
    rt: &W,
    alloc: Global,
    case: &ServingCase<'_>,
    files: &TableFiles,
    outputs: &mut Outputs,
    traces: &Mutex<Traces>,
) -> Result<u8, CaseFault> {
    let arguments = arguments_of(alloc, case.words)?;
    let start = start_of(alloc, case, files)?;
    let links = links_of(rt, alloc, case.links, files, traces)?;
    let wires = wires_of(rt, start, links, traces, name_count(case.links)?);
    let mut folder = MemoryFolder::new(BTreeMap::new(alloc), Vec::new(alloc));
    let status = run_with(rt, alloc, &arguments, &mut folder, outputs, wires);
    drop(folder);
    Ok(status)
}

/// The traces of the connections of these names, and of the keeper.
fn traces_of(alloc: Global, names: &str) -> Result<Mutex<Traces>, CaseFault> {
    let places = name_count(names)?.saturating_add(1);
    Ok(Mutex::new(Traces::new(alloc, places)?))
}

/// What a case comes to.
pub fn run_case<W: Threads + Wait + Clock + Sync>(
    rt: &W,
    alloc: Global,
    case: &ServingCase<'_>,
    files: &TableFiles,
) -> Result<Ran, CaseFault> {
    let traces = traces_of(alloc, case.links)?;
    let mut outputs = outputs_of(alloc, ROOM, case.failing)?;
    let status = status_of(rt, alloc, case, files, &mut outputs, &traces)?;
    Ok(Ran {
        status,
        outputs,
        traces,
    })
}
