// The whole program, over anything outside.
ghost use Rattle.std.specs.Prelude.{◌≡◌, List, Some, String};
ghost use Rattle.std.specs.declared.alloc.Global.{Global};
ghost use Rattle.geda_defs.specs.Contents.{Files};
ghost use Rattle.command_words.specs.Commands.{IsAskable, command_of};
ghost use Rattle.outside.specs.Counts.{counts};
ghost use Rattle.sinks.specs.Streams.{stream};
ghost use Rattle.hall_server.specs.Serving.{outside};
ghost use Rattle.store_copy.specs.Storing.{keepers};
ghost use Rattle.gafd_run.specs.Answers.{ComesTo, IsFixed, Outcome};
ghost use Rattle.gafd_run.specs.Endings.{Completes, KeepsUnlessStoring, RunEnds};
ghost use Rattle.gafd_run.specs.Runs.{Ends, EndsWith, KeepsUnless};
ghost use Rattle.gafd_run.specs.Writing.{folder_run};
ghost use Rattle.gafd_run.specs.steps.Passing.{IsOnFiles};

use crate::answer::{Answer, answer_of};
use crate::delivery::deliver;
use crate::error_lines::report;
use crate::fault::RunFault;
use crate::served::served;
use crate::stored::stored;
use command_words::{Command, command_of};
use gates::Gate;
use hall_core::Places;
use keeper_core::Keeper;
use project_files::Folder;
use sinks::Sink;
use std::alloc::Global;
use std::sync::Wait;
use std::thread::Threads;

/// Does what a command on files asks for. Nothing is written and nothing goes out before all is
/// computed.
fn answered<F: Folder, O: Sink>(
    alloc: Global,
    command: Command,
    folder: &mut F,
    out: &mut O,
) -> Result<Answer, RunFault>
    requires askable { IsAskable command }
    requires on_files { IsOnFiles command }
    ensures { EndsWith (folder_run (F.files folder.old) (F.files folder.new)
        (counts (F.faults folder.old) (F.faults folder.new)))
        (Some command)
        (stream (O.written out.old) (O.written out.new)
        (counts (O.faults out.old) (O.faults out.new)))
        result }
{
    let answer = answer_of(alloc, command, folder)?;
    deliver(alloc, &answer, folder, out)?;
    Ok(answer)
}

/// Does what a command on files asks for, and answers the status with which that ends. For a fault
/// its line goes to `err`.
#[tactic(auto, using(crate::proofs::Passing::end_reported, crate::proofs::ReadingLemmas::kept_unless))]
fn ended<F: Folder, O: Sink, E: Sink>(
    alloc: Global,
    command: Command,
    folder: &mut F,
    out: &mut O,
    err: &mut E,
) -> u8
    requires askable { IsAskable command }
    requires on_files { IsOnFiles command }
    ensures end { Ends (folder_run (F.files folder.old) (F.files folder.new)
        (counts (F.faults folder.old) (F.faults folder.new)))
        (Some command)
        (stream (O.written out.old) (O.written out.new)
        (counts (O.faults out.old) (O.faults out.new)))
        (stream (E.written err.old) (E.written err.new)
        (counts (E.faults err.old) (E.faults err.new)))
        result }
    ensures files { KeepsUnless (Some command) (F.files folder.old) (F.files folder.new) }
{
    match answered(alloc, command, folder, out) {
        Ok(answer) => answer.status,
        Err(fault) => report(alloc, &fault, err),
    }
}

/// Does what the arguments ask for, and answers the status with which that ends.
fn run_command<
    W: Threads + Wait + Sync,
    F: Folder,
    O: Sink,
    E: Sink,
    G: Gate + Sync,
    K: Keeper + Send,
    D: Keeper,
>(
    rt: &W,
    alloc: Global,
    arguments: &[String],
    folder: &mut F,
    out: &mut O,
    err: &mut E,
    gate: &mut G,
    keeper: K,
    places: &mut Places,
    database: &mut D,
) -> u8
    ensures end { RunEnds (outside (K.never_fails keeper) (K.rows keeper)
        (counts (G.faults gate.old) (G.faults gate.new))
        (counts places.old.refused places.new.refused))
        (keepers (K.never_fails keeper) (D.never_fails database.old)
        (K.rows keeper) (D.rows database.old) (D.rows database.new))
        (folder_run (F.files folder.old) (F.files folder.new)
        (counts (F.faults folder.old) (F.faults folder.new)))
        (command_of arguments.now)
        (stream (O.written out.old) (O.written out.new)
        (counts (O.faults out.old) (O.faults out.new)))
        (stream (E.written err.old) (E.written err.new)
        (counts (E.faults err.old) (E.faults err.new)))
        result }
    ensures files { KeepsUnless (command_of arguments.now)
        (F.files folder.old) (F.files folder.new) }
    ensures database { KeepsUnlessStoring (command_of arguments.now)
        (D.rows database.old) (D.rows database.new) }
{
    let command = match command_of(alloc, arguments) {
        Ok(command) => command,
        Err(fault) => return report(alloc, &RunFault::from(fault), err),
    };
    match command {
        Command::Serve {
            address,
            store,
            access,
        } => {
            served(
                rt, alloc, address, store, &access, out, err, gate, keeper, places,
            )
        }
        Command::Store {
            store,
            database: name,
        } => { stored(alloc, store, name, out, err, keeper, database) }
        command => ended(alloc, command, folder, out, err),
    }
}

/// All of the program: does what the arguments ask for, and answers the status with which it ends
/// (docs/FORMATS.md, "Command lines" and "Statuses").
///
/// For each fault one line goes to `err`; a failing `err` changes no status. Of a command on files
/// nothing is written and nothing goes to `out` before all is computed, and nothing goes to `out`
/// before all files are written. `serve` binds the gate, opens a hall over the keeper, and prints
/// its line before it serves. `store` copies what one keeper keeps into `database`, which then has
/// all of it, and prints how many rows that were; for other commands the rows of `database` stay.
/// All files stay, but those that `renumber` and `fill` write.
pub fn run<
    W: Threads + Wait + Sync,
    F: Folder,
    O: Sink,
    E: Sink,
    G: Gate + Sync,
    K: Keeper + Send,
    D: Keeper,
>(
    rt: &W,
    alloc: Global,
    arguments: &[String],
    folder: &mut F,
    out: &mut O,
    err: &mut E,
    gate: &mut G,
    keeper: K,
    places: &mut Places,
    database: &mut D,
) -> u8
    // The arguments come to an answer, whose files are written and whose text is out, or to a
    // fault; or links were served; or the folder, the output, the gate, the keeper or a place
    // failed; or memory ran out. The line and the status are those of what comes.
    ensures end { RunEnds (outside (K.never_fails keeper) (K.rows keeper)
        (counts (G.faults gate.old) (G.faults gate.new))
        (counts places.old.refused places.new.refused))
        (keepers (K.never_fails keeper) (D.never_fails database.old)
        (K.rows keeper) (D.rows database.old) (D.rows database.new))
        (folder_run (F.files folder.old) (F.files folder.new)
        (counts (F.faults folder.old) (F.faults folder.new)))
        (command_of arguments.now)
        (stream (O.written out.old) (O.written out.new)
        (counts (O.faults out.old) (O.faults out.new)))
        (stream (E.written err.old) (E.written err.new)
        (counts (E.faults err.old) (E.faults err.new)))
        result }
    ensures files { KeepsUnless (command_of arguments.now)
        (F.files folder.old) (F.files folder.new) }
    ensures database { KeepsUnlessStoring (command_of arguments.now)
        (D.rows database.old) (D.rows database.new) }
    // Where the arguments come to no fault and nothing outside failed, the status is 0, or 7 of a
    // check, or 6 of a serving over rows that are not accepted, or 71.
    ensures complete { Completes (outside (K.never_fails keeper) (K.rows keeper)
        (counts (G.faults gate.old) (G.faults gate.new))
        (counts places.old.refused places.new.refused))
        (keepers (K.never_fails keeper) (D.never_fails database.old)
        (K.rows keeper) (D.rows database.old) (D.rows database.new))
        (folder_run (F.files folder.old) (F.files folder.new)
        (counts (F.faults folder.old) (F.faults folder.new)))
        (command_of arguments.now)
        (stream (O.written out.old) (O.written out.new)
        (counts (O.faults out.old) (O.faults out.new)))
        result }
{
    run_command(
        rt, alloc, arguments, folder, out, err, gate, keeper, places, database,
    )
}

/// The law that arguments come to one outcome over files, where they don't ask for the work: its
/// text tells how many steps the groups of a board took, of which the bound alone is fixed.
pub fn one_outcome()
    ensures { (files : Files) (arguments : List (String Global)) (first second : Outcome) →
        IsFixed (command_of arguments) →
        ComesTo (Some files) (command_of arguments) first →
        ComesTo (Some files) (command_of arguments) second → first ≡ second }
{}
