//! `gafd netlist FILE...` prints the net list of gEDA schematics in the folder that it runs in and
//! of those below them, `gafd drc FILE...` what the check finds on them, and `gafd export FILE` the
//! canonical text of a schematic or of a symbol. `gafd table SHEET` prints the attributes of a
//! schematic as a table. `gafd renumber FILE...` gives numbers to components without one, in the
//! files, and `gafd fill SHEET TABLE` puts a table back. `gafd serve ADDRESS STORE` serves a
//! history of edits over HTTP, whose rows are in a folder or in a database, and `gafd store STORE
//! DB` copies one into a database. A symbol that is not in the folder comes from the folders that
//! the variable GAFD_SYMBOLS names.
//!
//! `gafd_run::run` is all of the program, over anything outside; `main` makes the real ones.
#![tactic(auto)]

use gafd_run::{report_want_of_memory, run};
use gates::TcpGate;
use hall_core::Places;
use project_files::DirFolder;
use sinks::StdSink;
use sql_file_keeper::SqlBatchKeeper;
use std::alloc::AllocError;
use std::env::VarError;
use std::process::ExitCode;
use std::rt::Env;
use std::{env, io};
use store_keeper::StoreKeeper;

/// The arguments after the program's name. Those that are not UTF-8 ask for no command, as none do.
fn arguments<R: Env + AllocGlobal>(rt: &R) -> io::Result<Vec<String>> {
    let mut list = Vec::new(rt.alloc());
    match env::args(rt) {
        Ok(arguments) => {
            for argument in arguments.skip(1) {
                list.push(argument)?;
            }
        }
        Err(fault) if fault.kind() == io::ErrorKind::InvalidData => {}
        Err(fault) => return Err(fault),
    }
    Ok(list)
}

/// The folders of symbols, parted by `:`, that a variable names. One that is not UTF-8 names none.
fn libraries<R: Env + AllocGlobal>(rt: &R) -> Result<String, AllocError> {
    match env::var(rt, "GAFD_SYMBOLS") {
        Ok(libraries) => Ok(libraries),
        Err(VarError::OutOfMemory) => Err(AllocError),
        Err(_) => Ok(String::new(rt.alloc())),
    }
}

fn main(rt: HostRuntime) -> ExitCode {
    let mut out = StdSink::new(rt.stdout());
    let mut err = StdSink::new(rt.stderr());
    let Ok(libraries) = libraries(&rt) else {
        return ExitCode::from(report_want_of_memory(&mut err));
    };
    let mut folder = DirFolder::new(&rt, libraries);
    let mut gate = TcpGate::new(&rt);
    let keeper = StoreKeeper::new(&rt);
    let mut database = SqlBatchKeeper::new(&rt);
    let mut places = Places::new();
    let status = match arguments(&rt) {
        Ok(arguments) => run(
            &rt,
            rt.alloc(),
            &arguments,
            &mut folder,
            &mut out,
            &mut err,
            &mut gate,
            keeper,
            &mut places,
            &mut database,
        ),
        Err(_) => report_want_of_memory(&mut err),
    };
    ExitCode::from(status)
}
