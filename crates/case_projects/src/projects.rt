// Folders and projects of the files of a table.
ghost use Rattle.std.specs.Prelude.{◌≢◌, AllPairs};

use case_tables::{CaseFault, TableFiles, arguments_of, name_of};
use command_words::{Command, command_of};
use geda_model::{Items, Name};
use project_files::{MemoryFolder, project_of};
use project_model::Project;
use std::alloc::Global;
use std::collections::BTreeMap;

fn put_copies(
    alloc: Global,
    from: &BTreeMap<String, Vec<u8>>,
    to: &mut BTreeMap<Name, Vec<u8>>,
) -> Result<(), CaseFault> {
    for (name, bytes) in from {
        let name = name_of(alloc, name.as_str())?;
        to.insert(name, bytes.as_slice().to_vec(alloc)?)?;
    }
    Ok(())
}

/// A folder with copies of the files, whose calls with these numbers fail.
pub fn folder_of(
    alloc: Global,
    files: &TableFiles,
    failing: Vec<u64>,
) -> Result<MemoryFolder, CaseFault> {
    let mut copies = BTreeMap::new(alloc);
    put_copies(alloc, files.shared(), &mut copies)?;
    put_copies(alloc, files.own(), &mut copies)?;
    Ok(MemoryFolder::new(copies, failing))
}

fn gathered(alloc: Global, sheets: Items<Name>, files: &TableFiles) -> Result<Project, CaseFault>
    requires { AllPairs ◌≢◌ sheets }
{
    let mut folder = folder_of(alloc, files, Vec::new(alloc))?;
    match project_of(alloc, sheets.as_slice(), &mut folder) {
        Ok(project) => Ok(project),
        Err(_) => Err(CaseFault::BadCase),
    }
}

/// The project of the sheets that words name.
pub fn project_in(alloc: Global, words: &str, files: &TableFiles) -> Result<Project, CaseFault> {
    let words = format!(in alloc; "netlist {words}")?;
    let arguments = arguments_of(alloc, words.as_str())?;
    match command_of(alloc, &arguments) {
        Ok(Command::Netlist { sheets, .. }) => gathered(alloc, sheets, files),
        _ => Err(CaseFault::BadCase),
    }
}
