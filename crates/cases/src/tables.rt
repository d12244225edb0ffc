// What there is to tell of a table, by the crate that its folder stands for.
use crate::answers;
use std::alloc::{AllocError, Global};
use std::rt::Files;
use std::sync::Wait;
use std::thread::Threads;
use std::time::Clock;
use std::{fs, io};

/// The files that all tables of the folder at a path share, as the text of its file of this name.
fn shared_in<R: Files + AllocGlobal>(rt: &R, path: &str, name: &str) -> io::Result<String> {
    let file = format!(in rt.alloc(); "{path}/{name}")?;
    fs::read_to_string(rt, file.as_str())
}

fn no_tables(alloc: Global, folder: &str) -> Result<io::Error, AllocError> {
    let words = format!(in alloc; "no tables in {folder}/")?;
    Ok(io::Error::new(io::ErrorKind::InvalidInput, words.as_str()))
}

/// What there is to tell of a table of the folder at a path. Another folder is an error.
fn report_of<R: Files + AllocGlobal + Threads + Wait + Clock + Sync>(
    rt: &R,
    path: &str,
    name: &str,
    text: &str,
) -> io::Result<String> {
    let alloc = rt.alloc();
    let (_, folder) = path.rsplit_once('/').unwrap_or(("", path));
    match folder {
        "programs" => {
            let shared = shared_in(rt, path, "symbols.txt")?;
            Ok(answers::table_report(rt, alloc, shared.as_str(), name, text)?)
        }
        "files" => Ok(file_cases::table_report(alloc, name, text)?),
        "edits" => Ok(edit_cases::table_report(alloc, name, text)?),
        "halls" => Ok(hall_cases::table_report(rt, alloc, name, text)?),
        "projects" => {
            let shared = shared_in(rt, path, "parts.txt")?;
            Ok(project_cases::table_report(alloc, shared.as_str(), name, text)?)
        }
        "disks" => Ok(disk_cases::table_report(alloc, name, text)?),
        "databases" => Ok(database_cases::table_report(alloc, name, text)?),
        "database_halls" => Ok(database_halls::table_report(rt, alloc, name, text)?),
        _ => Err(no_tables(alloc, folder)?),
    }
}

/// What there is to tell of the table at a path, as `edits/entries.txt`, under this path. `rt` is
/// what reads files, and what threads are made of and wait by.
pub fn report_at<R: Files + AllocGlobal + Threads + Wait + Clock + Sync>(
    rt: &R,
    path: &str,
) -> io::Result<String> {
    let (above, _) = path.rsplit_once('/').unwrap_or((".", path));
    let text = fs::read_to_string(rt, path)?;
    report_of(rt, above, path, text.as_str())
}
