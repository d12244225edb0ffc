// Runs of the program that write files, and what they write.
use crate::programs::{put_lines, ran_lines, ran_text, run_in};
use case_projects::folder_of;
use case_tables::{CaseFault, TableFiles, arguments_of, cell, failing_calls, text_in, text_of};
use project_files::MemoryFolder;
use std::alloc::{AllocError, Global};
use std::collections::BTreeMap;
use std::sync::Wait;
use std::thread::Threads;
use std::time::Clock;

/// Files by name, as they were before a run.
type Before = BTreeMap<String, Vec<u8>>;

fn put_copies(alloc: Global, from: &Before, to: &mut Before) -> Result<(), AllocError> {
    for (name, bytes) in from {
        let name = String::from_str(alloc, name.as_str())?;
        to.insert(name, bytes.as_slice().to_vec(alloc)?)?;
    }
    Ok(())
}

fn files_of(alloc: Global, files: &TableFiles) -> Result<Before, AllocError> {
    let mut copies = BTreeMap::new(alloc);
    put_copies(alloc, files.shared(), &mut copies)?;
    put_copies(alloc, files.own(), &mut copies)?;
    Ok(copies)
}

/// The files of these names as a folder has them now.
fn files_now(alloc: Global, before: &Before, folder: &MemoryFolder) -> Result<Before, AllocError> {
    let mut copies = BTreeMap::new(alloc);
    for (name, _) in before {
        if let Some(bytes) = folder.file(name.as_str()) {
            let name = String::from_str(alloc, name.as_str())?;
            copies.insert(name, bytes.to_vec(alloc)?)?;
        }
    }
    Ok(copies)
}

/// The bytes of a file that is not as it was.
fn changed<'a>(name: &str, bytes: &[u8], folder: &'a MemoryFolder) -> Option<&'a [u8]> {
    match folder.file(name) {
        Some(now) if now != bytes => Some(now),
        _ => None,
    }
}

/// Puts the names of the files that are not as they were behind a text.
fn put_names(to: &mut String, before: &Before, folder: &MemoryFolder) -> Result<(), AllocError> {
    let mut is_first = true;
    for (name, bytes) in before {
        if changed(name.as_str(), bytes, folder).is_some() {
            if is_first {
                to.push_str(" *")?;
            }
            is_first = false;
            write!(to, " {}", name.as_str())?;
        }
    }
    Ok(())
}

/// Puts the lines of these files behind a text, each behind the name of its file.
fn put_contents(
    alloc: Global,
    to: &mut String,
    before: &Before,
    folder: &MemoryFolder,
) -> Result<(), CaseFault> {
    for (name, bytes) in before {
        if let Some(now) = changed(name.as_str(), bytes, folder) {
            let mark = format!(in alloc; "> {}:", name.as_str())?;
            put_lines(to, mark.as_str(), text_in(alloc, now)?.as_str())?;
        }
    }
    Ok(())
}

fn rewritten_in<W: Threads + Wait + Clock + Sync>(
    rt: &W,
    alloc: Global,
    cells: &[&str],
    files: &TableFiles,
    folder: &mut MemoryFolder,
) -> Result<String, CaseFault> {
    let words = text_of(alloc, cell(cells, 0))?;
    let arguments = arguments_of(alloc, words.as_str())?;
    let ran = run_in(rt, alloc, &arguments, folder, cell(cells, 1))?;
    let mut text = ran_text(alloc, &ran)?;
    put_names(&mut text, &files_of(alloc, files)?, folder)?;
    Ok(text)
}

/// What a command comes to, as `command` tells it, and the names of the files that it writes after
/// `*`.
pub fn rewritten<W: Threads + Wait + Clock + Sync>(
    rt: &W,
    alloc: Global,
    cells: &[&str],
    files: &TableFiles,
) -> Result<String, CaseFault> {
    let calls = failing_calls(alloc, cell(cells, 1), "folder")?;
    let mut folder = folder_of(alloc, files, calls)?;
    let text = rewritten_in(rt, alloc, cells, files, &mut folder);
    drop(folder);
    text
}

fn put_run<W: Threads + Wait + Clock + Sync>(
    rt: &W,
    alloc: Global,
    to: &mut String,
    words: &str,
    before: &Before,
    folder: &mut MemoryFolder,
) -> Result<(), CaseFault> {
    let arguments = arguments_of(alloc, words)?;
    let ran = run_in(rt, alloc, &arguments, folder, "")?;
    to.push_str(ran_lines(alloc, &ran)?.as_str())?;
    put_contents(alloc, to, before, folder)
}

fn contents_in<W: Threads + Wait + Clock + Sync>(
    rt: &W,
    alloc: Global,
    words: &str,
    files: &TableFiles,
    folder: &mut MemoryFolder,
) -> Result<String, CaseFault> {
    let mut before = files_of(alloc, files)?;
    let mut text = String::new(alloc);
    for command in words.split(" then ") {
        put_run(rt, alloc, &mut text, command, &before, folder)?;
        before = files_now(alloc, &before, folder)?;
    }
    Ok(text)
}

/// The output of each command of a question, its errors and its status, and then the lines of the
/// files that it writes. ` then ` parts the commands, which run in one folder.
pub fn contents<W: Threads + Wait + Clock + Sync>(
    rt: &W,
    alloc: Global,
    words: &str,
    files: &TableFiles,
) -> Result<String, CaseFault> {
    let mut folder = folder_of(alloc, files, Vec::new(alloc))?;
    let text = contents_in(rt, alloc, words, files, &mut folder);
    drop(folder);
    text
}
