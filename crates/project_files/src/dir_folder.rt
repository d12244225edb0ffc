// The folder that the program runs in, and the folders of symbols behind it. It tells no contents.
ghost use Rattle.std.specs.Prelude.{None};

use crate::folder::{Folder, FolderFault, MOST_READ_BYTES};
use crate::replacing::replace_file;
use std::alloc::Global;
use std::io::Read;
use std::rt::Files;
use std::{fs, io};

/// The folder that the program runs in, and the folders of symbols behind it.
#[derive(Drop)]
pub struct DirFolder<'a, R: Files + AllocGlobal> {
    rt: &'a R,
    libraries: String,
    faults: u64,
}

fn read_file<R: Files>(rt: &R, alloc: Global, name: &str) -> io::Result<Vec<u8>> {
    let mut bytes = Vec::new(alloc);
    let file = fs::open(rt, name)?;
    file.take(MOST_READ_BYTES as u64).read_to_end(&mut bytes)?;
    Ok(bytes)
}

fn is_missing<T>(read: &io::Result<T>) -> bool {
    match read {
        Ok(_) => false,
        Err(fault) => fault.kind() == io::ErrorKind::NotFound,
    }
}

/// The file of this name in the first of these folders, parted by `:`, that has one. A folder that
/// is not there has none.
fn read_library<R: Files>(
    rt: &R,
    alloc: Global,
    libraries: &str,
    name: &str,
) -> io::Result<Vec<u8>> {
    for library in libraries.split(':') {
        if library.is_empty() {
            continue;
        }
        let path = format!(in alloc; "{library}/{name}")?;
        let read = read_file(rt, alloc, path.as_str());
        if !is_missing(&read) {
            return read;
        }
    }
    Err(io::Error::from(io::ErrorKind::NotFound))
}

/// The file of this name or, for a symbol that is not there, that of a library.
fn read_first<R: Files>(rt: &R, alloc: Global, libraries: &str, name: &str) -> io::Result<Vec<u8>> {
    let read = read_file(rt, alloc, name);
    if name.ends_with(".sym") && is_missing(&read) {
        return read_library(rt, alloc, libraries, name);
    }
    read
}

impl<'a, R: Files + AllocGlobal> DirFolder<'a, R> {
    ghost use Rattle.std.specs.Prelude.{◌≡◌};

    /// The folder that the program runs in. A `.sym` that is not there is that of the first of
    /// these folders, parted by `:`, that has it. Nothing else is read from them, and nothing is
    /// written to them.
    pub fn new(rt: &'a R, libraries: String) -> DirFolder<'a, R>
        ensures faults { result.faults ≡ 0 }
    {
        DirFolder {
            rt,
            libraries,
            faults: 0,
        }
    }
}

impl<R: Files + AllocGlobal> Folder for DirFolder<'_, R> {
    ghost files = { λ _. None };

    ghost faults = { λ f. f.faults };

    fn read(&mut self, alloc: Global, name: &str) -> Result<Option<Vec<u8>>, FolderFault> {
        match read_first(self.rt, alloc, self.libraries.as_str(), name) {
            Ok(bytes) => Ok(Some(bytes)),
            Err(fault) => match fault.kind() {
                io::ErrorKind::NotFound => Ok(None),
                io::ErrorKind::OutOfMemory => Err(FolderFault::NoMemory),
                _ => {
                    self.faults = self.faults.saturating_add(1);
                    Err(FolderFault::Failed)
                }
            },
        }
    }

    fn write(&mut self, alloc: Global, name: &str, bytes: &[u8]) -> Result<(), FolderFault> {
        match replace_file(self.rt, alloc, name, bytes) {
            Ok(()) => Ok(()),
            Err(fault) if fault.kind() == io::ErrorKind::OutOfMemory => Err(FolderFault::NoMemory),
            Err(_) => {
                self.faults = self.faults.saturating_add(1);
                Err(FolderFault::Failed)
            }
        }
    }
}
