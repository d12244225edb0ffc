// The keeper of rows in files. It tells no rows.
ghost use Rattle.std.specs.Prelude.{◌≡◌, None};
ghost use Rattle.geda_defs.specs.Causes.{HasCause};
ghost use Rattle.file_keeper.specs.Faults.{Becomes, BecomesFault};

use crate::faults::add_fault;
use crate::files::own_fault;
use crate::rows::{row_bytes, row_of};
use crate::store::Store;
use edit_entries::Entry;
use keeper_core::{KeepFault, Keeper};
use std::fs::File;
use std::io;
use std::random::RandomSource;
use std::rt::Files;

/// The durable log of accepted edits, as files of a folder (docs/RULES.md, "Rows in files").
#[derive(Drop)]
pub struct FileKeeper<'a, R: Files<File = File> + AllocGlobal + RandomSource> {
    rt: &'a R,
    store: Option<Store>,
    faults: u64,
    /// The last call failed.
    has_failed: bool,
}

/// A call of the system that failed.
fn keep_fault(fault: io::Error) -> KeepFault
    ensures memory { BecomesFault fault result }
{
    match fault.kind() {
        io::ErrorKind::OutOfMemory => KeepFault::NoMemory,
        _ => KeepFault::Failed,
    }
}

fn taken(store: &mut Option<Store>) -> io::Result<&mut Store> {
    store.as_mut().ok_or_else(|| own_fault("no store is taken"))
}

impl<'a, R: Files<File = File> + AllocGlobal + RandomSource> FileKeeper<'a, R> {
    /// A keeper that has taken no store yet. It takes no memory.
    pub fn new(rt: &'a R) -> FileKeeper<'a, R>
        ensures faults { result.faults ≡ 0 }
    {
        FileKeeper {
            rt,
            store: None,
            faults: 0,
            has_failed: false,
        }
    }

    /// Counts what failed, and hands the answer on.
    fn count<T: Drop>(&mut self, answer: io::Result<T>) -> Result<T, KeepFault>
        ensures handed { Becomes answer result }
        ensures cause { HasCause self.old.faults self.new.faults result KeepFault.Failed }
    {
        self.has_failed = answer.is_err();
        let answer = answer.map_err(keep_fault);
        if let Err(KeepFault::Failed) = &answer {
            self.faults = self.faults.saturating_add(1);
        }
        answer
    }

    /// Tells the first fault, and each first one after a success, in the store where it can.
    fn note<T>(&self, store: &str, serial: Option<u32>, answer: &io::Result<T>) {
        if let Err(fault) = answer {
            if !self.has_failed {
                let _ = add_fault(self.rt, self.rt.alloc(), store, serial, fault);
            }
        }
    }

    fn note_row<T>(&self, serial: u32, answer: &io::Result<T>) {
        if let Some(store) = &self.store {
            self.note(store.path(), Some(serial), answer);
        }
    }

    fn take_store(&mut self, path: &str) -> io::Result<()>
        ensures faults { self.new.faults ≡ self.old.faults }
    {
        self.store = Some(Store::open(self.rt, path)?);
        Ok(())
    }

    fn put_row(&mut self, serial: u32, entry: &Entry) -> io::Result<()>
        ensures faults { self.new.faults ≡ self.old.faults }
    {
        let alloc = self.rt.alloc();
        let bytes = row_bytes(alloc, entry)?;
        taken(&mut self.store)?.put(self.rt, alloc, serial, &bytes)
    }

    fn load_row(&mut self, serial: u32) -> io::Result<Option<Entry>>
        ensures faults { self.new.faults ≡ self.old.faults }
    {
        let alloc = self.rt.alloc();
        let store = taken(&mut self.store)?;
        let Some(bytes) = store.read(self.rt, alloc, serial)? else {
            return Ok(None);
        };
        match row_of(alloc, &bytes) {
            Ok(None) => {
                store.remove_cut(self.rt, alloc, serial)?;
                Ok(None)
            }
            Ok(row) => Ok(row),
            Err(KeepFault::Failed) => Err(own_fault("no row of version 1 or 2")),
            Err(KeepFault::NoMemory) => Err(io::Error::from(io::ErrorKind::OutOfMemory)),
        }
    }
}

impl<R: Files<File = File> + AllocGlobal + RandomSource> Keeper for FileKeeper<'_, R> {
    ghost rows = { λ _. None };

    ghost faults = { λ k. k.faults };

    ghost never_fails = { λ _. ⊥ };

    /// Takes the folder of this name. It is made where it is missing, in a folder that is there.
    ///
    /// `Failed` only where the count of faults rose, as where another keeper has the folder, or its
    /// file system knows no hard links.
    fn attach(&mut self, store: &str) -> Result<(), KeepFault> {
        let taken = self.take_store(store);
        self.note(store, None, &taken);
        self.count(taken)
    }

    /// Keeps a row, which is then on the disk.
    ///
    /// `Failed` only where the count of faults rose, as where a file of its serial is there, or
    /// another folder stands in the place of the one that was taken.
    fn put(&mut self, serial: u32, entry: &Entry) -> Result<(), KeepFault> {
        let put = self.put_row(serial, entry);
        self.note_row(serial, &put);
        self.count(put)
    }

    /// The row of a serial. `None` where it has no file, or one that does not end in LF, which is
    /// removed, and no later row was there when the folder was taken.
    ///
    /// `Failed` only where the count of faults rose, as where a later row was there, or the file is
    /// no row.
    fn load(&mut self, serial: u32) -> Result<Option<Entry>, KeepFault> {
        let row = self.load_row(serial);
        self.note_row(serial, &row);
        self.count(row)
    }
}
