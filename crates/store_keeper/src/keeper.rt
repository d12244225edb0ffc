// The keeper of rows in a folder or in a database file. It tells no rows.
ghost use Rattle.std.specs.Prelude.{◌≡◌, None};
ghost use Rattle.geda_defs.specs.Causes.{HasCause};

use crate::databases::is_database;
use edit_entries::Entry;
use file_keeper::FileKeeper;
use keeper_core::{KeepFault, Keeper};
use sql_file_keeper::SqlFileKeeper;

/// What keeps the rows.
#[derive(Drop)]
enum RowKeeper<'a> {
    Folder(FileKeeper<'a, HostRuntime>),
    Database(SqlFileKeeper<'a>),
}

/// The durable log of accepted edits, in a folder or in a database file: whichever the store is
/// that it takes (docs/RULES.md, "Stores in databases").
#[derive(Drop)]
pub struct StoreKeeper<'a> {
    rt: &'a HostRuntime,
    rows: RowKeeper<'a>,
    faults: u64,
}

impl<'a> StoreKeeper<'a> {
    /// A keeper that has taken no store yet. It takes no memory.
    pub fn new(rt: &'a HostRuntime) -> StoreKeeper<'a>
        ensures faults { result.faults ≡ 0 }
    {
        StoreKeeper {
            rt,
            rows: RowKeeper::Folder(FileKeeper::new(rt)),
            faults: 0,
        }
    }

    /// Counts what failed, and hands the answer on.
    fn count<T: Drop>(&mut self, answer: Result<T, KeepFault>) -> Result<T, KeepFault>
        ensures same { result ≡ answer }
        ensures cause { HasCause self.old.faults self.new.faults result KeepFault.Failed }
    {
        if let Err(KeepFault::Failed) = &answer {
            self.faults = self.faults.saturating_add(1);
        }
        answer
    }

    fn take_store(&mut self, store: &str) -> Result<(), KeepFault>
        ensures faults { self.new.faults ≡ self.old.faults }
    {
        // What cannot be looked at is left to the keeper of folders, which tells why.
        if let Ok(true) = is_database(self.rt, self.rt.alloc(), store) {
            self.rows = RowKeeper::Database(SqlFileKeeper::new(self.rt));
        }
        match &mut self.rows {
            RowKeeper::Folder(keeper) => keeper.attach(store),
            RowKeeper::Database(keeper) => keeper.attach(store),
        }
    }

    fn put_row(&mut self, serial: u32, entry: &Entry) -> Result<(), KeepFault>
        ensures faults { self.new.faults ≡ self.old.faults }
    {
        match &mut self.rows {
            RowKeeper::Folder(keeper) => keeper.put(serial, entry),
            RowKeeper::Database(keeper) => keeper.put(serial, entry),
        }
    }

    fn load_row(&mut self, serial: u32) -> Result<Option<Entry>, KeepFault>
        ensures faults { self.new.faults ≡ self.old.faults }
    {
        match &mut self.rows {
            RowKeeper::Folder(keeper) => keeper.load(serial),
            RowKeeper::Database(keeper) => keeper.load(serial),
        }
    }
}

impl Keeper for StoreKeeper<'_> {
    ghost rows = { λ _. None };

    ghost faults = { λ k. k.faults };

    ghost never_fails = { λ _. ⊥ };

    /// Takes the database file of this name where one is there, and else the folder, which is made
    /// where it is missing.
    ///
    /// `Failed` only where the count of faults rose, as where another keeper has it.
    fn attach(&mut self, store: &str) -> Result<(), KeepFault> {
        let taken = self.take_store(store);
        self.count(taken)
    }

    /// Keeps a row, which is then on the disk.
    ///
    /// `Failed` only where the count of faults rose.
    fn put(&mut self, serial: u32, entry: &Entry) -> Result<(), KeepFault> {
        let put = self.put_row(serial, entry);
        self.count(put)
    }

    /// The row of a serial; `None` where there is none.
    ///
    /// `Failed` only where the count of faults rose.
    fn load(&mut self, serial: u32) -> Result<Option<Entry>, KeepFault> {
        let row = self.load_row(serial);
        self.count(row)
    }
}
