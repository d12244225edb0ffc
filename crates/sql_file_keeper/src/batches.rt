// The keeper of rows in a database file that puts many on the disk at once. It tells no rows.
ghost use Rattle.std.specs.Prelude.{◌≡◌, None};
ghost use Rattle.geda_defs.specs.Causes.{HasCause};

use crate::keeper::SqlFileKeeper;
use edit_entries::Entry;
use keeper_core::{KeepFault, Keeper};

/// How many rows are put on the disk at once, at most.
const BATCH_ROWS: u32 = 1_000;

/// The durable log of edits that are copied, as rows of a table in a database file. Rows are put on
/// the disk in batches, each in one transaction: a row is there once its batch is full, or once a
/// row is asked for behind it.
#[derive(Drop)]
pub struct SqlBatchKeeper<'a> {
    file: SqlFileKeeper<'a>,
    // How many rows the transaction has; none is begun where it has none.
    gathered: u32,
    faults: u64,
}

impl<'a> SqlBatchKeeper<'a> {
    /// A keeper that has taken no file yet. It takes no memory.
    pub fn new(rt: &'a HostRuntime) -> SqlBatchKeeper<'a>
        ensures faults { result.faults ≡ 0 }
    {
        SqlBatchKeeper {
            file: SqlFileKeeper::new(rt),
            gathered: 0,
            faults: 0,
        }
    }

    /// Counts what failed, and hands the answer on.
    fn count<T: Drop>(&mut self, answer: Result<T, KeepFault>) -> Result<T, KeepFault>
        ensures same { result ≡ answer }
        ensures cause { HasCause self.old.faults self.new.faults result KeepFault.Failed }
    {
        if let Err(KeepFault::Failed) = &answer {
            self.faults = self.faults.saturating_add(1);
        }
        answer
    }

    /// Begins a batch where none is begun.
    fn begin(&mut self) -> Result<(), KeepFault>
        ensures faults { self.new.faults ≡ self.old.faults }
    {
        if self.gathered > 0 {
            return Ok(());
        }
        self.file.begin()
    }

    /// Puts the batch on the disk, where one is begun.
    fn settle(&mut self) -> Result<(), KeepFault>
        ensures faults { self.new.faults ≡ self.old.faults }
    {
        if self.gathered == 0 {
            return Ok(());
        }
        self.gathered = 0;
        self.file.commit()
    }

    /// Puts a row into the batch, which goes to the disk where it is full.
    fn gather(&mut self, serial: u32, entry: &Entry) -> Result<(), KeepFault>
        ensures faults { self.new.faults ≡ self.old.faults }
    {
        self.begin()?;
        self.file.put(serial, entry)?;
        self.gathered = self.gathered.saturating_add(1);
        if self.gathered < BATCH_ROWS {
            return Ok(());
        }
        self.settle()
    }

    /// Lets the file go, and the batch that is begun.
    fn let_go(&mut self)
        ensures faults { self.new.faults ≡ self.old.faults }
    {
        self.gathered = 0;
        self.file.let_go();
    }

    /// Lets the file go where a row or a batch was not kept, so that no row comes behind one that
    /// is missing.
    fn hold<T: Drop>(&mut self, answer: Result<T, KeepFault>) -> Result<T, KeepFault>
        ensures same { result ≡ answer }
        ensures faults { self.new.faults ≡ self.old.faults }
    {
        if answer.is_err() {
            self.let_go();
        }
        answer
    }

    fn take_file(&mut self, path: &str) -> Result<(), KeepFault>
        ensures faults { self.new.faults ≡ self.old.faults }
    {
        self.let_go();
        self.file.attach(path)
    }

    fn load_row(&mut self, serial: u32) -> Result<Option<Entry>, KeepFault>
        ensures faults { self.new.faults ≡ self.old.faults }
    {
        self.settle()?;
        self.file.load(serial)
    }
}

impl Keeper for SqlBatchKeeper<'_> {
    ghost rows = { λ _. None };

    ghost faults = { λ k. k.faults };

    ghost never_fails = { λ _. ⊥ };

    /// Takes the file of this name, which is made where it is missing. It is checked whole.
    ///
    /// `Failed` only where the count of faults rose, as where another keeper has the file, or where
    /// it is no database.
    fn attach(&mut self, store: &str) -> Result<(), KeepFault> {
        let taken = self.take_file(store);
        self.count(taken)
    }

    /// Puts a row into a batch, all of which is on the disk once it is full, or once a row is asked
    /// for.
    ///
    /// `Failed` only where the count of faults rose. A fault of any call lets the file go: of the
    /// batch all rows are kept then, or none, and all of those before it; the other calls fail
    /// until a file is taken.
    fn put(&mut self, serial: u32, entry: &Entry) -> Result<(), KeepFault> {
        let put = self.gather(serial, entry);
        let held = self.hold(put);
        self.count(held)
    }

    /// The row of a serial; `None` where there is none. All rows that were put are on the disk
    /// then.
    ///
    /// `Failed` only where the count of faults rose, as where the body is no row.
    fn load(&mut self, serial: u32) -> Result<Option<Entry>, KeepFault> {
        let row = self.load_row(serial);
        let held = self.hold(row);
        self.count(held)
    }
}
