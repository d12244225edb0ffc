// A folder of files, and one in memory.
ghost use Rattle.std.specs.Prelude.{◌≡◌, ℕ, OnErr, OnOk, Option, take, option_copied};
ghost use Rattle.std.specs.BTreeMap.{insert_entry};
ghost use Rattle.geda_defs.specs.Causes.{HasCause};
ghost use Rattle.geda_defs.specs.Contents.{Files, KeepsFiles, ReadsFile};
ghost use Rattle.geda_defs.specs.Order.{by_bytes};
ghost use Rattle.geda_model.specs.Names.{IsName};
ghost use Rattle.project_files.specs.FolderWrites.{WritesFile};
ghost use Rattle.project_files.specs.MemoryFolder.{file_in, files_in};
ghost use Rattle.project_files.specs.declared.folder.FolderFault.TheVariants.{NoMemory};

use geda_model::{MOST_FILE_BYTES, Name};
use outside::FailingCalls;
use std::alloc::{AllocError, Global};
use std::collections::BTreeMap;
use std::marker::Model;

/// The bytes that are read of a file at most: one more than a file may have, so that a longer one
/// is told from the longest.
pub const MOST_READ_BYTES: usize = MOST_FILE_BYTES + 1;

/// Why a call of a folder failed.
#[derive(Clone, Copy, Debug, PartialEq, Eq)]
pub enum FolderFault {
    /// The folder failed.
    Failed,
    /// Memory ran out.
    NoMemory,
}

impl From<AllocError> for FolderFault {
    ghost from_gives = { λ _ e. e ≡ NoMemory };

    fn from(_: AllocError) -> FolderFault {
        FolderFault::NoMemory
    }
}

/// A folder of files.
pub trait Folder {
    /// The files by name, where the folder tells them.
    ghost files: { Self → Option Files };

    /// How often a call failed. The count never falls, and stays at the end of its type.
    ghost faults: { Self → ℕ };

    /// The bytes of a file, or of one of over 4,194,305 bytes just the first so many. `None`
    /// exactly where there is no such file. All files stay.
    ///
    /// `Failed` only where the count of faults rose.
    fn read(&mut self, alloc: Global, name: &str) -> Result<Option<Vec<u8>>, FolderFault>
        ensures file { ReadsFile (files self.old) name.now (λ v. v.items) result }
        ensures same { KeepsFiles (files self.old) (files self.new) }
        ensures cause { HasCause (faults self.old) (faults self.new) result FolderFault.Failed };

    /// Puts these bytes in the place of a file, or makes it of them where there is none. The name
    /// is a Name. After a fault nothing is said of that one file; all others stay.
    ///
    /// `Failed` only where the count of faults rose.
    fn write(&mut self, alloc: Global, name: &str, bytes: &[u8]) -> Result<(), FolderFault>
        requires name { IsName name.now }
        ensures file { WritesFile (files self.old) (files self.new) name.now bytes.now result }
        ensures cause { HasCause (faults self.old) (faults self.new) result FolderFault.Failed };
}

/// A folder in memory that tells its files.
#[derive(Drop)]
pub struct MemoryFolder {
    files: BTreeMap<Name, Vec<u8>>,
    planned: FailingCalls,
}

impl Model for MemoryFolder {
    ghost use Rattle.project_files.specs.MemoryFolder.{MemoryFolderData, files_in};

    ghost Value = { MemoryFolderData };

    ghost view = { λ m. record {
      files = files_in m.files;
      failing = m.planned.failing;
      calls = m.planned.calls;
      faults = m.planned.faults;
    } };
}

fn find_file<'a>(files: &'a BTreeMap<Name, Vec<u8>>, name: &str) -> Option<&'a [u8]>
    ensures { option_copied result ≡ file_in (files_in files.now) name.now }
{
    for (key, bytes) in files {
        if key.as_str() == name {
            return Some(bytes.as_slice());
        }
    }
    None
}

fn first_bytes(bytes: &[u8]) -> &[u8]
    ensures { result.now ≡ take 4194305 bytes.now }
{
    match bytes.get(..MOST_READ_BYTES) {
        Some(first) => first,
        None => bytes,
    }
}

/// Gives the file of a name these bytes. The files stay where memory runs out, or the name is none.
fn put_file(
    alloc: Global,
    files: &mut BTreeMap<Name, Vec<u8>>,
    name: &str,
    bytes: &[u8],
) -> Result<(), AllocError>
    ensures ok { OnOk result
        (files_in files.new ≡ insert_entry by_bytes (files_in files.old) name.now bytes.now) }
    ensures err { OnErr result (files_in files.new ≡ files_in files.old) }
{
    let Ok(name) = Name::new(alloc, name) else {
        return Err(AllocError);
    };
    let bytes = bytes.to_vec(alloc)?;
    files.insert(name, bytes)?;
    Ok(())
}

impl MemoryFolder {
    ghost use Rattle.std.specs.Prelude.{◌≡◌, option_copied};
    ghost use Rattle.project_files.specs.MemoryFolder.{file_in, files_in};

    /// A folder of these files. The calls whose numbers are in `failing`, counted from 1, fail.
    pub fn new(files: BTreeMap<Name, Vec<u8>>, failing: Vec<u64>) -> MemoryFolder
        ensures files { result.files ≡ files_in files }
        ensures failing { result.failing ≡ failing.items }
        ensures calls { result.calls ≡ 0 }
        ensures faults { result.faults ≡ 0 }
    {
        MemoryFolder {
            files,
            planned: FailingCalls::new(failing),
        }
    }

    /// The bytes of a file, or `None` exactly where there is none. It takes no memory.
    pub fn file(&self, name: &str) -> Option<&[u8]>
        ensures { option_copied result ≡ file_in self.now.files name.now }
    {
        find_file(&self.files, name)
    }
}

impl Folder for MemoryFolder {
    ghost use Rattle.std.specs.Prelude.{◌≡◌, ◌↔◌, Some, IsErrOf, OnOk};
    ghost use Rattle.geda_defs.specs.Causes.{HasCause};
    ghost use Rattle.geda_defs.specs.Contents.{ReadsFile};
    ghost use Rattle.geda_model.specs.Names.{IsName};
    ghost use Rattle.project_files.specs.FolderWrites.{WritesFile};
    ghost use Rattle.project_files.specs.MemoryFolder.{FolderFails, file_in, folder_after_fault};
    ghost use Rattle.project_files.specs.MemoryFolder.{folder_after_read, folder_after_write};

    ghost files = { λ m. Some (file_in m.files) };

    ghost faults = { λ m. m.faults };

    /// The bytes of a file, or of one of over 4,194,305 bytes just the first so many. `None`
    /// exactly where there is no such file.
    ///
    /// `Failed` exactly where the number of the call is in the list of those that fail. The count
    /// of calls rises by one, with `Failed` the count of faults too, and all else stays.
    fn read(&mut self, alloc: Global, name: &str) -> Result<Option<Vec<u8>>, FolderFault>
        ensures file { ReadsFile (Some (file_in self.old.files)) name.now (λ v. v.items) result }
        ensures same { self.new.files ≡ self.old.files }
        ensures cause { HasCause self.old.faults self.new.faults result FolderFault.Failed }
        ensures failed { IsErrOf result FolderFault.Failed ↔ FolderFails self.old }
        ensures after_fault { IsErrOf result FolderFault.Failed →
            self.new ≡ folder_after_fault self.old }
        ensures after_read { ¬ (IsErrOf result FolderFault.Failed) →
            self.new ≡ folder_after_read self.old }
    {
        if self.planned.is_next_failing() {
            return Err(FolderFault::Failed);
        }
        match find_file(&self.files, name) {
            None => Ok(None),
            Some(bytes) => Ok(Some(first_bytes(bytes).to_vec(alloc)?)),
        }
    }

    /// Puts these bytes in the place of a file, or makes it of them where there is none. The name
    /// is a Name.
    ///
    /// `Failed` exactly where the number of the call is in the list of those that fail. The count
    /// of calls rises by one, with `Failed` the count of faults too. After a fault all files stay.
    fn write(&mut self, alloc: Global, name: &str, bytes: &[u8]) -> Result<(), FolderFault>
        requires name { IsName name.now }
        ensures file { WritesFile (Some (file_in self.old.files)) (Some (file_in self.new.files))
            name.now bytes.now result }
        ensures cause { HasCause self.old.faults self.new.faults result FolderFault.Failed }
        ensures failed { IsErrOf result FolderFault.Failed ↔ FolderFails self.old }
        ensures after_fault { IsErrOf result FolderFault.Failed →
            self.new ≡ folder_after_fault self.old }
        ensures after_want { IsErrOf result FolderFault.NoMemory →
            self.new ≡ folder_after_read self.old }
        ensures after_write { OnOk result
            (self.new ≡ folder_after_write self.old name.now bytes.now) }
    {
        if self.planned.is_next_failing() {
            return Err(FolderFault::Failed);
        }
        put_file(alloc, &mut self.files, name, bytes)?;
        Ok(())
    }
}
