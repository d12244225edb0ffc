// The folder of a store: how it is made, locked and listed.
use crate::files::{own_fault, require_file_or_none};
use crate::names::{is_next, serial_named};
use std::alloc::{AllocError, Global};
use std::fs::{File, OpenOptions, TryLockError};
use std::rt::Files;
use std::{fs, io};

/// What the system answers where a folder cannot be locked, as on NFS (`EBADF`).
const NO_FOLDER_LOCKS: i32 = 9;

/// Makes the folder where it is missing. It then stands in the folder above, on the disk too.
pub fn make_folder<R: Files<File = File>>(rt: &R, alloc: Global, path: &str) -> io::Result<()> {
    match fs::create_dir(rt, path) {
        Ok(()) => sync_above(rt, alloc, path),
        Err(fault) if fault.kind() == io::ErrorKind::AlreadyExists => {
            match sync_above(rt, alloc, path) {
                Err(fault) if cannot_sync(&fault) => Ok(()),
                synced => synced,
            }
        }
        Err(fault) => Err(fault),
    }
}

/// Brings the folder above to the disk, since a start that was killed may have made this one.
fn sync_above<R: Files<File = File>>(rt: &R, alloc: Global, path: &str) -> io::Result<()> {
    let above = format!(in alloc; "{path}/..")?;
    fs::open(rt, above.as_str())?.sync_all()
}

/// The folder may not be read, or is on a file system that brings no folder to the disk.
fn cannot_sync(fault: &io::Error) -> bool {
    matches!(
        fault.kind(),
        io::ErrorKind::PermissionDenied | io::ErrorKind::InvalidInput
    )
}

fn locked(tried: Result<(), TryLockError>) -> io::Result<()> {
    match tried {
        Err(TryLockError::WouldBlock) => Err(own_fault("another server has it")),
        tried => Ok(tried?),
    }
}

/// Locks the folder itself. It fails where another process has it.
pub fn lock_folder(folder: &File) -> io::Result<()> {
    match locked(folder.try_lock()) {
        // The lock on the file then keeps others off alone.
        Err(fault) if fault.raw_os_error() == Some(NO_FOLDER_LOCKS) => Ok(()),
        locked => locked,
    }
}

/// The lock on the file `lock` of a folder, by which older programs know that it is taken.
pub fn lock_file<R: Files<File = File>>(rt: &R, alloc: Global, path: &str) -> io::Result<File> {
    let lock_path = format!(in alloc; "{path}/lock")?;
    require_file_or_none(fs::metadata(rt, lock_path.as_str()))?;
    let mut options = OpenOptions::new();
    options.write(true).create(true);
    let lock = options.open(rt, lock_path.as_str())?;
    locked(lock.try_lock())?;
    Ok(lock)
}

/// What a folder has when it is taken.
#[derive(Drop)]
pub struct Found {
    /// The greatest serial that a row file has.
    pub last: Option<u32>,
    /// The names of files to which servers wrote a row; those that wrote them have ended.
    nexts: Vec<String>,
}

impl Found {
    fn add(&mut self, alloc: Global, name: &str) -> Result<(), AllocError> {
        self.last = self.last.max(serial_named(name));
        if is_next(name) {
            self.nexts.push(String::from_str(alloc, name)?)?;
        }
        Ok(())
    }

    /// Removes what servers that have ended wrote. What cannot be removed counts for nothing.
    pub fn clear<R: Files>(&self, rt: &R, alloc: Global, path: &str) -> Result<(), AllocError> {
        for name in &self.nexts {
            let next_path = format!(in alloc; "{path}/{name}")?;
            let _ = fs::remove_file(rt, next_path.as_str());
        }
        Ok(())
    }
}

/// Looks through the names in a folder.
pub fn look_through<R: Files + AllocGlobal>(rt: &R, path: &str) -> io::Result<Found> {
    let alloc = rt.alloc();
    let mut found = Found {
        last: None,
        nexts: Vec::new(alloc),
    };
    for entry in fs::read_dir(&rt, path)? {
        match entry {
            Ok(entry) => found.add(alloc, entry.file_name())?,
            // A name that is not UTF-8 is that of no file of a store.
            Err(fault) if fault.kind() == io::ErrorKind::InvalidFilename => {}
            Err(fault) => return Err(fault),
        }
    }
    Ok(found)
}
