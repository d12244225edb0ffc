// Putting bytes in the place of a file, so that a crash leaves the old file or the new one whole.
use std::alloc::{AllocError, Global};
use std::fs::{OpenFile, OpenOptions, Permissions};
use std::io::Write;
use std::os::unix::fs::OpenOptionsExt;
use std::rt::Files;
use std::{fs, io};

const MOST_BESIDE: u32 = 100;

/// A file that nobody but its owner may read, until it gets the permissions of another one.
const OWNERS: u32 = 0o600;

/// The path of what stands under a name: links are followed, so that they stay.
fn path_of<R: Files>(rt: &R, alloc: Global, name: &str) -> io::Result<String> {
    match rt.canonicalize(alloc, name) {
        Ok(path) => Ok(path.into_string()),
        Err(fault) if fault.kind() == io::ErrorKind::NotFound => {
            Ok(String::from_str(alloc, name)?)
        }
        Err(fault) => Err(fault),
    }
}

/// The permissions of a file; `None` where there is none. A file that may not be written is a
/// fault.
fn permissions_of<R: Files>(rt: &R, path: &str) -> io::Result<Option<Permissions>> {
    match OpenOptions::new().write(true).open(rt, path) {
        Ok(file) => Ok(Some(file.metadata()?.permissions())),
        Err(fault) if fault.kind() == io::ErrorKind::NotFound => Ok(None),
        Err(fault) => Err(fault),
    }
}

/// A path in the same folder that is hidden, and so no Name.
fn beside(alloc: Global, path: &str, number: u32) -> Result<String, AllocError> {
    match path.rsplit_once('/') {
        Some((folder, name)) => format!(in alloc; "{folder}/.{name}.gafd{number}"),
        None => format!(in alloc; ".{path}.gafd{number}"),
    }
}

fn create_new<R: Files>(rt: &R, path: &str, is_owners: bool) -> io::Result<R::File> {
    let mut options = OpenOptions::new();
    options.write(true).create_new(true);
    if is_owners {
        options.mode(OWNERS);
    }
    options.open(rt, path)
}

/// A new file beside another one, and its path. A file that is there already stays.
fn create_beside<R: Files>(
    rt: &R,
    alloc: Global,
    path: &str,
    is_owners: bool,
) -> io::Result<(String, R::File)> {
    for number in 1..=MOST_BESIDE {
        let beside = beside(alloc, path, number)?;
        match create_new(rt, beside.as_str(), is_owners) {
            Ok(file) => return Ok((beside, file)),
            Err(fault) if fault.kind() == io::ErrorKind::AlreadyExists => {}
            Err(fault) => return Err(fault),
        }
    }
    Err(io::Error::from(io::ErrorKind::AlreadyExists))
}

fn fill<R: Files>(file: R::File, bytes: &[u8], permissions: Option<Permissions>) -> io::Result<()> {
    let mut file = file;
    file.write_all(bytes)?;
    if let Some(permissions) = permissions {
        file.set_permissions(permissions)?;
    }
    file.sync_all()
}

/// Fills the file beside another one and puts it in the place of that one.
fn fill_and_rename<R: Files>(
    rt: &R,
    beside: (&str, R::File),
    path: &str,
    bytes: &[u8],
    permissions: Option<Permissions>,
) -> io::Result<()> {
    let (name, file) = beside;
    fill::<R>(file, bytes, permissions)?;
    fs::rename(rt, name, path)
}

/// Puts these bytes in the place of a file of the folder, with its permissions, or makes it of them
/// where there is none. They are written beside it and are on the disk before they take its place.
pub(crate) fn replace_file<R: Files>(
    rt: &R,
    alloc: Global,
    name: &str,
    bytes: &[u8],
) -> io::Result<()> {
    let path = path_of(rt, alloc, name)?;
    let permissions = permissions_of(rt, path.as_str())?;
    let (beside, file) = create_beside(rt, alloc, path.as_str(), permissions.is_some())?;
    let replaced = fill_and_rename(
        rt,
        (beside.as_str(), file),
        path.as_str(),
        bytes,
        permissions,
    );
    if replaced.is_err() {
        // What was written beside goes, where it can.
        let _ = fs::remove_file(rt, beside.as_str());
    }
    replaced
}
