// Which stores are databases.
use std::alloc::Global;
use std::fs::File;
use std::io::Read;
use std::rt::Files;
use std::{fs, io};

/// The bytes with which a database file begins.
const FIRST_BYTES: &[u8; 16] = b"SQLite format 3\0";

/// The first bytes of a file, as many as tell a database.
fn first_bytes<R: Files<File = File>>(rt: &R, alloc: Global, path: &str) -> io::Result<Vec<u8>> {
    let file = fs::open(rt, path)?;
    let mut bytes = Vec::new(alloc);
    file.take(16).read_to_end(&mut bytes)?;
    Ok(bytes)
}

/// Whether the log of a database is at a path.
fn has_log<R: Files>(rt: &R, alloc: Global, path: &str) -> io::Result<bool> {
    let log_path = format!(in alloc; "{path}-wal")?;
    fs::exists(rt, log_path.as_str())
}

/// Whether a database is at a path: a file that begins as one, or an empty one with its log beside.
pub fn is_database<R: Files<File = File>>(rt: &R, alloc: Global, path: &str) -> io::Result<bool> {
    match fs::metadata(rt, path) {
        Ok(metadata) if metadata.is_file() => {}
        Ok(_) => return Ok(false),
        Err(fault) if fault.kind() == io::ErrorKind::NotFound => return Ok(false),
        Err(fault) => return Err(fault),
    }
    let bytes = first_bytes(rt, alloc, path)?;
    if bytes.is_empty() {
        return has_log(rt, alloc, path);
    }
    Ok(bytes.as_slice() == FIRST_BYTES.as_slice())
}
