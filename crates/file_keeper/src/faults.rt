// The file `faults` of a store: what the system said of calls that failed.
use crate::files::require_file_or_none;
use std::alloc::Global;
use std::fs::{File, OpenOptions};
use std::io::Write;
use std::rt::Files;
use std::{fs, io};

/// Adds a line that tells a fault: of the row of a serial, or of the store (docs/FORMATS.md,
/// "Stores"). The file is made where it is missing.
pub fn add_fault<R: Files<File = File>>(
    rt: &R,
    alloc: Global,
    store: &str,
    serial: Option<u32>,
    fault: &io::Error,
) -> io::Result<()> {
    let path = format!(in alloc; "{store}/faults")?;
    require_file_or_none(fs::symlink_metadata(rt, path.as_str()))?;
    let line = match serial {
        Some(serial) => format!(in alloc; "row {serial}: {fault}\n")?,
        None => format!(in alloc; "store: {fault}\n")?,
    };
    let mut options = OpenOptions::new();
    options.append(true).create(true);
    let mut file = options.open(rt, path.as_str())?;
    file.write_all(line.as_bytes())
}
