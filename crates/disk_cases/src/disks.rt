// Two disks in memory, for a database file and its log, one of which may stop.
use sqlite::Files;
use sqlite_disk::{Crash, Disk, Fuse, Memory};
use std::alloc::Global;

/// A disk in memory that stops behind so many calls.
pub type StoppingDisk = Fuse<Memory>;

/// Where a disk stops, and what it leaves.
#[derive(Clone, Copy, Debug)]
pub struct Stop {
    /// So many calls of the log pass.
    pub log_calls: u64,
    /// So many calls of the database file pass.
    pub file_calls: u64,
    /// What was written and not synced is lost.
    pub is_lossy: bool,
}

/// Two empty disks.
pub fn new_disks(alloc: Global, stop: Stop) -> Files<StoppingDisk> {
    Files {
        log: Fuse::new(Memory::new(alloc), stop.log_calls),
        db: Fuse::new(Memory::new(alloc), stop.file_calls),
    }
}

/// Whether a disk lets no further call pass.
fn is_stopped(disk: &mut StoppingDisk) -> bool {
    if !disk.may_be_used() {
        return true;
    }
    disk.len().is_err()
}

/// Whether one of the disks lets no further call pass.
pub fn has_stopped(disks: &mut Files<StoppingDisk>) -> bool {
    if is_stopped(&mut disks.log) {
        return true;
    }
    is_stopped(&mut disks.db)
}

/// A disk with these bytes, which does not stop; none for want of memory.
fn disk_of(alloc: Global, bytes: &[u8]) -> Option<StoppingDisk> {
    let mut disk = Memory::new(alloc);
    match disk.write_at(0, bytes) {
        Ok(()) => Some(Fuse::new(disk, u64::MAX)),
        Err(_) => {
            drop(disk);
            None
        }
    }
}

/// The disks with all that was written to them.
fn written_disks(alloc: Global, disks: &Files<StoppingDisk>) -> Option<Files<StoppingDisk>> {
    Some(Files {
        log: disk_of(alloc, disks.log.inner().bytes())?,
        db: disk_of(alloc, disks.db.inner().bytes())?,
    })
}

/// The disks as they are found again: with what was synced alone, or with all that was written;
/// none for want of memory. They stop no more.
pub fn found_again(
    alloc: Global,
    disks: Files<StoppingDisk>,
    is_lossy: bool,
) -> Option<Files<StoppingDisk>> {
    let mut disks = disks;
    if !is_lossy {
        let written = written_disks(alloc, &disks);
        drop(disks);
        return written;
    }
    disks.log.crash();
    disks.db.crash();
    Some(disks)
}
