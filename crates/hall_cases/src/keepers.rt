// Keepers in memory.
use crate::hall_fault::HallFault;
use case_tables::{CaseFault, TableFiles};
use http_lines::entries_of;
use keeper_core::{KeepFault, Keeper, MemoryKeeper};
use std::alloc::Global;

/// A keeper of no rows that has its store. The call of this number fails, where it is not 0.
pub fn keeper_failing_at(alloc: Global, call: u64) -> Result<MemoryKeeper, HallFault> {
    let failing = Vec::from_slice(alloc, &[call])?;
    let mut keeper = MemoryKeeper::new(Vec::new(alloc), failing);
    match keeper.attach("cases") {
        Ok(()) => Ok(keeper),
        Err(KeepFault::Failed) => Err(HallFault::NotAttached),
        Err(KeepFault::NoMemory) => Err(HallFault::NoCase(CaseFault::NoMemory)),
    }
}

/// A keeper whose rows are the entries of a file.
pub fn keeper_of(alloc: Global, file: &str, files: &TableFiles) -> Result<MemoryKeeper, CaseFault> {
    let rows = entries_of(alloc, file, files)?;
    Ok(MemoryKeeper::new(rows, Vec::new(alloc)))
}
