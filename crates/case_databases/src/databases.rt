// Keepers over databases in memory.
use case_tables::CaseFault;
use keeper_core::{KeepFault, Keeper};
use sqlite::{Connection, MemStore};
use sqlite_keeper::SqlKeeper;
use std::alloc::{AllocError, Global};

/// A keeper over a new database in memory, which has no table yet.
pub fn new_database(alloc: Global) -> Result<SqlKeeper<MemStore>, AllocError> {
    let connection = Connection::open_in_memory(alloc)?;
    Ok(SqlKeeper::over(alloc, connection))
}

/// A keeper that has its store.
pub fn attached<K: Keeper>(keeper: K) -> Result<K, CaseFault> {
    let mut keeper = keeper;
    match keeper.attach("cases") {
        Ok(()) => Ok(keeper),
        Err(KeepFault::Failed) => Err(CaseFault::BadCase),
        Err(KeepFault::NoMemory) => Err(CaseFault::NoMemory),
    }
}
