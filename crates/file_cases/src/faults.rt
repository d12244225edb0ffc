// What is wrong with a case whose files are refused.
use case_tables::CaseFault;
use geda_read::ReadFault;

/// What was read of bytes.
pub fn read<T: Drop>(read: Result<T, ReadFault>) -> Result<T, CaseFault> {
    match read {
        Ok(value) => Ok(value),
        Err(ReadFault::At { .. }) => Err(CaseFault::BadCase),
        Err(ReadFault::NoMemory) => Err(CaseFault::NoMemory),
    }
}
