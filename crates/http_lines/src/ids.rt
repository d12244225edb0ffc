// Lists of many ids: `[0 to 999]` in an entry stands for the ids 0 to 999.
use case_tables::{CaseFault, number_of};
use std::alloc::{AllocError, Global};

fn put_ids(out: &mut String, last: u32) -> Result<(), AllocError> {
    out.push_str("[0")?;
    for id in 0..last {
        write!(out, ",{}", id.saturating_add(1))?;
    }
    out.push(']')
}

/// An entry as JSON, with the list of ids for its two ends.
pub fn with_ids(alloc: Global, line: &str) -> Result<String, CaseFault> {
    let Some((before, rest)) = line.split_once("[0 to ") else {
        return Ok(String::from_str(alloc, line)?);
    };
    let (last, after) = rest.split_once(']').ok_or(CaseFault::BadCase)?;
    let mut out = String::from_str(alloc, before)?;
    put_ids(&mut out, number_of(last)?)?;
    out.push_str(after)?;
    Ok(out)
}
