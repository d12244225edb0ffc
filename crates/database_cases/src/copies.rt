// Rows that are copied into a database in memory, or out of one.
use crate::rows::{put_holder, rows_of};
use case_databases::{attached, new_database};
use case_tables::{CaseFault, TableFiles, number_of};
use keeper_core::Keeper;
use std::alloc::Global;
use store_copy::{StoreFault, store_rows};

/// The line on what came of a copy.
fn line_of(alloc: Global, copied: Result<u32, StoreFault>) -> Result<String, CaseFault> {
    match copied {
        Ok(count) => Ok(format!(in alloc; "> stored {count}\n")?),
        Err(StoreFault::NoMemory) => Err(CaseFault::NoMemory),
        Err(fault) => Ok(format!(in alloc; "> {fault:?}\n")?),
    }
}

/// Copies rows, and puts a line on what came of it.
fn put_copy<K: Keeper, D: Keeper>(
    alloc: Global,
    out: &mut String,
    from: &mut K,
    to: &mut D,
) -> Result<(), CaseFault> {
    let line = line_of(alloc, store_rows(alloc, from, to))?;
    Ok(out.push_str(line.as_str())?)
}

/// Whether rows were copied.
fn is_copied(copied: Result<u32, StoreFault>) -> Result<(), CaseFault> {
    match copied {
        Ok(_) => Ok(()),
        Err(StoreFault::NoMemory) => Err(CaseFault::NoMemory),
        Err(_) => Err(CaseFault::BadCase),
    }
}

/// Copies the rows of a file into a keeper.
fn fill<D: Keeper>(
    alloc: Global,
    to: &mut D,
    file: &str,
    files: &TableFiles,
) -> Result<(), CaseFault> {
    let mut from = rows_of(alloc, file, 0, files)?;
    let copied = store_rows(alloc, &mut from, to);
    drop(from);
    is_copied(copied)
}

/// Copies rows twice, and puts what came of it and which of some files has the rows that are there
/// then.
fn put_both<K: Keeper, D: Keeper>(
    alloc: Global,
    out: &mut String,
    from: &mut K,
    to: &mut D,
    names: &[&str],
    files: &TableFiles,
) -> Result<(), CaseFault> {
    put_copy(alloc, out, from, to)?;
    put_copy(alloc, out, from, to)?;
    put_holder(alloc, out, to, names, files)
}

/// Copies the rows of a file twice, and puts what came of it and which file's rows are there then.
fn put_copies<D: Keeper>(
    alloc: Global,
    out: &mut String,
    to: &mut D,
    words: &str,
    others: &str,
    files: &TableFiles,
) -> Result<(), CaseFault> {
    let (rows, call) = words.split_once(" failing ").unwrap_or((words, "0"));
    let mut from = rows_of(alloc, rows, number_of(call)?, files)?;
    let put = put_both(alloc, out, &mut from, to, &[rows, others], files);
    drop(from);
    put
}

/// Copies the rows of a file twice into a keeper that first gets those of another.
fn text_of_copies<D: Keeper>(
    alloc: Global,
    to: &mut D,
    names: (&str, &str),
    files: &TableFiles,
) -> Result<String, CaseFault> {
    let (words, others) = names;
    let mut out = String::new(alloc);
    fill(alloc, to, others, files)?;
    put_copies(alloc, &mut out, to, words, others, files)?;
    Ok(out)
}

/// What comes of two copies of the rows of a file into a database with those of another, and whose
/// rows it has then: `rows into none`. A call of the keeper of the first may be one that fails:
/// `rows failing 2 into none`.
pub fn copies_in(alloc: Global, words: &str, files: &TableFiles) -> Result<String, CaseFault> {
    let names = words.split_once(" into ").ok_or(CaseFault::BadCase)?;
    let mut to = attached(new_database(alloc)?)?;
    let text = text_of_copies(alloc, &mut to, names, files);
    drop(to);
    text
}

/// The same of a database that has no table.
pub fn copies_without_table(
    alloc: Global,
    words: &str,
    files: &TableFiles,
) -> Result<String, CaseFault> {
    let mut out = String::new(alloc);
    let mut to = new_database(alloc)?;
    let put = put_copies(alloc, &mut out, &mut to, words, words, files);
    drop(to);
    put?;
    Ok(out)
}

/// Copies the rows of a database twice into a keeper in memory that has those of another file, and
/// puts what came of it and which file's rows are there then.
fn put_copies_out<K: Keeper>(
    alloc: Global,
    out: &mut String,
    from: &mut K,
    names: (&str, &str),
    files: &TableFiles,
) -> Result<(), CaseFault> {
    let (rows, others) = names;
    let mut to = rows_of(alloc, others, 0, files)?;
    let put = put_both(alloc, out, from, &mut to, &[rows, others], files);
    drop(to);
    put
}

/// Copies the rows of a file into a database, and those of this one twice.
fn text_of_copies_out<K: Keeper>(
    alloc: Global,
    from: &mut K,
    names: (&str, &str),
    files: &TableFiles,
) -> Result<String, CaseFault> {
    let mut out = String::new(alloc);
    fill(alloc, from, names.0, files)?;
    put_copies_out(alloc, &mut out, from, names, files)?;
    Ok(out)
}

/// What comes of two copies of the rows of a database into a keeper in memory that has those of
/// another file, and whose rows this one has then: `rows into none`.
pub fn copies_out(alloc: Global, words: &str, files: &TableFiles) -> Result<String, CaseFault> {
    let names = words.split_once(" into ").ok_or(CaseFault::BadCase)?;
    let mut from = attached(new_database(alloc)?)?;
    let text = text_of_copies_out(alloc, &mut from, names, files);
    drop(from);
    text
}
