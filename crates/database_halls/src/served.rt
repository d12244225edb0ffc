// Connections that halls serve over one keeper, one hall after the other.
use crate::halls::{Served, serve_new};
use case_databases::{attached, new_database};
use case_tables::{CaseFault, TableFiles};
use http_lines::{input_of, lines_of};
use keeper_core::{Keeper, MemoryKeeper};
use std::alloc::Global;
use std::sync::Wait;
use web_heads::MemoryLink;

/// How many bytes go out on a connection at most.
const ROOM: usize = 100_000;

/// The replies of a connection, each with all its bytes, and how it ended.
fn put_lines<K: Keeper>(
    alloc: Global,
    out: &mut String,
    served: &Served<K>,
) -> Result<(), CaseFault> {
    let lines = lines_of(alloc, served.link.written(), false)?;
    out.push_str(lines.as_str())?;
    writeln!(out, "> {:?}", served.end)?;
    if !served.held {
        out.push_str("> not held\n")?;
    }
    Ok(())
}

/// Has a hall over a keeper serve the requests of a file, and hands the keeper back.
fn put_served<W: Wait, K: Keeper>(
    rt: &W,
    alloc: Global,
    out: &mut String,
    keeper: K,
    name: &str,
    files: &TableFiles,
) -> Result<K, CaseFault> {
    let input = input_of(alloc, name, files)?;
    let link = MemoryLink::new(alloc, input, ROOM, Vec::new(alloc))?;
    let served = serve_new(rt, alloc, keeper, link)?;
    put_lines(alloc, out, &served)?;
    Ok(served.keeper)
}

/// What comes of the connections of files, each at a hall that is opened over the keeper again.
fn served_over<W: Wait, K: Keeper>(
    rt: &W,
    alloc: Global,
    keeper: K,
    words: &str,
    files: &TableFiles,
) -> Result<String, CaseFault> {
    let mut out = String::new(alloc);
    let mut keeper = attached(keeper)?;
    for name in words.split(" then ") {
        keeper = put_served(rt, alloc, &mut out, keeper, name, files)?;
    }
    Ok(out)
}

/// The connection of a file, at a hall over a new database in memory; and behind ` then ` those of
/// other files, each at a hall that is opened over the same rows again: `ann then reads`. A line at
/// the end says where a keeper in memory would have it otherwise.
pub fn connections<W: Wait>(
    rt: &W,
    alloc: Global,
    words: &str,
    files: &TableFiles,
) -> Result<String, CaseFault> {
    let in_memory = MemoryKeeper::new(Vec::new(alloc), Vec::new(alloc));
    let wanted = served_over(rt, alloc, in_memory, words, files)?;
    let mut told = served_over(rt, alloc, new_database(alloc)?, words, files)?;
    if told != wanted {
        told.push_str("> otherwise in memory\n")?;
    }
    Ok(told)
}
