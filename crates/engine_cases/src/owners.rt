// An owner of a board, by planned turns.
ghost use Rattle.std.specs.Prelude.{IfOk};
ghost use Rattle.engine_board.specs.Holding.{IsFresh};
ghost use Rattle.engine_board.specs.Holds.{HoldsBoard};

use crate::plans::body_of;
use case_tables::CaseFault;
use engine_board::{Hold, open, put};
use engine_core::{Engine, EngineFault};
use memory_engine::{MemoryEngine, MemoryWorld, Turn};
use std::alloc::Global;
use std::str;

/// How often a row is tried.
const TRIES: u32 = 6;

/// A store of these rows that nobody has taken yet.
fn store_of(alloc: Global, turns: Vec<Turn>, rows: &str) -> Result<MemoryEngine, CaseFault>
    ensures { IfOk result IsFresh }
{
    let mut bodies = Vec::new(alloc);
    for word in rows.split_whitespace() {
        bodies.push(body_of(alloc, word)?)?;
    }
    Ok(MemoryEngine::new(alloc, MemoryWorld::new(alloc, bodies), turns))
}

/// Puts a row, and says whether it is put.
fn put_word(
    alloc: Global,
    engine: &mut MemoryEngine,
    hold: &mut Hold,
    word: &str,
) -> Result<bool, CaseFault>
    requires held { HoldsBoard hold.old engine.old }
    ensures held { HoldsBoard hold.new engine.new }
{
    let Ok(body) = body_of(alloc, word) else {
        return Err(CaseFault::NoMemory);
    };
    match put(engine, hold, &body, TRIES) {
        Ok(()) => Ok(true),
        Err(EngineFault::NoAnswer) => Ok(false),
        Err(EngineFault::NoMemory) => Err(CaseFault::NoMemory),
    }
}

/// Puts rows, and tells of each.
fn put_words(
    alloc: Global,
    engine: &mut MemoryEngine,
    hold: &mut Hold,
    words: &str,
    out: &mut String,
) -> Result<(), CaseFault>
    requires held { HoldsBoard hold.old engine.old }
{
    for word in words.split_whitespace() {
        if put_word(alloc, engine, hold, word)? {
            writeln!(out, "> put {word}")?;
        } else {
            writeln!(out, "> failed {word}")?;
        }
    }
    Ok(())
}

/// Tells of a row that is there, or that there is none.
fn tell_row(engine: &mut MemoryEngine, serial: u32, out: &mut String) -> Result<bool, CaseFault> {
    match engine.row(serial) {
        Ok(Some(body)) => {
            let Ok(word) = str::from_utf8(body.as_slice()) else {
                return Err(CaseFault::BadCase);
            };
            write!(out, " {word}")?;
            Ok(true)
        }
        Ok(None) => Ok(false),
        Err(_) => Err(CaseFault::BadCase),
    }
}

/// Tells of all rows that are there.
fn tell_rows(engine: &mut MemoryEngine, out: &mut String) -> Result<(), CaseFault> {
    out.push_str("> there")?;
    for serial in 0..u32::MAX {
        if !tell_row(engine, serial, out)? {
            break;
        }
    }
    Ok(out.push_str("\n")?)
}

/// Tells what the owner knows.
fn tell_hold(hold: Hold, out: &mut String) -> Result<(), CaseFault> {
    writeln!(out, "> vouched {}", hold.count)?;
    if hold.lost {
        out.push_str("> lost\n")?;
    }
    Ok(())
}

/// What comes of rows that are put, each a word, over rows that are there, by turns, the first of
/// them last.
pub fn outcome(
    alloc: Global,
    turns: Vec<Turn>,
    rows: &str,
    bodies: &str,
) -> Result<String, CaseFault> {
    let mut out = String::new(alloc);
    let mut engine = store_of(alloc, turns, rows)?;
    match open(&mut engine) {
        Ok(Some(taken)) => {
            let mut hold = taken;
            writeln!(out, "> taken {}", hold.count)?;
            put_words(alloc, &mut engine, &mut hold, bodies, &mut out)?;
            tell_hold(hold, &mut out)?;
        }
        Ok(None) => out.push_str("> not taken\n")?,
        Err(_) => out.push_str("> no answer\n")?,
    }
    tell_rows(&mut engine, &mut out)?;
    Ok(out)
}
