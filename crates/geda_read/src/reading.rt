// Files are read from their bytes.
ghost use Rattle.std.specs.Prelude.{◌≡◌, ◌+◌, ◌≤◌, IfOk, length};
ghost use Rattle.geda_grammar.specs.Faults.{object_file, sheet_file, symbol_file};
ghost use Rattle.geda_read.specs.Answers.{Found, FoundAlways, Told, ToldAlways};
ghost use Rattle.geda_read.specs.declared.rows.FileMode.TheVariants as files;
ghost use Rattle.sheet_lines.specs.steps.Results.{Gives};
ghost use Rattle.geda_read.specs.steps.Files.{Answers, IsCut, end_object, end_sheet, end_symbol, fault_at, read_bytes, start_of, state_of, take_lines};

use crate::fault::ReadFault;
use crate::file::Stage;
use crate::refusal::Refusal;
use crate::rows::FileMode;
use geda_grammar::ReadKind;
use geda_model::{MOST_FILE_BYTES, Object, Sheet, Symbol};
use geda_text::Cutter;
use sheet_lines::LineFault;
use std::alloc::Global;

/// The fault of a line with its number.
fn fault_at(fault: LineFault, line: u32) -> ReadFault
    ensures { result ≡ fault_at fault line }
{
    match fault {
        LineFault::Refused(read) => ReadFault::At { read, line },
        LineFault::NoMemory => ReadFault::NoMemory,
    }
}

/// Takes the lines that are left.
fn take_rest(
    alloc: Global,
    mode: FileMode,
    cutter: &mut Cutter,
    stage: &mut Stage,
) -> Result<(), ReadFault>
    ensures given { Answers (λ _. state_of stage.new) result
        (take_lines mode (state_of stage.old) cutter.old.number cutter.old.lines) }
    ensures number { IfOk result
        (λ _. cutter.new.number ≡ cutter.old.number + length cutter.old.lines) }
{
    while let Some(line) = cutter.next() {
        if let Err(fault) = stage.take(alloc, mode, line) {
            return Err(fault_at(fault, cutter.line()));
        }
    }
    Ok(())
}

/// Takes all lines.
fn take_lines(alloc: Global, mode: FileMode, cutter: &mut Cutter) -> Result<Stage, ReadFault>
    requires { cutter.old.number ≡ 0 }
    ensures given { Answers state_of result
        (take_lines mode (start_of mode) 0 cutter.old.lines) }
    ensures number { IfOk result (λ _. cutter.new.number ≡ length cutter.old.lines) }
{
    let mut stage = Stage::new(alloc, mode);
    match take_rest(alloc, mode, cutter, &mut stage) {
        Ok(()) => Ok(stage),
        Err(fault) => {
            drop(stage);
            Err(fault)
        }
    }
}

/// What is there of a sheet behind the last line.
fn end_sheet(stage: Stage) -> Result<Sheet, LineFault>
    ensures { Gives (λ s. s) result (end_sheet (state_of stage)) }
{
    let (head, rows) = stage.end()?;
    match rows.objects() {
        Ok(objects) => Ok(Sheet { head, objects }),
        Err(Refusal::NoMemory) => Err(LineFault::NoMemory),
        Err(Refusal::Stray) => Err(LineFault::Refused(ReadKind::CutShort)),
    }
}

/// What is there of a symbol behind the last line.
fn end_symbol(stage: Stage) -> Result<Symbol, LineFault>
    ensures { Gives (λ s. s) result (end_symbol (state_of stage)) }
{
    let (head, rows) = stage.end()?;
    match rows.parts() {
        Ok(parts) => Ok(Symbol { head, parts }),
        Err(Refusal::NoMemory) => Err(LineFault::NoMemory),
        Err(Refusal::Stray) => Err(LineFault::Refused(ReadKind::CutShort)),
    }
}

/// What is there of one object behind the last line.
fn end_object(stage: Stage) -> Result<Object, LineFault>
    ensures { Gives (λ o. o) result (end_object (state_of stage)) }
{
    let (_, rows) = stage.end()?;
    match rows.object() {
        Ok(object) => Ok(object),
        Err(Refusal::NoMemory) => Err(LineFault::NoMemory),
        Err(Refusal::Stray) => Err(LineFault::Refused(ReadKind::CutShort)),
    }
}

/// The lines of a file that is not too large.
fn cut(bytes: &[u8]) -> Result<Cutter<'_>, ReadFault>
    ensures { IsCut bytes.now result }
{
    if bytes.len() > MOST_FILE_BYTES {
        return Err(ReadFault::At {
            read: ReadKind::TooLarge,
            line: 1,
        });
    }
    Ok(Cutter::new(bytes))
}

#[tactic(auto, unfolding(crate::specs::steps::Files::read_lines, crate::specs::steps::Files::read_bytes), using(crate::proofs::Counting::few_lines))]
fn sheet_in(alloc: Global, bytes: &[u8]) -> Result<Sheet, ReadFault>
    ensures { Answers (λ v. v) result (read_bytes files.Sheet end_sheet bytes.now) }
{
    let mut cutter = cut(bytes)?;
    let stage = take_lines(alloc, FileMode::Sheet, &mut cutter)?;
    match end_sheet(stage) {
        Ok(sheet) => Ok(sheet),
        Err(fault) => Err(fault_at(fault, cutter.line() + 1)),
    }
}

#[tactic(auto, unfolding(crate::specs::steps::Files::read_lines, crate::specs::steps::Files::read_bytes), using(crate::proofs::Counting::few_lines))]
fn symbol_in(alloc: Global, bytes: &[u8]) -> Result<Symbol, ReadFault>
    ensures { Answers (λ v. v) result (read_bytes files.Symbol end_symbol bytes.now) }
{
    let mut cutter = cut(bytes)?;
    let stage = take_lines(alloc, FileMode::Symbol, &mut cutter)?;
    match end_symbol(stage) {
        Ok(symbol) => Ok(symbol),
        Err(fault) => Err(fault_at(fault, cutter.line() + 1)),
    }
}

#[tactic(auto, unfolding(crate::specs::steps::Files::read_lines, crate::specs::steps::Files::read_bytes), using(crate::proofs::Counting::few_lines))]
fn object_in(alloc: Global, bytes: &[u8]) -> Result<Object, ReadFault>
    ensures { Answers (λ v. v) result (read_bytes files.Object end_object bytes.now) }
{
    let mut cutter = cut(bytes)?;
    let stage = take_lines(alloc, FileMode::Object, &mut cutter)?;
    match end_object(stage) {
        Ok(object) => Ok(object),
        Err(fault) => Err(fault_at(fault, cutter.line() + 1)),
    }
}

/// The sheet that the bytes of a file spell.
///
/// `At` exactly where they spell none: with the first line from which no file goes on to be
/// spelled, or the one behind the last where lines are missing, and with the first cause that holds
/// there, in the order of docs/RULES.md, "Faults". `NoMemory` where memory ran out.
pub fn read_sheet(alloc: Global, bytes: &[u8]) -> Result<Sheet, ReadFault>
    ensures found { Found sheet_file bytes.now result }
    ensures always_found { FoundAlways sheet_file bytes.now result }
    ensures told { Told sheet_file bytes.now result }
    ensures always_told { ToldAlways sheet_file bytes.now result }
{
    sheet_in(alloc, bytes)
}

/// The symbol that the bytes of a file spell.
///
/// `At` exactly where they spell none: with the first line from which no file goes on to be
/// spelled, or the one behind the last where lines are missing, and with the first cause that holds
/// there, in the order of docs/RULES.md, "Faults". `NoMemory` where memory ran out.
pub fn read_symbol(alloc: Global, bytes: &[u8]) -> Result<Symbol, ReadFault>
    ensures found { Found symbol_file bytes.now result }
    ensures always_found { FoundAlways symbol_file bytes.now result }
    ensures told { Told symbol_file bytes.now result }
    ensures always_told { ToldAlways symbol_file bytes.now result }
{
    symbol_in(alloc, bytes)
}

/// The object that bytes spell, without a version line. Its first line is line 1.
///
/// `At` exactly where they spell none: with the first line from which no file goes on to be
/// spelled, or the one behind the last where lines are missing, and with the first cause that holds
/// there, in the order of docs/RULES.md, "Faults". `NoMemory` where memory ran out.
pub fn read_object(alloc: Global, bytes: &[u8]) -> Result<Object, ReadFault>
    ensures found { Found object_file bytes.now result }
    ensures always_found { FoundAlways object_file bytes.now result }
    ensures told { Told object_file bytes.now result }
    ensures always_told { ToldAlways object_file bytes.now result }
{
    object_in(alloc, bytes)
}
