// The lines that faults print, and their statuses.
ghost use Rattle.std.specs.Prelude.{◌≡◌, ◌++◌, IfOk, IsErr, codes, string_bytes};
ghost use Rattle.std.specs.Fmt.{decimal};
ghost use Rattle.std.specs.Cow.{cow_str_bytes};
ghost use Rattle.printed_texts.specs.PrintedTexts.{word};
ghost use Rattle.gafd_run.specs.Faults.{edit_fault_name, error_line, status_of};
ghost use Rattle.gafd_run.specs.Faults.{table_kind_name};
ghost use Rattle.outside.specs.Counts.{counts};
ghost use Rattle.sinks.specs.Streams.{stream};
ghost use Rattle.gafd_run.specs.Runs.{SaidLine};
ghost use Rattle.gafd_run.specs.steps.Passing.{Reports, TakesMemory};

use crate::fault::RunFault;
use edit_entries::EditFault;
use geda_model::Line;
use printed_texts::name_words;
use sinks::Sink;
use std::alloc::{AllocError, Global};
use std::borrow::CowStr;
use table_files::TableKind;

const OUT_OF_MEMORY: &str = "gafd: out of memory\n";

fn status_of(fault: &RunFault) -> u8
    ensures { result ≡ status_of fault.now }
{
    match fault {
        RunFault::Missing { .. }
        | RunFault::Refused { .. }
        | RunFault::EditRefused { .. }
        | RunFault::TableRefused { .. }
        | RunFault::BadToml { .. }
        | RunFault::BadRows { .. }
        | RunFault::TooManyObjects
        | RunFault::ProjectFull
        | RunFault::TooManyInstances
        | RunFault::NameClash { .. }
        | RunFault::PinSet { .. }
        | RunFault::TwoNets { .. }
        | RunFault::NoValue { .. } => 1,
        RunFault::Usage => 2,
        RunFault::FolderFault => 3,
        RunFault::OutputFault => 4,
        RunFault::KeeperFault => 5,
        RunFault::RowRefused { .. } => 6,
        RunFault::GateFault => 8,
        RunFault::RowDiffers { .. } => 10,
        RunFault::NoPlace => 11,
        RunFault::NoMemory => 71,
    }
}

fn edit_fault_name(fault: EditFault) -> &'static str
    ensures { result.now ≡ edit_fault_name fault }
{
    match fault {
        EditFault::NoSheet => "NoSheet",
        EditFault::SheetExists => "SheetExists",
        EditFault::NoSymbol => "NoSymbol",
        EditFault::SymbolExists => "SymbolExists",
        EditFault::NoObject { .. } => "NoObject",
        EditFault::NotOnKind { .. } => "NotOnKind",
        EditFault::BadText { .. } => "BadText",
        EditFault::OutOfRange { .. } => "OutOfRange",
        EditFault::Stale { .. } => "Stale",
        EditFault::NotYours => "NotYours",
        EditFault::UndoneAlready { .. } => "UndoneAlready",
        EditFault::UndoBlocked { .. } => "UndoBlocked",
        EditFault::SheetInUse { .. } => "SheetInUse",
        EditFault::BaseAhead { .. } => "BaseAhead",
        EditFault::NumberGap { .. } => "NumberGap",
        EditFault::NumberReused { .. } => "NumberReused",
        EditFault::TooManyObjects => "TooManyObjects",
        EditFault::ProjectFull => "ProjectFull",
        EditFault::HistoryFull => "HistoryFull",
        EditFault::NoSuchEntry => "NoSuchEntry",
        EditFault::NoAttribute { .. } => "NoAttribute",
    }
}

fn table_kind_name(kind: TableKind) -> &'static str
    ensures { result.now ≡ table_kind_name kind }
{
    match kind {
        TableKind::TooLarge => "TooLarge",
        TableKind::NoHeader => "NoHeader",
        TableKind::NotUtf8 => "NotUtf8",
        TableKind::BadName => "BadName",
        TableKind::BadWidth => "BadWidth",
        TableKind::BadId => "BadId",
        TableKind::BadValue => "BadValue",
    }
}

/// The line of a file, of which something is said.
fn file_line(alloc: Global, file: &str, said: &str) -> Result<CowStr<'static>, AllocError>
    ensures { IfOk result (λ line. cow_str_bytes line ≡ codes "gafd: " ++ file.now ++ said.now) }
{
    Ok(CowStr::Owned(format!(in alloc; "gafd: {file}{said}")?))
}

/// The line of a sheet of which an edit is refused.
fn edit_line(alloc: Global, file: &str, kind: &str) -> Result<String, AllocError>
    ensures { IfOk result (λ text. string_bytes text
        ≡ codes "gafd: " ++ file.now ++ codes ": " ++ kind.now ++ codes "\n") }
{
    format!(in alloc; "gafd: {file}: {kind}\n")
}

/// The line of a file that is refused.
fn refused_line(alloc: Global, file: &str, line: u32, kind: &str) -> Result<String, AllocError>
    ensures { IfOk result (λ text. string_bytes text ≡ codes "gafd: " ++ file.now
        ++ codes ":" ++ decimal line ++ codes ": " ++ kind.now ++ codes "\n") }
{
    format!(in alloc; "gafd: {file}:{line}: {kind}\n")
}

/// The line of a package that keeps a net list from being a circuit, under the name of its fault.
fn package_line(alloc: Global, kind: &str, refdes: &Line) -> Result<CowStr<'static>, AllocError>
    ensures { IfOk result (λ line. cow_str_bytes line ≡ codes "gafd: " ++ kind.now
        ++ codes " " ++ word refdes.now ++ codes "\n") }
{
    let words = name_words(alloc, refdes.as_str())?;
    let refdes = words.as_str();
    Ok(CowStr::Owned(format!(in alloc; "gafd: {kind} {refdes}\n")?))
}

/// The line of a stored row that is not accepted.
fn row_line(alloc: Global, serial: u32) -> Result<String, AllocError>
    ensures { IfOk result (λ text. string_bytes text
        ≡ codes "gafd: stored row " ++ decimal serial ++ codes " refused\n") }
{
    format!(in alloc; "gafd: stored row {serial} refused\n")
}

/// The line of a row that differs.
fn difference_line(alloc: Global, serial: u32) -> Result<String, AllocError>
    ensures { IfOk result (λ text. string_bytes text
        ≡ codes "gafd: row " ++ decimal serial ++ codes " differs\n") }
{
    format!(in alloc; "gafd: row {serial} differs\n")
}

/// The line of a fault. Only one that names a file, a package or a row takes memory.
fn error_line(alloc: Global, fault: &RunFault) -> Result<CowStr<'static>, AllocError>
    ensures line { IfOk result (λ line. cow_str_bytes line ≡ error_line fault.now) }
    ensures made { IsErr result → TakesMemory fault.now }
{
    match fault {
        RunFault::Missing { file } => file_line(alloc, file.as_str(), ": missing\n"),
        RunFault::Refused { file, line, kind } => {
            let text = refused_line(alloc, file.as_str(), *line, kind.name())?;
            Ok(CowStr::Owned(text))
        }
        RunFault::EditRefused { file, fault } => {
            let text = edit_line(alloc, file.as_str(), edit_fault_name(*fault))?;
            Ok(CowStr::Owned(text))
        }
        RunFault::TableRefused { file, row, kind } => {
            let text = refused_line(alloc, file.as_str(), *row, table_kind_name(*kind))?;
            Ok(CowStr::Owned(text))
        }
        RunFault::BadToml { file } => file_line(alloc, file.as_str(), ": BadToml\n"),
        RunFault::BadRows { file } => file_line(alloc, file.as_str(), ": BadRows\n"),
        RunFault::TooManyObjects => Ok(CowStr::Borrowed("gafd: TooManyObjects\n")),
        RunFault::ProjectFull => Ok(CowStr::Borrowed("gafd: ProjectFull\n")),
        RunFault::TooManyInstances => Ok(CowStr::Borrowed("gafd: TooManyInstances\n")),
        RunFault::NameClash { refdes } => package_line(alloc, "NameClash", refdes),
        RunFault::PinSet { refdes } => package_line(alloc, "PinSet", refdes),
        RunFault::TwoNets { refdes } => package_line(alloc, "TwoNets", refdes),
        RunFault::NoValue { refdes } => package_line(alloc, "NoValue", refdes),
        RunFault::Usage => Ok(CowStr::Borrowed("gafd: usage\n")),
        RunFault::FolderFault => Ok(CowStr::Borrowed("gafd: folder fault\n")),
        RunFault::OutputFault => Ok(CowStr::Borrowed("gafd: output fault\n")),
        RunFault::KeeperFault => Ok(CowStr::Borrowed("gafd: keeper fault\n")),
        RunFault::RowRefused { serial } => Ok(CowStr::Owned(row_line(alloc, *serial)?)),
        RunFault::RowDiffers { serial } => Ok(CowStr::Owned(difference_line(alloc, *serial)?)),
        RunFault::GateFault => Ok(CowStr::Borrowed("gafd: gate fault\n")),
        RunFault::NoPlace => Ok(CowStr::Borrowed("gafd: no place\n")),
        RunFault::NoMemory => Ok(CowStr::Borrowed(OUT_OF_MEMORY)),
    }
}

fn say<E: Sink>(line: &str, err: &mut E)
    ensures { SaidLine (stream (E.written err.old) (E.written err.new)
        (counts (E.faults err.old) (E.faults err.new))) line.now }
{
    let _ = err.write(line.as_bytes());
}

/// Prints the line of want of memory and answers its status. It takes no memory.
pub fn report_want_of_memory<E: Sink>(err: &mut E) -> u8
    ensures status { result ≡ status_of RunFault.NoMemory }
    ensures said { SaidLine (stream (E.written err.old) (E.written err.new)
        (counts (E.faults err.old) (E.faults err.new))) (error_line RunFault.NoMemory) }
{
    say(OUT_OF_MEMORY, err);
    status_of(&RunFault::NoMemory)
}

/// Prints the line of a fault and answers its status. Where a line that names a file, a package or
/// a row finds no memory, they are those of want of memory.
pub fn report<E: Sink>(alloc: Global, fault: &RunFault, err: &mut E) -> u8
    ensures { Reports (stream (E.written err.old) (E.written err.new)
        (counts (E.faults err.old) (E.faults err.new))) fault.now result }
{
    match error_line(alloc, fault) {
        Ok(line) => {
            say(line.as_str(), err);
            status_of(fault)
        }
        Err(AllocError) => report_want_of_memory(err),
    }
}
