// Why a table is not filled into the file of a sheet.
ghost use Rattle.std.specs.Prelude.{◌≡◌};
ghost use Rattle.table_files.specs.Faults.{IsUnread, row_fault};
ghost use Rattle.table_files.specs.declared.fault.TableFileFault.TheVariants.{NoMemory, TableRefused};

use attr_table::TableFault;
use edit_entries::EditFault;
use geda_grammar::ReadKind;
use geda_model::Name;
use geda_read::ReadFault;
use std::alloc::{AllocError, AllocFailed};

/// What is wrong with a table.
#[derive(Clone, Copy, Debug, PartialEq, Eq)]
pub enum TableKind {
    /// It has over 4,194,304 bytes.
    TooLarge,
    /// There is no record, or the first field of the first is not `id`.
    NoHeader,
    /// A field is not UTF-8.
    NotUtf8,
    /// A name in the first record is empty, has `=`, ends with a space, or stands before.
    BadName,
    /// The record has not as many fields as the first.
    BadWidth,
    /// The first field is not 1 to 10 digits, or names no component of the sheet, or one of an
    /// earlier record.
    BadId,
    /// A value is to be set that can't be one.
    BadValue,
}

/// Why a sheet has no table, or a table is not filled into it (docs/RULES.md, "Attributes as a
/// table").
#[derive(Debug, Drop)]
pub enum TableFileFault {
    /// The file of the sheet is refused.
    Refused {
        /// Its name.
        file: Name,
        /// The line of its fault, from 1.
        line: u32,
        /// The kind of its fault.
        kind: ReadKind,
    },
    /// An edit of the sheet is refused.
    EditRefused {
        /// The name of the sheet's file.
        file: Name,
        /// Why.
        fault: EditFault,
    },
    /// The table is refused.
    TableRefused {
        /// The name of its file.
        file: Name,
        /// The record of its fault, from 1.
        row: u32,
        /// The kind of its fault.
        kind: TableKind,
    },
    /// Memory ran out.
    NoMemory,
}

impl From<AllocError> for TableFileFault {
    ghost from_gives = { λ _ e. e ≡ NoMemory };

    fn from(_: AllocError) -> TableFileFault {
        TableFileFault::NoMemory
    }
}

impl<T: Drop> From<AllocFailed<T>> for TableFileFault {
    ghost from_gives = { λ _ e. e ≡ NoMemory };

    fn from(_: AllocFailed<T>) -> TableFileFault {
        TableFileFault::NoMemory
    }
}

/// The fault of the file of a sheet that the reader refuses.
pub(crate) fn unread(file: Name, fault: ReadFault) -> TableFileFault
    ensures { IsUnread file fault result }
{
    match fault {
        ReadFault::At { read: kind, line } => TableFileFault::Refused { file, line, kind },
        ReadFault::NoMemory => TableFileFault::NoMemory,
    }
}

/// The fault of the table in the file of this name.
pub(crate) fn refused(file: Name, row: u32, kind: TableKind) -> TableFileFault
    ensures { result ≡ TableRefused file row kind }
{
    TableFileFault::TableRefused { file, row, kind }
}

/// The fault of a table, with its record: the first for those of the first record.
pub(crate) fn row_fault(file: Name, fault: TableFault) -> TableFileFault
    ensures { result ≡ row_fault file fault }
{
    match fault {
        TableFault::NoHeader => refused(file, 1, TableKind::NoHeader),
        TableFault::NotUtf8 { row } => refused(file, row, TableKind::NotUtf8),
        TableFault::BadName { .. } => refused(file, 1, TableKind::BadName),
        TableFault::BadWidth { row } => refused(file, row, TableKind::BadWidth),
        TableFault::BadId { row } => refused(file, row, TableKind::BadId),
        TableFault::BadValue { row, .. } => refused(file, row, TableKind::BadValue),
        TableFault::NoMemory => TableFileFault::NoMemory,
    }
}
