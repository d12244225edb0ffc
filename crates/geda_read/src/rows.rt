// What is read, and what is there of it: a sheet, a symbol or one object.
ghost use Rattle.std.specs.Prelude.{◌≡◌, ◌≢◌, ◌≤◌};
ghost use Rattle.geda_model.specs.Limits.{most_objects};
ghost use Rattle.geda_grammar.specs.declared.row.Row.TheVariants as grammar_rows;
ghost use Rattle.sheet_lines.specs.SheetLines.{RowIsInRange};
ghost use Rattle.geda_read.specs.steps.Levels.{Takes};
ghost use Rattle.geda_read.specs.steps.Staying.{Stays};
ghost use Rattle.geda_read.specs.steps.Rows.{is_symbol_file, most_of, objects_in, one_object, parts_in, rows_start, rows_step};

use crate::parts::OpenParts;
use crate::place::OpenSheet;
use crate::refusal::Refusal;
use geda_grammar::Row;
use geda_model::{MOST_OBJECTS, Object, Objects, Parts};
use std::alloc::Global;

/// What a file is read as.
#[derive(Clone, Copy, Debug, PartialEq, Eq)]
pub enum FileMode {
    /// A sheet.
    Sheet,
    /// A symbol.
    Symbol,
    /// One object of a sheet, without a version line.
    Object,
}

impl FileMode {
    /// How many objects there may be.
    pub fn most(self) -> usize
        ensures most { result ≡ most_of self }
        ensures few { result ≤ most_objects }
    {
        match self {
            FileMode::Object => 1,
            _ => MOST_OBJECTS,
        }
    }

    /// Whether no component may stand in the file.
    pub fn is_symbol(self) -> bool
        ensures { result ≡ is_symbol_file self }
    {
        matches!(self, FileMode::Symbol)
    }
}

/// What is there of a file.
#[derive(Drop)]
pub enum OpenRows {
    /// Of a sheet, or of one object.
    Sheet(OpenSheet),
    /// Of a symbol.
    Symbol(OpenParts),
}

impl OpenRows {
    /// Nothing. It takes no memory.
    pub fn new(alloc: Global, mode: FileMode) -> OpenRows
        ensures { result ≡ rows_start mode }
    {
        match mode {
            FileMode::Symbol => OpenRows::Symbol(OpenParts::new(alloc)),
            _ => OpenRows::Sheet(OpenSheet::new(alloc)),
        }
    }

    /// Takes the `]` of the symbol that is open.
    pub fn close_symbol(&mut self, alloc: Global) -> Result<(), Refusal>
        ensures { (mode : FileMode) →
            Takes (λ _. self.new) result (rows_step mode self.old grammar_rows.CloseSymbol) }
    {
        match self {
            OpenRows::Sheet(sheet) => sheet.close_symbol(alloc),
            OpenRows::Symbol(_) => Err(Refusal::Stray),
        }
    }

    /// Takes a row that is no `]`. Where it may not stand nothing changes.
    #[inline(always)]
    pub fn take(&mut self, alloc: Global, mode: FileMode, row: Row) -> Result<(), Refusal>
        requires range { RowIsInRange row }
        requires other { row ≢ grammar_rows.CloseSymbol }
        ensures taken { Takes (λ _. self.new) result (rows_step mode self.old row) }
        ensures stays { Stays result self.old self.new }
    {
        match self {
            OpenRows::Sheet(sheet) => sheet.take(alloc, mode.most(), row),
            OpenRows::Symbol(parts) => parts.take(alloc, row),
        }
    }

    /// The objects of a sheet, where no block and no symbol is open.
    pub fn objects(self) -> Result<Objects, Refusal>
        ensures { Takes (λ v. v) result (objects_in self) }
    {
        match self {
            OpenRows::Sheet(sheet) => sheet.close(),
            OpenRows::Symbol(parts) => {
                drop(parts);
                Err(Refusal::Stray)
            }
        }
    }

    /// The parts of a symbol, where no block is open.
    pub fn parts(self) -> Result<Parts, Refusal>
        ensures { Takes (λ v. v) result (parts_in self) }
    {
        match self {
            OpenRows::Symbol(parts) => parts.close(),
            OpenRows::Sheet(sheet) => {
                drop(sheet);
                Err(Refusal::Stray)
            }
        }
    }

    /// The one object that is asked for, where it is there alone and no block and no symbol is
    /// open.
    pub fn object(self) -> Result<Object, Refusal>
        ensures { Takes (λ v. v) result (one_object self) }
    {
        let mut objects = self.objects()?.into_vec();
        match (objects.pop(), objects.is_empty()) {
            (Some(object), true) => Ok(object),
            (others, _) => {
                drop(others);
                Err(Refusal::Stray)
            }
        }
    }
}
