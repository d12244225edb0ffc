// The files of sheets and of symbols, each as it is read.
ghost use Rattle.std.specs.Prelude.{◌≡◌, ◌≤◌, IfOk, Some, None, if◌then◌else◌};
ghost use Rattle.geda_defs.specs.Contents.{KeepsFiles};
ghost use Rattle.geda_grammar.specs.Faults.{sheet_file, symbol_file};
ghost use Rattle.geda_model.specs.Names.{is_name};
ghost use Rattle.project_files.specs.FileReads.{WasRead, ReadAs};
ghost use Rattle.project_files.specs.Gathering.{asked_symbol};
ghost use Rattle.outside.specs.Counts.{counts};
ghost use Rattle.project_files.specs.ProjectFiles.{IsAnswer, IsFolderAnswer};
ghost use Rattle.project_files.specs.declared.fault.FileFault.TheVariants.{Refused};
ghost use Rattle.project_files.specs.steps.Reading.{SheetFrom, SymbolFrom};

use crate::fault::{FileFault, refused};
use crate::folder::Folder;
use geda_model::{Body, Name, NameFault, Object, Sheet, Symbol};
use geda_read::{read_sheet, read_symbol};
use std::alloc::{AllocError, Global};

/// The Name that a text is. `None` exactly where it is none.
pub fn name_of(alloc: Global, text: &str) -> Result<Option<Name>, AllocError>
    ensures { IfOk result (λ name. name ≡ (if is_name text.now then Some text.now else None)) }
{
    match Name::new(alloc, text) {
        Ok(name) => Ok(Some(name)),
        Err(NameFault::NotAName) => Ok(None),
        Err(NameFault::NoMemory) => Err(AllocError),
    }
}

/// The file of the library symbol that an object asks for.
pub fn asked_symbol(alloc: Global, object: &Object) -> Result<Option<Name>, AllocError>
    ensures { IfOk result (λ name. name ≡ asked_symbol object.now) }
{
    match &object.body {
        Body::Shape(_) => Ok(None),
        Body::Component(component) => match &component.embedded {
            Some(_) => Ok(None),
            None => name_of(alloc, component.basename.as_str()),
        },
    }
}

/// The sheet that the bytes of the file of this name spell.
///
/// `Refused` exactly where they spell none, with the line and the kind of their fault
/// (docs/RULES.md, "Faults").
pub fn sheet_in(alloc: Global, name: &Name, bytes: &[u8]) -> Result<Sheet, FileFault>
    ensures { IsAnswer (ReadAs sheet_file (Refused name.now) WasRead bytes.now) result }
{
    match read_sheet(alloc, bytes) {
        Ok(sheet) => Ok(sheet),
        Err(fault) => Err(refused(name.clone()?, fault)),
    }
}

/// The symbol that the bytes of the file of this name spell.
///
/// `Refused` exactly where they spell none, with the line and the kind of their fault
/// (docs/RULES.md, "Faults").
pub fn symbol_in(alloc: Global, name: &Name, bytes: &[u8]) -> Result<Symbol, FileFault>
    ensures { IsAnswer (ReadAs symbol_file (Refused name.now) WasRead bytes.now) result }
{
    match read_symbol(alloc, bytes) {
        Ok(symbol) => Ok(symbol),
        Err(fault) => Err(refused(name.clone()?, fault)),
    }
}

/// The sheet of a file. `Missing` where there is no such file.
pub fn read_sheet_file<F: Folder>(
    alloc: Global,
    name: &Name,
    folder: &mut F,
) -> Result<Sheet, FileFault>
    ensures read { IsFolderAnswer (counts (F.faults folder.old) (F.faults folder.new))
        (SheetFrom (F.files folder.old) name.now) result }
    ensures later { F.faults folder.old ≤ F.faults folder.new }
    ensures files { KeepsFiles (F.files folder.old) (F.files folder.new) }
{
    match folder.read(alloc, name.as_str())? {
        Some(bytes) => sheet_in(alloc, name, &bytes),
        None => Err(FileFault::Missing {
            file: name.clone()?,
        }),
    }
}

/// The symbol of a file. `None` where there is no such file.
pub fn read_symbol_file<F: Folder>(
    alloc: Global,
    name: &Name,
    folder: &mut F,
) -> Result<Option<Symbol>, FileFault>
    ensures read { IsFolderAnswer (counts (F.faults folder.old) (F.faults folder.new))
        (SymbolFrom (F.files folder.old) name.now) result }
    ensures later { F.faults folder.old ≤ F.faults folder.new }
    ensures files { KeepsFiles (F.files folder.old) (F.files folder.new) }
{
    match folder.read(alloc, name.as_str())? {
        Some(bytes) => {
            let symbol = symbol_in(alloc, name, &bytes)?;
            Ok(Some(symbol))
        }
        None => Ok(None),
    }
}
