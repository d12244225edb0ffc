// The files of symbols, each as it is read and checked.
ghost use Rattle.std.specs.Prelude.{◌≤◌, []};
ghost use Rattle.geda_defs.specs.Contents.{KeepsFiles};
ghost use Rattle.geda_grammar.specs.Faults.{symbol_file};
ghost use Rattle.outside.specs.Counts.{counts};
ghost use Rattle.project_files.specs.FileReads.{ReadAs};
ghost use Rattle.project_files.specs.ProjectFiles.{IsAnswer, IsFolderAnswer, with_view};
ghost use Rattle.project_files.specs.declared.fault.FileFault.TheVariants.{Refused};
ghost use Rattle.symbol_files.specs.CheckedFiles.{ChecksFrom, FileChecksFrom, IsCheckOf};

use geda_model::{Items, Name};
use project_files::{FileFault, Folder, symbol_in};
use std::alloc::Global;
use sym_check::{CheckedFile, check_symbol};

/// What is found in the symbol that the bytes of the file of this name spell.
fn checked_in(alloc: Global, name: &Name, bytes: &[u8]) -> Result<CheckedFile, FileFault>
    ensures { IsAnswer (ReadAs symbol_file (Refused name.now) (IsCheckOf name.now) bytes.now)
        result }
{
    let symbol = symbol_in(alloc, name, bytes)?;
    let findings = check_symbol(alloc, &symbol)?;
    let file = name.clone()?;
    Ok(CheckedFile {
        file,
        findings: Items::from_vec(findings),
    })
}

/// What is found in the symbol of a file. `Missing` where there is no such file.
fn check_file<F: Folder>(
    alloc: Global,
    name: &Name,
    folder: &mut F,
) -> Result<CheckedFile, FileFault>
    ensures read { IsFolderAnswer (counts (F.faults folder.old) (F.faults folder.new))
        (FileChecksFrom (F.files folder.old) name.now) result }
    ensures later { F.faults folder.old ≤ F.faults folder.new }
    ensures files { KeepsFiles (F.files folder.old) (F.files folder.new) }
{
    match folder.read(alloc, name.as_str())? {
        Some(bytes) => checked_in(alloc, name, &bytes),
        None => Err(FileFault::Missing {
            file: name.clone()?,
        }),
    }
}

/// What is found in the symbols of the files of these names, in their order (docs/RULES.md, "Symbol
/// check").
///
/// The first fault in that order is told: `Missing` where there is no such file, and `Refused`
/// where the file is refused as a symbol. `FolderFault` only where the folder's count of faults
/// rose. All files stay.
pub fn checked_files<F: Folder>(
    alloc: Global,
    names: &[Name],
    folder: &mut F,
) -> Result<Vec<CheckedFile>, FileFault>
    ensures read { IsFolderAnswer (counts (F.faults folder.old) (F.faults folder.new))
        (ChecksFrom (F.files folder.old) [] names.now) (with_view (λ v. v.items) result) }
    ensures later { F.faults folder.old ≤ F.faults folder.new }
    ensures files { KeepsFiles (F.files folder.old) (F.files folder.new) }
{
    let mut checked = Vec::new(alloc);
    for name in names {
        let file = check_file(alloc, name, folder)?;
        checked.push(file)?;
    }
    Ok(checked)
}
