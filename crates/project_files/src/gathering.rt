// The files of a project: the sheets that are named, those below them, and their symbols.
ghost use Rattle.std.specs.Prelude.{◌≡◌, ◌≢◌, ◌≤◌, ◌++◌, ◌∷◌, [], IfOk, OnOk, length};
ghost use Rattle.std.specs.List.{AllPairs};
ghost use Rattle.geda_defs.specs.Contents.{KeepsFiles};
ghost use Rattle.outside.specs.Counts.{counts};
ghost use Rattle.project_files.specs.Gathering.{AskedSymbol};
ghost use Rattle.project_files.specs.ProjectFiles.{IsFolderAnswer, with_view};
ghost use Rattle.project_files.specs.steps.Standing.{IsStart, IsWhole, ReadsFrom, ReadsWords};
ghost use Rattle.project_files.specs.steps.Progress.{Asks, gathered};
ghost use Rattle.project_files.specs.steps.Asking.{AsksObjects};

use crate::asking::Asked;
use crate::fault::FileFault;
use crate::file_reads::{read_sheet_file, sheet_in};
use crate::folder::Folder;
use crate::gathered::GatheredFiles;
use geda_model::{Name, Sheet};
use std::alloc::{AllocError, Global};

/// What was gathered, when no sheet waits.
fn finish(alloc: Global, asked: Asked, sheets: Vec<Sheet>) -> Result<GatheredFiles, AllocError>
    ensures all { IfOk result (λ g. g ≡ gathered sheets.items asked) }
    ensures symbols_apart { IfOk result (λ g.
        AllPairs (λ (a b : AskedSymbol). a.0 ≢ b.0) g.symbols) }
{
    let Asked { queue, symbols, .. } = asked;
    let queue = queue.into_iter().collect(alloc)?;
    let symbols = symbols.into_iter().collect(alloc)?;
    Ok(GatheredFiles {
        queue,
        sheets,
        symbols,
    })
}

/// Puts the words into an empty queue, before anything is read.
fn queue_words(names: &[Name], asked: &mut Asked) -> Result<(), AllocError>
    requires words { AllPairs ◌≢◌ names.now }
    requires nothing { IsStart [] asked.old }
    ensures { OnOk result (IsStart names.now asked.new) }
{
    for name in names {
        asked.queue.insert(name.clone()?)?;
    }
    Ok(())
}

/// Puts a sheet behind those that are read, after asking for what its objects need.
fn add_sheet<F: Folder>(
    alloc: Global,
    sheet: Sheet,
    asked: &mut Asked,
    sheets: &mut Vec<Sheet>,
    folder: &mut F,
) -> Result<(), FileFault>
    ensures read { IsFolderAnswer (counts (F.faults folder.old) (F.faults folder.new))
        (Asks (F.files folder.old) asked.old (AsksObjects asked.old sheet.objects))
        (with_view (λ _. asked.new) result) }
    ensures sheets { OnOk result (sheets.new.items ≡ sheets.old.items ++ sheet ∷ []) }
    ensures later { F.faults folder.old ≤ F.faults folder.new }
    ensures files { KeepsFiles (F.files folder.old) (F.files folder.new) }
{
    asked.ask_objects(alloc, sheet.objects.as_slice(), folder)?;
    sheets.push(sheet)?;
    Ok(())
}

/// Reads the sheets of the words, and what they ask for.
fn read_words<F: Folder>(
    alloc: Global,
    names: &[Name],
    asked: &mut Asked,
    sheets: &mut Vec<Sheet>,
    folder: &mut F,
) -> Result<(), FileFault>
    requires words { AllPairs ◌≢◌ names.now }
    requires start { IsStart names.now asked.old }
    requires none { sheets.old.items ≡ [] }
    ensures read { IsFolderAnswer (counts (F.faults folder.old) (F.faults folder.new))
        (ReadsWords (F.files folder.old) names.now)
        (with_view (λ _. (asked.new, sheets.new.items)) result) }
    ensures later { F.faults folder.old ≤ F.faults folder.new }
    ensures files { KeepsFiles (F.files folder.old) (F.files folder.new) }
{
    for name in names {
        let sheet = read_sheet_file(alloc, name, folder)?;
        add_sheet(alloc, sheet, asked, sheets, folder)?;
    }
    Ok(())
}

/// Reads the sheets of the words and all below them, and what they ask for.
fn read_all<F: Folder>(
    alloc: Global,
    names: &[Name],
    asked: &mut Asked,
    sheets: &mut Vec<Sheet>,
    folder: &mut F,
) -> Result<(), FileFault>
    requires words { AllPairs ◌≢◌ names.now }
    requires nothing { IsStart [] asked.old }
    requires none { sheets.old.items ≡ [] }
    ensures read { IsFolderAnswer (counts (F.faults folder.old) (F.faults folder.new))
        (ReadsFrom (F.files folder.old) names.now)
        (with_view (λ _. gathered sheets.new.items asked.new) result) }
    ensures whole { OnOk result (length sheets.new.items ≡ length asked.new.queue) }
    ensures later { F.faults folder.old ≤ F.faults folder.new }
    ensures files { KeepsFiles (F.files folder.old) (F.files folder.new) }
{
    queue_words(names, asked)?;
    read_words(alloc, names, asked, sheets, folder)?;
    while let Some(file) = asked.next_waiting() {
        let sheet = sheet_in(alloc, &file.name, &file.bytes)?;
        add_sheet(alloc, sheet, asked, sheets, folder)?;
    }
    Ok(())
}

/// The sheets of these names, those below them, and the symbols that they ask for (docs/RULES.md,
/// "The project of the files").
pub fn gather<F: Folder>(
    alloc: Global,
    names: &[Name],
    folder: &mut F,
) -> Result<GatheredFiles, FileFault>
    requires { AllPairs ◌≢◌ names.now }
    ensures read { IsFolderAnswer (counts (F.faults folder.old) (F.faults folder.new))
        (ReadsFrom (F.files folder.old) names.now) (with_view (λ g. g) result) }
    ensures whole { IfOk result IsWhole }
    ensures later { F.faults folder.old ≤ F.faults folder.new }
    ensures files { KeepsFiles (F.files folder.old) (F.files folder.new) }
{
    let mut asked = Asked::new(alloc);
    let mut sheets = Vec::new(alloc);
    match read_all(alloc, names, &mut asked, &mut sheets, folder) {
        Ok(()) => Ok(finish(alloc, asked, sheets)?),
        Err(fault) => {
            drop(sheets);
            drop(asked);
            Err(fault)
        }
    }
}
