// The project of the files of a folder.
ghost use Rattle.std.specs.Prelude.{◌≡◌, ◌≢◌, ◌-◌, ◌^◌, ◌≤◌, IfOk, min};
ghost use Rattle.std.specs.List.{AllPairs};
ghost use Rattle.geda_defs.specs.Contents.{KeepsFiles};
ghost use Rattle.outside.specs.Counts.{counts};
ghost use Rattle.project_files.specs.Measures.{LeavesIds, symbols_text};
ghost use Rattle.project_files.specs.ProjectFiles.{GathersFrom, IsFolderAnswer, with_view};

use crate::fault::FileFault;
use crate::folder::Folder;
use crate::gathering::gather;
use crate::opening::opened;
use crate::project_text::bytes_of_symbols;
use geda_model::Name;
use project_model::Project;
use std::alloc::Global;

/// A project of files, and what is known of it beside its contents.
#[derive(Drop)]
pub struct MeasuredProject {
    /// The project.
    pub project: Project,
    /// The bytes of the canonical texts of its symbols, or 18,446,744,073,709,551,615 where they
    /// are more.
    pub symbol_bytes: u64,
}

/// The project of the sheets of these names, which differ: these sheets, those below them, and the
/// symbols that they ask for (docs/RULES.md, "The project of the files"). With it come the bytes of
/// its symbols, and that each object has an id that leaves room for the next one.
///
/// The first fault in the order of reading is told: `Missing` where there is no file of one of the
/// names, and `Refused` where the file of a sheet or of a symbol is refused. After all reading
/// `TooManyObjects` and `ProjectFull` tell that a limit is passed (docs/FORMATS.md, "Limits").
/// `FolderFault` only where the folder's count of faults rose. All files stay.
pub fn measured_project_of<F: Folder>(
    alloc: Global,
    names: &[Name],
    folder: &mut F,
) -> Result<MeasuredProject, FileFault>
    requires { AllPairs ◌≢◌ names.now }
    ensures project { IsFolderAnswer (counts (F.faults folder.old) (F.faults folder.new))
        (GathersFrom (F.files folder.old) names.now) (with_view (λ m. m.project.contents) result) }
    ensures symbols { IfOk result
        (λ m. m.symbol_bytes ≡ min (symbols_text m.project.contents) (2 ^ 64 - 1)) }
    ensures ids { IfOk result (λ m. LeavesIds m.project.contents) }
    ensures later { F.faults folder.old ≤ F.faults folder.new }
    ensures files { KeepsFiles (F.files folder.old) (F.files folder.new) }
{
    let gathered = gather(alloc, names, folder)?;
    let symbol_bytes = bytes_of_symbols(&gathered.symbols);
    match opened(alloc, gathered) {
        Ok(project) => Ok(MeasuredProject {
            project,
            symbol_bytes,
        }),
        Err(fault) => Err(fault),
    }
}

/// The same project alone, with the same faults. All files stay.
pub fn project_of<F: Folder>(
    alloc: Global,
    names: &[Name],
    folder: &mut F,
) -> Result<Project, FileFault>
    requires { AllPairs ◌≢◌ names.now }
    ensures project { IsFolderAnswer (counts (F.faults folder.old) (F.faults folder.new))
        (GathersFrom (F.files folder.old) names.now) (with_view (λ p. p.contents) result) }
    ensures later { F.faults folder.old ≤ F.faults folder.new }
    ensures files { KeepsFiles (F.files folder.old) (F.files folder.new) }
{
    match measured_project_of(alloc, names, folder) {
        Ok(measured) => Ok(measured.project),
        Err(fault) => Err(fault),
    }
}
