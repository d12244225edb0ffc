// The files that numbering changes.
ghost use Rattle.std.specs.Prelude.{◌≡◌, ◌-◌, ◌^◌, IfOk, min};
ghost use Rattle.project_files.specs.Measures.{LeavesIds, symbols_text};
ghost use Rattle.project_model.specs.Changes.{CanApply, put};
ghost use Rattle.refdes_renum.specs.Renumbering.{renumbered};
ghost use Rattle.renum_files.specs.RenumberedFiles.{GivesRenumbered, changed_sheets, files_within, renumbered_files};

use crate::changed_sheets::changed_sheets;
use crate::fault::RenumberFault;
use crate::file_text::FileText;
use crate::sheet_texts::{has_too_much_text, sheet_files};
use geda_model::Name;
use project_files::MeasuredProject;
use project_model::{Change, Project};
use refdes_renum::renumber;
use std::alloc::{AllocError, Global};
use std::collections::BTreeSet;
use std::marker::Model;

/// What numbering a project comes to.
#[derive(Debug, Drop)]
pub struct RenumberedFiles {
    /// How many components get a number.
    pub count: usize,
    /// The files of the sheets that change, by name.
    pub files: Vec<FileText>,
}

impl Model for RenumberedFiles {
    ghost use Rattle.renum_files.specs.RenumberedFiles.{RenumberedData};

    ghost Value = { RenumberedData };

    ghost view = { λ r. record { count = r.count; files = r.files.items } };
}

/// The project after a change.
fn changed(alloc: Global, project: Project, change: Change) -> Result<Project, AllocError>
    requires { CanApply change.items }
    ensures { IfOk result (λ after. after.contents ≡ put project.contents change.items) }
{
    let mut project = project;
    project.reserve(alloc, &change)?;
    project.apply(change);
    Ok(project)
}

/// The files of these sheets of a project, whose symbols have texts of so many bytes.
fn files_within(
    alloc: Global,
    project: &Project,
    symbol_bytes: u64,
    names: &BTreeSet<Name>,
) -> Result<Vec<FileText>, RenumberFault>
    requires { symbol_bytes ≡ min (symbols_text project.now.contents) (2 ^ 64 - 1) }
    ensures { GivesRenumbered (λ files. files.items) result
        (files_within project.now.contents names.now.keys) }
{
    let rows = project.objects_by_id(alloc)?;
    if has_too_much_text(project, rows.as_slice(), symbol_bytes) {
        return Err(RenumberFault::ProjectFull);
    }
    Ok(sheet_files(alloc, project, rows.as_slice(), names)?)
}

/// The files of these sheets after a change that leaves the symbols.
fn files_after(
    alloc: Global,
    measured: MeasuredProject,
    change: Change,
    names: &BTreeSet<Name>,
) -> Result<Vec<FileText>, RenumberFault>
    requires symbols { measured.symbol_bytes
        ≡ min (symbols_text (put measured.project.contents change.items)) (2 ^ 64 - 1) }
    requires can_apply { CanApply change.items }
    ensures { GivesRenumbered (λ files. files.items) result
        (files_within (put measured.project.contents change.items) names.now.keys) }
{
    let MeasuredProject {
        project,
        symbol_bytes,
    } = measured;
    let project = changed(alloc, project, change)?;
    files_within(alloc, &project, symbol_bytes, names)
}

/// What it comes to that each component of a project without a number gets one (docs/RULES.md,
/// "Numbering"): how many they are, and the canonical texts of the sheets on which they stand, by
/// name.
///
/// `ProjectFull` exactly where the project then has more text than a project may have
/// (docs/FORMATS.md, "Limits").
pub fn renumbered_files(
    alloc: Global,
    measured: MeasuredProject,
) -> Result<RenumberedFiles, RenumberFault>
    requires symbols { measured.symbol_bytes
        ≡ min (symbols_text measured.project.contents) (2 ^ 64 - 1) }
    requires ids { LeavesIds measured.project.contents }
    ensures { GivesRenumbered (λ r. r) result (renumbered_files measured.project.contents) }
{
    let change = renumber(alloc, &measured.project)?;
    let count = change.len();
    let names = changed_sheets(alloc, change.items.as_slice())?;
    let files = files_after(alloc, measured, change, &names)?;
    Ok(RenumberedFiles { count, files })
}
