// Changes of one thing, and projects that are changed and changed back.
ghost use Rattle.std.specs.Prelude.{IfOk};
ghost use Rattle.project_model.specs.Changes.{CanApply};

use case_projects::project_in;
use case_tables::{CaseFault, TableFiles, name_of, number_of};
use geda_read::{ReadFault, read_symbol};
use project_model::{Change, Project, Thing, Value};
use std::alloc::{AllocError, Global};

/// What was read of bytes.
fn read<T: Drop>(read: Result<T, ReadFault>) -> Result<T, CaseFault> {
    match read {
        Ok(value) => Ok(value),
        Err(ReadFault::At { .. }) => Err(CaseFault::BadCase),
        Err(ReadFault::NoMemory) => Err(CaseFault::NoMemory),
    }
}

/// The change that gives the symbol of a name the parts of a file.
fn symbol_change(
    alloc: Global,
    name: &str,
    file: &str,
    files: &TableFiles,
) -> Result<Change, CaseFault>
    ensures fits { IfOk result (λ change. CanApply change.items) }
{
    let symbol = read(read_symbol(alloc, files.find(file)?))?;
    let thing = Thing::SymbolName(name_of(alloc, name)?);
    Ok(Change::one(alloc, thing, Some(Value::Symbol(symbol)))?)
}

/// The change that takes an object out.
fn object_change(alloc: Global, id: &str) -> Result<Change, CaseFault>
    ensures fits { IfOk result (λ change. CanApply change.items) }
{
    let id = number_of(id)?;
    if id == 4294967295 {
        return Err(CaseFault::BadCase);
    }
    Ok(Change::one(alloc, Thing::Object(id), None)?)
}

/// The change that words ask for: `2` takes that object out, and `a.sym=b.sym` gives a symbol the
/// parts of another file.
pub fn change_of(alloc: Global, words: &str, files: &TableFiles) -> Result<Change, CaseFault>
    ensures fits { IfOk result (λ change. CanApply change.items) }
{
    match words.split_once('=') {
        Some((name, file)) => symbol_change(alloc, name, file, files),
        None => object_change(alloc, words),
    }
}

/// The sheets, all objects with their sheets, and the next id.
fn put_project(alloc: Global, out: &mut String, project: &Project) -> Result<(), AllocError> {
    out.push_str(">")?;
    for name in project.sheet_names(alloc)? {
        write!(out, " {}", name.as_str())?;
    }
    for (id, placed) in project.objects_by_id(alloc)? {
        write!(out, " {id}:{}", placed.sheet.as_str())?;
    }
    writeln!(out, " next {}", project.next_id())
}

/// Changes a project, and changes it back.
fn put_changes(
    alloc: Global,
    out: &mut String,
    project: &mut Project,
    change: Change,
) -> Result<(), AllocError>
    requires { CanApply change.items }
{
    project.reserve(alloc, &change)?;
    let back = project.apply(change);
    put_project(alloc, out, project)?;
    project.reserve(alloc, &back)?;
    project.apply(back);
    put_project(alloc, out, project)
}

fn changes_text(
    alloc: Global,
    project: &Project,
    copy: &mut Project,
    change: Change,
) -> Result<String, AllocError>
    requires { CanApply change.items }
{
    let mut out = String::new(alloc);
    put_changes(alloc, &mut out, copy, change)?;
    put_project(alloc, &mut out, project)?;
    Ok(out)
}

fn changed_text(
    alloc: Global,
    project: &Project,
    change: &str,
    files: &TableFiles,
) -> Result<String, CaseFault> {
    let change = change_of(alloc, change, files)?;
    let mut copy = project.copy(alloc)?;
    let text = changes_text(alloc, project, &mut copy, change);
    drop(copy);
    Ok(text?)
}

/// What a copy of a project has after a change, `s.sch after 2`, after that was undone, and before
/// it.
pub fn changed(alloc: Global, words: &str, files: &TableFiles) -> Result<String, CaseFault> {
    let (sheets, change) = words.split_once(" after ").ok_or(CaseFault::BadCase)?;
    let project = project_in(alloc, sheets, files)?;
    let text = changed_text(alloc, &project, change, files);
    drop(project);
    text
}
