// Projects whose components get numbers.
ghost use Rattle.project_model.specs.Changes.{IsIdInRange};

use crate::reading::read;
use case_tables::{CaseFault, TableFiles, name_of};
use geda_model::Object;
use geda_read::{read_sheet, read_symbol};
use project_model::{Change, Placed, Project, Thing, Value};
use refdes_renum::renumber;
use std::alloc::{AllocError, Global};

/// Gives a thing of a project a value.
fn put(alloc: Global, project: &mut Project, thing: Thing, value: Value) -> Result<(), AllocError>
    requires { IsIdInRange thing }
{
    let change = Change::one(alloc, thing, Some(value))?;
    project.reserve(alloc, &change)?;
    project.apply(change);
    Ok(())
}

/// Gives an object of a project its value.
fn put_object(
    alloc: Global,
    project: &mut Project,
    id: u32,
    placed: Placed,
) -> Result<(), CaseFault> {
    if id == 4294967295 {
        return Err(CaseFault::BadCase);
    }
    Ok(put(alloc, project, Thing::Object(id), Value::Object(placed))?)
}

/// Puts an object into a sheet, behind the others.
fn place(
    alloc: Global,
    project: &mut Project,
    sheet: &str,
    object: Object,
) -> Result<(), CaseFault> {
    let sheet = name_of(alloc, sheet)?;
    let id = project.next_id();
    put_object(alloc, project, id, Placed { sheet, object })
}

fn put_sheet(
    alloc: Global,
    project: &mut Project,
    file: &str,
    bytes: &[u8],
) -> Result<(), CaseFault> {
    let sheet = read(read_sheet(alloc, bytes))?;
    let name = Thing::SheetName(name_of(alloc, file)?);
    put(alloc, project, name, Value::Head(sheet.head))?;
    for object in sheet.objects.into_vec() {
        place(alloc, project, file, object)?;
    }
    Ok(())
}

fn put_symbol(
    alloc: Global,
    project: &mut Project,
    file: &str,
    bytes: &[u8],
) -> Result<(), CaseFault> {
    let symbol = read(read_symbol(alloc, bytes))?;
    let name = Thing::SymbolName(name_of(alloc, file)?);
    Ok(put(alloc, project, name, Value::Symbol(symbol))?)
}

/// Puts in the files that words name, in their order.
fn put_files(
    alloc: Global,
    project: &mut Project,
    words: &str,
    files: &TableFiles,
) -> Result<(), CaseFault> {
    for word in words.split_whitespace() {
        let bytes = files.find(word)?;
        if word.ends_with(".sym") {
            put_symbol(alloc, project, word, bytes)?;
        } else {
            put_sheet(alloc, project, word, bytes)?;
        }
    }
    Ok(())
}

/// Puts the sheet, the id and the first attached refdes of an object.
fn put_line(out: &mut String, id: u32, placed: &Placed) -> Result<(), AllocError> {
    write!(out, "> {} {id}", placed.sheet.as_str())?;
    for text in placed.object.attrs.as_slice() {
        if let Some(refdes) = text.content.as_str().strip_prefix("refdes=") {
            return writeln!(out, " {refdes}");
        }
    }
    out.push_str("\n")
}

/// Puts what an object gets, and gives it to that object.
fn take_object(
    alloc: Global,
    out: &mut String,
    project: &mut Project,
    id: u32,
    placed: Placed,
) -> Result<(), CaseFault> {
    put_line(out, id, &placed)?;
    put_object(alloc, project, id, placed)
}

/// Puts what an item of a change gives an object, and gives it to that object.
fn take(
    alloc: Global,
    out: &mut String,
    project: &mut Project,
    thing: Thing,
    value: Option<Value>,
) -> Result<(), CaseFault> {
    match (thing, value) {
        (Thing::Object(id), Some(Value::Object(placed))) => {
            take_object(alloc, out, project, id, placed)
        }
        (thing, value) => {
            drop(thing);
            drop(value);
            Err(CaseFault::BadCase)
        }
    }
}

/// Gives the components of a project their numbers.
fn run(alloc: Global, out: &mut String, project: &mut Project) -> Result<(), CaseFault> {
    let change = renumber(alloc, project)?;
    for (thing, value) in change.items.into_vec() {
        take(alloc, out, project, thing, value)?;
    }
    Ok(())
}

fn runs(
    alloc: Global,
    project: &mut Project,
    words: &str,
    files: &TableFiles,
) -> Result<String, CaseFault> {
    put_files(alloc, project, words, files)?;
    let mut out = String::new(alloc);
    run(alloc, &mut out, project)?;
    out.push_str("> again\n")?;
    run(alloc, &mut out, project)?;
    Ok(out)
}

/// The components of the project of some sheets and symbols that get a refdes, each with its sheet
/// and its id; behind them those that get one in a second run.
pub fn number(alloc: Global, words: &str, files: &TableFiles) -> Result<String, CaseFault> {
    let mut project = Project::new(alloc);
    let text = runs(alloc, &mut project, words, files);
    drop(project);
    text
}
