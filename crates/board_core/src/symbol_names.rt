// The names of the library symbols that the objects of a project have, or had.
ghost use Rattle.std.specs.Prelude.{◌≡◌, ℕ, List, None, Some, MatchOption, IfOk, OnOk, map, true, false};
ghost use Rattle.std.specs.FinMap.{entries};
ghost use Rattle.std.specs.HashSet.{contains_text};
ghost use Rattle.project_model.specs.Projects.{ProjectData};
ghost use Rattle.project_model.specs.Changes.{put};
ghost use Rattle.project_model.specs.Tables.{row_now};
ghost use Rattle.board_core.specs.Changed.{is_symbol};
ghost use Rattle.board_core.specs.steps.SymbolNames.{AreKnown, HasNoneKnown, IsKnown, KnowsMore, library_name, name_beside};

use crate::rows::given_rows;
use geda_model::{Body, Component, Object};
use project_model::{Change, Placed, Project, Thing, Value};
use std::alloc::{AllocError, Global};
use std::collections::HashSet;

fn name_beside(component: &Component) -> Option<&str>
    ensures { MatchOption result
        (name_beside component.now.basename component.now.embedded ≡ None)
        (λ name. name_beside component.now.basename component.now.embedded ≡ Some name.now) }
{
    match &component.embedded {
        Some(_) => None,
        None => Some(component.basename.as_str()),
    }
}

/// The name of the library symbol of an object: a shape has none, nor has a component with an
/// embedded symbol. It takes no memory.
fn library_name(object: &Object) -> Option<&str>
    ensures { MatchOption result (library_name object.now ≡ None)
        (λ name. library_name object.now ≡ Some name.now) }
{
    match &object.body {
        Body::Shape(_) => None,
        Body::Component(component) => name_beside(component),
    }
}

fn learn_name(alloc: Global, names: &mut HashSet<String>, name: &str) -> Result<(), AllocError>
    ensures more { KnowsMore (contains_text names.old) (contains_text names.new) }
    ensures known { OnOk result (contains_text names.new name.now ≡ true) }
{
    if names.contains(name) {
        return Ok(());
    }
    names.insert(String::from_str(alloc, name)?)?;
    Ok(())
}

fn learn_object(
    alloc: Global,
    names: &mut HashSet<String>,
    object: &Object,
) -> Result<(), AllocError>
    ensures more { KnowsMore (contains_text names.old) (contains_text names.new) }
    ensures known { OnOk result (IsKnown (contains_text names.new) (library_name object.now)) }
{
    match library_name(object) {
        Some(name) => learn_name(alloc, names, name),
        None => Ok(()),
    }
}

fn learn_rows(
    alloc: Global,
    names: &mut HashSet<String>,
    rows: &[(u32, &Placed)],
) -> Result<(), AllocError>
    ensures more { KnowsMore (contains_text names.old) (contains_text names.new) }
    ensures known { OnOk result (AreKnown (contains_text names.new) (map row_now rows.now)) }
{
    for row in rows {
        learn_object(alloc, names, &row.1.object)?;
    }
    Ok(())
}

/// Names among which are those of the library symbols of all objects of a project.
pub(crate) fn names_in(alloc: Global, project: &Project) -> Result<HashSet<String>, AllocError>
    ensures { IfOk result (λ names. AreKnown (contains_text names)
        (entries project.now.contents.objects)) }
{
    let rows = project.objects_by_id(alloc)?;
    let mut names = HashSet::new(alloc);
    learn_rows(alloc, &mut names, &rows)?;
    Ok(names)
}

/// Adds the names of the library symbols of the objects that a change gives.
pub(crate) fn learn_change(
    alloc: Global,
    names: &mut HashSet<String>,
    change: &Change,
) -> Result<(), AllocError>
    ensures still { (p : ProjectData)
        → AreKnown (contains_text names.old) (entries p.objects)
        → AreKnown (contains_text names.new) (entries p.objects) }
    ensures known { OnOk result ((p : ProjectData)
        → AreKnown (contains_text names.old) (entries p.objects)
        → AreKnown (contains_text names.new) (entries (put p change.now.items).objects)) }
{
    let rows = given_rows(alloc, change.items.as_slice())?;
    learn_rows(alloc, names, &rows)
}

/// Whether a thing is a symbol of one of these names. It takes no memory.
fn is_among(names: &HashSet<String>, thing: &Thing) -> bool
    ensures { result ≡ false → (name : List ℕ)
        → contains_text names.now name ≡ true → is_symbol name thing.now ≡ false }
{
    match thing {
        Thing::SymbolName(name) => names.contains(name.as_str()),
        _ => false,
    }
}

/// Whether a change has a symbol of one of these names. It takes no memory.
pub(crate) fn has_any(names: &HashSet<String>, items: &[(Thing, Option<Value>)]) -> bool
    ensures { result ≡ false → HasNoneKnown (contains_text names.now) items.now }
{
    for item in items {
        if is_among(names, &item.0) {
            return true;
        }
    }
    false
}
