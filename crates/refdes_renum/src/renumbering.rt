// The change that gives numbers.
ghost use Rattle.std.specs.Prelude.{◌≡◌, ◌++◌, IfOk, OnOk, codes};
ghost use Rattle.std.specs.FinMap.{get};
ghost use Rattle.std.specs.HashMap.{get_by_text};
ghost use Rattle.std.specs.HashSet.{contains_text};
ghost use Rattle.std.specs.String.{string_bytes};
ghost use Rattle.geda_model.specs.Ranges.{IsContent};
ghost use Rattle.edit_attr.specs.Attributes.{attr_line};
ghost use Rattle.refdes_renum.specs.Numbers.{stem_with_number, stem_of};
ghost use Rattle.refdes_renum.specs.Renumbering.{component_refdeses, renumbered, renumbered_at, stem_at, with_refdes};
ghost use Rattle.refdes_renum.specs.steps.Places.{GivesRefdes, items_by};
ghost use Rattle.refdes_renum.specs.steps.UsedTexts.{AddsText, IsFeedless, SetsNext, Tracks, given_number};

use crate::components::component_refdes;
use crate::place::Place;
use crate::places::{open_places, used_texts};
use crate::stems::stem_of;
use crate::used::UsedTexts;
use edit_attr::set_attr;
use project_model::{Change, Placed, Project, Thing, Value};
use std::alloc::{AllocError, Global};
use std::collections::BTreeSet;

/// The new refdes in place of one, which is in use from then on.
fn give_refdes(alloc: Global, used: &mut UsedTexts, refdes: &str) -> Result<String, AllocError>
    requires line { IsFeedless refdes.now }
    ensures text { IfOk result (λ text. string_bytes text ≡ stem_with_number (stem_of refdes.now)
        (given_number (contains_text used.old.used) (get_by_text used.old.next)
        (stem_of refdes.now))) }
    ensures used { IfOk result (λ text. AddsText (string_bytes text)
        (contains_text used.old.used) (contains_text used.new.used)) }
    ensures next { OnOk result (SetsNext (stem_of refdes.now)
        (given_number (contains_text used.old.used) (get_by_text used.old.next)
        (stem_of refdes.now))
        (get_by_text used.old.next) (get_by_text used.new.next)) }
    ensures content { IfOk result
        (λ text. IsContent (attr_line (codes "refdes") (string_bytes text))) }
{
    used.give(alloc, stem_of(refdes))
}

/// The new refdes of an object, which is in use from then on.
fn new_refdes(
    alloc: Global,
    project: &Project,
    used: &mut UsedTexts,
    placed: &Placed,
) -> Result<String, AllocError>
    ensures text { IfOk result (λ text.
        string_bytes text ≡ stem_with_number (stem_at project.now.contents placed.now)
        (given_number (contains_text used.old.used) (get_by_text used.old.next)
        (stem_at project.now.contents placed.now))) }
    ensures used { IfOk result (λ text. AddsText (string_bytes text)
        (contains_text used.old.used) (contains_text used.new.used)) }
    ensures next { OnOk result (SetsNext (stem_at project.now.contents placed.now)
        (given_number (contains_text used.old.used) (get_by_text used.old.next)
        (stem_at project.now.contents placed.now))
        (get_by_text used.old.next) (get_by_text used.new.next)) }
    ensures content { IfOk result
        (λ text. IsContent (attr_line (codes "refdes") (string_bytes text))) }
{
    match component_refdes(alloc, project, &placed.object)? {
        Some(refdes) => give_refdes(alloc, used, refdes),
        None => give_refdes(alloc, used, ""),
    }
}

/// An object under a new refdes.
fn with_refdes(alloc: Global, placed: &Placed, refdes: &str) -> Result<Placed, AllocError>
    requires content { IsContent (attr_line (codes "refdes") refdes.now) }
    ensures { IfOk result (λ v. v ≡ with_refdes refdes.now placed.now) }
{
    let object = set_attr(alloc, &placed.object, "refdes", refdes)?;
    let sheet = placed.sheet.clone()?;
    Ok(Placed { sheet, object })
}

/// The change gets what comes of the object at a place.
fn renumber_place(
    alloc: Global,
    project: &Project,
    used: &mut UsedTexts,
    change: &mut Change,
    id: u32,
) -> Result<(), AllocError>
    ensures items { OnOk result (change.new.items ≡ change.old.items
        ++ items_by project.now.contents (contains_text used.old.used)
        (get_by_text used.old.next) id (get project.now.contents.objects id)) }
    ensures used { OnOk result (GivesRefdes project.now.contents
        (get project.now.contents.objects id)
        (contains_text used.old.used) (get_by_text used.old.next)
        (contains_text used.new.used) (get_by_text used.new.next)) }
{
    let Some(placed) = project.object(id) else {
        return Ok(());
    };
    let refdes = new_refdes(alloc, project, used, placed)?;
    let value = Value::Object(with_refdes(alloc, placed, refdes.as_str())?);
    change.push(Thing::Object(id), Some(value))
}

/// The change of the objects at some places.
fn renumbered_at(
    alloc: Global,
    project: &Project,
    used: UsedTexts,
    places: &BTreeSet<Place>,
) -> Result<Change, AllocError>
    requires { Tracks (component_refdeses project.now.contents)
        (contains_text used.used) (get_by_text used.next) }
    ensures { IfOk result (λ change. change.items ≡ renumbered_at project.now.contents
        (component_refdeses project.now.contents) places.now.keys) }
{
    let mut used = used;
    let mut change = Change::new(alloc);
    for place in places {
        renumber_place(alloc, project, &mut used, &mut change, place.id)?;
    }
    Ok(change)
}

/// The change that gives a number to each component without one (docs/RULES.md, "Numbering"): to
/// each that is not graphical and whose refdes ends in `?`, by the name of its sheet and then by
/// id. It gets its refdes without all `?` at its end, followed by the least number from 1 with
/// which no component of the project has that refdes, and none got it before in this change.
///
/// A change of nothing, where there is no such component. The project stays.
#[tactic(auto, unfolding(crate::specs::Renumbering::renumbered, crate::specs::Renumbering::component_refdeses, crate::specs::Renumbering::open_places))]
pub fn renumber(alloc: Global, project: &Project) -> Result<Change, AllocError>
    ensures { IfOk result (λ change. change.items ≡ renumbered project.now.contents) }
{
    let rows = project.objects_by_id(alloc)?;
    let used = used_texts(alloc, project, rows.as_slice())?;
    let places = open_places(alloc, project, rows.as_slice())?;
    renumbered_at(alloc, project, used, &places)
}
