// The refdes of components, and which of them have no number.
ghost use Rattle.std.specs.Prelude.{◌≡◌, IfOk, option_copied};
ghost use Rattle.refdes_renum.specs.Renumbering.{component_refdes, is_open, is_unnumbered};
ghost use Rattle.refdes_renum.specs.steps.UsedTexts.{HasNoFeed};

use crate::stems::ends_open;
use attr_rules::{is_graphical, library_of, refdes_of};
use geda_model::{Body, Object};
use project_model::Project;
use std::alloc::{AllocError, Global};

/// The refdes of a component. A shape has none.
#[tactic(auto, using(crate::proofs::ContentLemmas::refdes_feedless))]
pub(crate) fn component_refdes<'a>(
    alloc: Global,
    project: &'a Project,
    object: &'a Object,
) -> Result<Option<&'a str>, AllocError>
    ensures same { IfOk result
        (λ refdes. option_copied refdes ≡ component_refdes project.now.contents object.now) }
    ensures line { IfOk result (λ refdes. HasNoFeed (option_copied refdes)) }
{
    match &object.body {
        Body::Shape(_) => Ok(None),
        Body::Component(_) => {
            let library = library_of(alloc, project, object)?;
            Ok(refdes_of(object, library))
        }
    }
}

fn is_open(refdes: Option<&str>) -> bool
    ensures { result ≡ is_open (option_copied refdes.entry) }
{
    match refdes {
        Some(refdes) => ends_open(refdes.as_bytes()),
        None => false,
    }
}

/// Whether an object with this refdes is a component without a number: it is not graphical, and
/// the refdes ends in `?`.
pub(crate) fn is_unnumbered(
    alloc: Global,
    project: &Project,
    object: &Object,
    refdes: Option<&str>,
) -> Result<bool, AllocError>
    requires { option_copied refdes ≡ component_refdes project.now.contents object.now }
    ensures { IfOk result (λ r. r ≡ is_unnumbered project.now.contents object.now) }
{
    if !is_open(refdes) {
        return Ok(false);
    }
    let library = library_of(alloc, project, object)?;
    Ok(!is_graphical(object, library))
}
