// Printed names of components, and paths of instances.
ghost use Rattle.std.specs.Prelude.{◌≡◌, ◌++◌, ◌∷◌, [], All, IfOk, OnOk, map};
ghost use Rattle.std.specs.String.{string_bytes};
ghost use Rattle.geda_model.specs.Names.{IsLineByte};
ghost use Rattle.hierarchy.specs.Texts.{path_of, printed};

use crate::way::Step;
use geda_model::{Line, NameFault};
use std::alloc::{AllocError, Global};

/// The line that a text without LF is.
pub fn line_of(alloc: Global, text: &str) -> Result<Line, AllocError>
    requires { All IsLineByte text.now }
    ensures { IfOk result (λ line. line ≡ text.now) }
{
    match Line::new(alloc, text) {
        Ok(line) => Ok(line),
        Err(NameFault::NoMemory) => Err(AllocError),
        Err(NameFault::NotAName) => unreachable!(),
    }
}

#[tactic(auto, using(crate::proofs::TextLemmas::line_more))]
fn push_step(text: &mut String, refdes: &Line) -> Result<(), AllocError>
    ensures same { OnOk result
        (string_bytes text.new ≡ string_bytes text.old ++ (refdes.now ++ 47 ∷ [])) }
    ensures line { OnOk result
        (All IsLineByte (string_bytes text.old) → All IsLineByte (string_bytes text.new)) }
{
    write!(text, "{}/", refdes.as_str())?;
    Ok(())
}

fn printed_text(alloc: Global, steps: &[Step], refdes: &Line) -> Result<String, AllocError>
    ensures same { IfOk result (λ text. string_bytes text ≡ printed steps.now refdes.now) }
    ensures line { IfOk result (λ text. All IsLineByte (string_bytes text)) }
{
    let mut text = String::new(alloc);
    for step in steps {
        push_step(&mut text, &step.refdes)?;
    }
    text.push_str(refdes.as_str())?;
    Ok(text)
}

/// A refdes behind the path of its instance.
pub fn printed(alloc: Global, steps: &[Step], refdes: &Line) -> Result<Line, AllocError>
    ensures { IfOk result (λ line. line ≡ printed steps.now refdes.now) }
{
    let text = printed_text(alloc, steps, refdes)?;
    line_of(alloc, text.as_str())
}

/// The path of an instance.
pub fn path_of(alloc: Global, steps: &[Step]) -> Result<Line, AllocError>
    ensures { IfOk result (λ line. line ≡ path_of steps.now) }
{
    match steps.split_last() {
        None => line_of(alloc, ""),
        Some((last, before)) => printed(alloc, before, &last.refdes),
    }
}

/// The ids of the components on the way to an instance.
pub fn route_of(alloc: Global, steps: &[Step]) -> Result<Vec<u32>, AllocError>
    ensures { IfOk result (λ route. route.items ≡ map (λ s. s.id) steps.now) }
{
    let mut route = Vec::new(alloc);
    for step in steps {
        route.push(step.id)?;
    }
    Ok(route)
}
