// Attached texts, parts, components and objects: each by its rows.
ghost use Rattle.std.specs.Prelude.{◌++◌};
ghost use Rattle.std.specs.List.{flat_map};
ghost use Rattle.geda_grammar.specs.Rows.{component_line_of};
ghost use Rattle.geda_model.specs.Sheets.{BodyIsInRange};
ghost use Rattle.geda_write.specs.steps.Output.{Adds};
ghost use Rattle.geda_write.specs.steps.Texts.{attached_text, block_text, body_text, component_line_text, component_text, part_text, placement_text, symbol_rows_text, text_text, whole_text};

use crate::fields::put_numbers;
use crate::output::Output;
use crate::shapes::{put_line, put_shape, put_text};
use geda_model::{Body, Component, Object, Part, Text};

fn put_texts<O: Output>(out: &mut O, texts: &[Text]) -> Result<(), O::Fault>
    ensures { Adds result (O.got out.old) (O.got out.new) (flat_map text_text texts.now) }
{
    for text in texts {
        put_text(out, text)?;
    }
    Ok(())
}

fn put_block<O: Output>(out: &mut O, texts: &[Text]) -> Result<(), O::Fault>
    ensures { Adds result (O.got out.old) (O.got out.new) (block_text texts.now) }
{
    put_line(out, "{")?;
    put_texts(out, texts)?;
    put_line(out, "}")
}

fn put_attached<O: Output>(out: &mut O, texts: &[Text]) -> Result<(), O::Fault>
    ensures { Adds result (O.got out.old) (O.got out.new) (attached_text texts.now) }
{
    match texts {
        [] => Ok(()),
        [_, ..] => put_block(out, texts),
    }
}

fn put_part<O: Output>(out: &mut O, part: &Part) -> Result<(), O::Fault>
    ensures { Adds result (O.got out.old) (O.got out.new) (part_text part.now) }
{
    put_shape(out, &part.shape)?;
    put_attached(out, part.attrs.as_slice())
}

pub(crate) fn put_parts<O: Output>(out: &mut O, parts: &[Part]) -> Result<(), O::Fault>
    ensures { Adds result (O.got out.old) (O.got out.new) (flat_map part_text parts.now) }
{
    for part in parts {
        put_part(out, part)?;
    }
    Ok(())
}

fn put_embedded<O: Output>(out: &mut O, parts: &[Part]) -> Result<(), O::Fault>
    ensures { Adds result (O.got out.old) (O.got out.new) (symbol_rows_text parts.now) }
{
    put_line(out, "[")?;
    put_parts(out, parts)?;
    put_line(out, "]")
}

fn put_placement<O: Output>(out: &mut O, component: &Component) -> Result<(), O::Fault>
    ensures { Adds result (O.got out.old) (O.got out.new) (placement_text component.now) }
{
    out.piece(b"C")?;
    put_numbers(
        out,
        &[
            component.x,
            component.y,
            i32::from(component.selectable),
            i32::from(component.angle),
            i32::from(component.mirror),
        ],
    )
}

fn put_component_line<O: Output>(
    out: &mut O,
    component: &Component,
    prefix: &str,
) -> Result<(), O::Fault>
    ensures { Adds result (O.got out.old) (O.got out.new)
        (component_line_text (component_line_of component.now)
        (prefix.now ++ component.now.basename)) }
{
    put_placement(out, component)?;
    out.piece(b" ")?;
    out.piece(prefix.as_bytes())?;
    put_line(out, component.basename.as_str())
}

fn put_component<O: Output>(out: &mut O, component: &Component) -> Result<(), O::Fault>
    ensures { Adds result (O.got out.old) (O.got out.new)
        (component_text component.now component.now.embedded) }
{
    match &component.embedded {
        None => put_component_line(out, component, ""),
        Some(parts) => {
            put_component_line(out, component, "EMBEDDED")?;
            put_embedded(out, parts.as_slice())
        }
    }
}

fn put_body<O: Output>(out: &mut O, body: &Body) -> Result<(), O::Fault>
    requires { BodyIsInRange body.now }
    ensures { Adds result (O.got out.old) (O.got out.new) (body_text body.now) }
{
    match body {
        Body::Shape(shape) => put_shape(out, shape),
        Body::Component(component) => put_component(out, component),
    }
}

pub(crate) fn put_object<O: Output>(out: &mut O, object: &Object) -> Result<(), O::Fault>
    ensures { Adds result (O.got out.old) (O.got out.new) (whole_text object.now) }
{
    put_body(out, &object.body)?;
    put_attached(out, object.attrs.as_slice())
}

pub(crate) fn put_objects<O: Output>(out: &mut O, objects: &[Object]) -> Result<(), O::Fault>
    ensures { Adds result (O.got out.old) (O.got out.new) (flat_map whole_text objects.now) }
{
    for object in objects {
        put_object(out, object)?;
    }
    Ok(())
}
