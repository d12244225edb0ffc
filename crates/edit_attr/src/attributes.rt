// Setting and dropping attached attributes.
ghost use Rattle.std.specs.Prelude.{◌≡◌, ◌<◌, ◌++◌, ◌∷◌, [], IfOk, OnOk, codes, filter, length, not};
ghost use Rattle.std.specs.Prelude.{get_or, slice_set};
ghost use Rattle.std.specs.List.{list_any};
ghost use Rattle.std.specs.String.{string_bytes};
ghost use Rattle.geda_geom.specs.Placing.{IsOnSheet};
ghost use Rattle.geda_model.specs.Data.{TextData};
ghost use Rattle.geda_model.specs.Ranges.{IsContent};
ghost use Rattle.edit_attr.specs.Attributes.{attr_line, has_attr, is_attr_named, new_label, attr_place};
ghost use Rattle.edit_attr.specs.Attributes.{set_text, with_attr, with_content, without_attr};

use crate::points::first_point;
use attr_rules::split_attr;
use geda_geom::Point;
use geda_model::{Block, Object, Text, Texts};
use std::alloc::{AllocError, Global};

/// Whether a text is an attribute of a name.
fn is_named(text: &Text, name: &str) -> bool
    ensures { result ≡ is_attr_named name.now text.now }
{
    match split_attr(text.content.as_str()) {
        Some((own, _)) => own == name,
        None => false,
    }
}

/// The text with another content.
fn with_content(alloc: Global, text: &Text, content: &str) -> Result<Text, AllocError>
    requires content { IsContent content.now }
    ensures { IfOk result (λ t. t ≡ with_content content.now text.now) }
{
    Ok(Text {
        x: text.x,
        y: text.y,
        color: text.color,
        size: text.size,
        visible: text.visible,
        show: text.show,
        angle: text.angle,
        align: text.align,
        content: Block::new(alloc, content)?,
    })
}

/// A new label at a point.
fn new_label(alloc: Global, content: &str, at: Point) -> Result<Text, AllocError>
    requires content { IsContent content.now }
    requires at { IsOnSheet at }
    ensures { IfOk result (λ t. t ≡ new_label content.now at) }
{
    Ok(Text {
        x: at.x,
        y: at.y,
        color: 5,
        size: 10,
        visible: 0,
        show: 1,
        angle: 0,
        align: 0,
        content: Block::new(alloc, content)?,
    })
}

/// The texts, of which the first one of the name gets the content; where there is none, a new label
/// comes last.
fn set_text(
    alloc: Global,
    texts: &[Text],
    name: &str,
    content: &str,
    at: Point,
) -> Result<Texts, AllocError>
    requires content { IsContent content.now }
    requires at { IsOnSheet at }
    ensures { IfOk result (λ v. v ≡ set_text name.now content.now at texts.now) }
{
    let mut after = Texts::new(alloc);
    let mut is_set = false;
    for text in texts {
        if !is_set && is_named(text, name) {
            is_set = true;
            after.push(with_content(alloc, text, content)?)?;
        } else {
            after.push(text.clone()?)?;
        }
    }
    if !is_set {
        after.push(new_label(alloc, content, at)?)?;
    }
    Ok(after)
}

/// The line of an attribute.
fn attr_line(alloc: Global, name: &str, value: &str) -> Result<String, AllocError>
    ensures { IfOk result (λ line. string_bytes line ≡ attr_line name.now value.now) }
{
    format!(in alloc; "{name}={value}")
}

/// The object after its first attached attribute of a name becomes the one line `name=value`
/// (docs/RULES.md, "Setting attributes"). Where it has none, that line becomes a new label, which
/// comes last, at the object's first point.
///
/// The line can be the content of a text.
#[tactic(auto, unfolding(crate::specs::Attributes::with_attr))]
pub fn set_attr(
    alloc: Global,
    object: &Object,
    name: &str,
    value: &str,
) -> Result<Object, AllocError>
    requires content { IsContent (attr_line name.now value.now) }
    ensures { IfOk result (λ o. o ≡ with_attr name.now value.now object.now) }
{
    let line = attr_line(alloc, name, value)?;
    let at = first_point(object);
    let attrs = set_text(alloc, object.attrs.as_slice(), name, line.as_str(), at)?;
    let body = object.body.clone()?;
    Ok(Object { body, attrs })
}

/// Puts another content into the text at a place.
fn put_content(
    alloc: Global,
    texts: &mut Vec<Text>,
    place: usize,
    content: &str,
) -> Result<(), AllocError>
    requires content { IsContent content.now }
    requires place { place < length texts.old.items }
    ensures { OnOk result ((none : TextData) → texts.new.items ≡ slice_set texts.old.items place
        (with_content content.now (get_or texts.old.items place none))) }
{
    let text = with_content(alloc, &texts[place], content)?;
    texts[place] = text;
    Ok(())
}

/// Sets an attribute among the texts that are attached to an object, as `set_attr` does, where its
/// first point and the place of the first text of the name are known.
///
/// The line can be the content of a text.
pub fn put_attr(
    alloc: Global,
    texts: &mut Vec<Text>,
    place: Option<usize>,
    name: &str,
    value: &str,
    at: Point,
) -> Result<(), AllocError>
    requires content { IsContent (attr_line name.now value.now) }
    requires at { IsOnSheet at }
    requires place { place ≡ attr_place name.now texts.old.items }
    ensures { OnOk result (texts.new.items
        ≡ set_text name.now (attr_line name.now value.now) at texts.old.items) }
{
    let line = attr_line(alloc, name, value)?;
    match place {
        Some(place) => {
            put_content(alloc, texts, place, line.as_str())?;
            Ok(())
        }
        None => {
            texts.push(new_label(alloc, line.as_str(), at)?)?;
            Ok(())
        }
    }
}

/// The texts that are no attributes of a name.
fn drop_text(alloc: Global, texts: &[Text], name: &str) -> Result<Texts, AllocError>
    ensures { IfOk result (λ v. v ≡ filter (λ t. not (is_attr_named name.now t)) texts.now) }
{
    let mut after = Texts::new(alloc);
    for text in texts {
        if !is_named(text, name) {
            after.push(text.clone()?)?;
        }
    }
    Ok(after)
}

/// The object after it loses all attached attributes of a name (docs/RULES.md, "Setting
/// attributes").
#[tactic(auto, unfolding(crate::specs::Attributes::without_attr))]
pub fn drop_attr(alloc: Global, object: &Object, name: &str) -> Result<Object, AllocError>
    ensures { IfOk result (λ o. o ≡ without_attr name.now object.now) }
{
    let attrs = drop_text(alloc, object.attrs.as_slice(), name)?;
    let body = object.body.clone()?;
    Ok(Object { body, attrs })
}

/// Whether an object has an attached attribute of a name. It takes no memory.
pub fn has_attr(object: &Object, name: &str) -> bool
    ensures { result ≡ has_attr name.now object.now }
{
    object
        .attrs
        .as_slice()
        .iter()
        .any(|text| is_named(text, name))
}
