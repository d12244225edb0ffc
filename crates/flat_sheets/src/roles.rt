// What a component is in an instance of its sheet.
ghost use Rattle.std.specs.Prelude.{List, ℕ, ◌≡◌, if◌then◌else◌, All, IfOk, None, Some};
ghost use Rattle.geda_model.specs.declared.object.Body.TheVariants as bodies;
ghost use Rattle.geda_model.specs.Names.{IsLineByte};
ghost use Rattle.attr_rules.specs.Components.{if_line};
ghost use Rattle.attr_rules.specs.FirstValues.{values_of};
ghost use Rattle.attr_rules.specs.Libraries.{library_of};
ghost use Rattle.instance_objects.specs.Texts.{under};
ghost use Rattle.flat_sheets.specs.steps.ObjectContents.{role_at};
ghost use Rattle.flat_sheets.specs.steps.RoleValues.{role_by};

use crate::ports::pins_above;
use attr_rules::FirstValues;
use flat_rows::PortPins;
use geda_model::{Component, Line};
use hierarchy::{Instance, line_of};
use instance_objects::{InstanceObject, line_under};
use std::alloc::{AllocError, Global};
use std::marker::Model;

/// What a component is in an instance of its sheet.
#[derive(Drop)]
pub struct Role {
    /// Its printed refdes, if it is a listed part.
    pub refdes: Option<Line>,
    /// Whether it leads down to sheets below.
    pub leads_down: bool,
    /// The pins above for which it stands, if it is a port.
    pub leads_up: Option<PortPins>,
    /// Whether it is a no-connection directive.
    pub directive: bool,
}

impl Model for Role {
    ghost use Rattle.flat_sheets.specs.Conductors.{RoleData};

    ghost Value = { RoleData };

    ghost view = { λ r. record {
      refdes = r.refdes;
      leads_down = r.leads_down;
      leads_up = r.leads_up;
      directive = r.directive;
    } };
}

fn printed_refdes(
    alloc: Global,
    is_unlisted: bool,
    instance: &Instance,
    refdes: &str,
) -> Result<Option<Line>, AllocError>
    requires { All IsLineByte refdes.now }
    ensures { IfOk result (λ printed. printed ≡
        (if is_unlisted then None else Some (under instance.now.path refdes.now))) }
{
    if is_unlisted {
        return Ok(None);
    }
    if instance.path.as_str().is_empty() {
        return Ok(Some(line_of(alloc, refdes)?));
    }
    Ok(Some(line_under(alloc, &instance.path, refdes)?))
}

fn role_by(
    alloc: Global,
    found: &InstanceObject<'_>,
    values: &FirstValues<'_>,
) -> Result<Role, AllocError>
    requires { (text : List ℕ) → Some text ≡ if_line values.now.refdes → All IsLineByte text }
    ensures { IfOk result (λ role. role ≡ role_by found.now.project found.now.flat values.now) }
{
    let leads_down = values.has_sources();
    let directive = values.is_directive();
    let Some(refdes) = values.refdes_line() else {
        return Ok(Role {
            refdes: None,
            leads_down,
            leads_up: None,
            directive,
        });
    };
    let is_port = !directive && found.is_port(refdes);
    let is_unlisted = values.is_annotation() || leads_down || is_port;
    Ok(Role {
        refdes: printed_refdes(alloc, is_unlisted, found.instance(), refdes)?,
        leads_down,
        leads_up: pins_above(alloc, is_port, found.instance(), refdes)?,
        directive,
    })
}

/// What a component with these first values is in an instance of its sheet (docs/RULES.md,
/// "Packages", "Ports" and "No-connection directives").
#[inline(always)]
pub fn role_of(
    alloc: Global,
    found: &InstanceObject<'_>,
    component: &Component,
    values: &FirstValues<'_>,
) -> Result<Role, AllocError>
    requires body { found.now.flat.object.body ≡ bodies.Component component.now }
    requires values { values.now ≡ values_of found.now.flat.object
        (library_of found.now.project found.now.flat.object) }
    ensures { IfOk result (λ role. role ≡ role_at found.now.project found.now.flat) }
{
    let role = role_by(alloc, found, values)?;
    Ok(role)
}
