// The net pins of symbols.
ghost use Rattle.std.specs.Prelude.{◌≡◌, ◌≤◌, ◌&&◌, IfOk, length, option_copied};
ghost use Rattle.attr_rules.specs.Kinds.{kind_of};
ghost use Rattle.sym_check.specs.CheckedPins.{attached_value, checked_pins, is_known, is_net_pin};
ghost use Rattle.sym_check.specs.CheckedPins.{is_off_grid, is_on_grid, pin_at};

use crate::checked::CheckedPin;
use crate::free_attributes::copy_of;
use attr_rules::{PinKind, first_value, pin_kind};
use geda_model::{Part, Shape};
use std::alloc::{AllocError, Global};

fn is_net_pin(part: &Part) -> bool
    ensures { result ≡ is_net_pin part.now }
{
    matches!(&part.shape, Shape::Pin { bus: false, .. })
}

/// Whether a point so far from the axes is one of the grid.
fn is_on_grid(across: u32, up: u32) -> bool
    ensures { result ≡ (is_on_grid across && is_on_grid up) }
{
    across % 100 == 0 && up % 100 == 0
}

fn is_off_grid(part: &Part) -> bool
    ensures { result ≡ is_off_grid part.now }
{
    match &part.shape {
        Shape::Pin { x1, y1, x2, y2, .. } => {
            let first = is_on_grid(x1.unsigned_abs(), y1.unsigned_abs());
            let second = is_on_grid(x2.unsigned_abs(), y2.unsigned_abs());
            !(first && second)
        }
        _ => false,
    }
}

fn pin_attr<'a>(part: &'a Part, name: &str) -> Option<&'a str>
    ensures { option_copied result ≡ attached_value part.now name.now }
{
    first_value(part.attrs.as_slice(), name)
}

fn has_kind(pintype: Option<&str>) -> bool
    ensures { result ≡ is_known (kind_of (option_copied pintype.entry)) }
{
    !matches!(pin_kind(pintype), PinKind::Unknown)
}

fn pin_at(alloc: Global, place: u32, part: &Part) -> Result<CheckedPin, AllocError>
    ensures { IfOk result (λ pin. pin ≡ pin_at place part.now) }
{
    Ok(CheckedPin {
        place,
        number: copy_of(alloc, pin_attr(part, "pinnumber"))?,
        seq: copy_of(alloc, pin_attr(part, "pinseq"))?,
        has_label: pin_attr(part, "pinlabel").is_some(),
        has_kind: has_kind(pin_attr(part, "pintype")),
        is_off_grid: is_off_grid(part),
    })
}

/// The net pins among the parts of a symbol, by place (docs/RULES.md, "Pins").
pub fn symbol_pins(alloc: Global, parts: &[Part]) -> Result<Vec<CheckedPin>, AllocError>
    requires { length parts.now ≤ 4294967295 }
    ensures { IfOk result (λ pins. pins.items ≡ checked_pins parts.now) }
{
    let mut pins = Vec::new(alloc);
    let mut place: u32 = 0;
    for part in parts {
        if is_net_pin(part) {
            pins.push(pin_at(alloc, place, part)?)?;
            place += 1;
        }
    }
    Ok(pins)
}
