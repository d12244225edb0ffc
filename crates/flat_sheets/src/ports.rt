// The pins above for which ports stand.
ghost use Rattle.std.specs.Prelude.{◌≡◌, if◌then◌else◌, IfOk, None};
ghost use Rattle.instance_objects.specs.Ports.{component_above};
ghost use Rattle.flat_sheets.specs.Ports.{pins_at};

use flat_rows::PortPins;
use geda_model::Block;
use hierarchy::Instance;
use instance_objects::component_above;
use std::alloc::{AllocError, Global};

fn pins_at(
    alloc: Global,
    place: Option<u32>,
    id: Option<u32>,
    label: &str,
) -> Result<Option<PortPins>, AllocError>
    ensures { IfOk result (λ pins. pins ≡ pins_at place id label.now) }
{
    match (place, id) {
        (Some(place), Some(id)) => Ok(Some(PortPins {
            instance: place as usize,
            id,
            label: Block::new(alloc, label)?,
        })),
        _ => Ok(None),
    }
}

/// The pins above for which a component with this refdes stands, if it is a port.
pub fn pins_above(
    alloc: Global,
    is_port: bool,
    instance: &Instance,
    refdes: &str,
) -> Result<Option<PortPins>, AllocError>
    ensures { IfOk result (λ pins. pins ≡ (if is_port
        then pins_at instance.now.parent (component_above instance.now) refdes.now else None)) }
{
    if !is_port {
        return Ok(None);
    }
    pins_at(alloc, instance.parent, component_above(instance), refdes)
}
