// What a component is to the rules.
ghost use Rattle.std.specs.Prelude.{◌≡◌};
ghost use Rattle.component_checks.specs.OnComponents.{checked_refdes, is_listed_part};
ghost use Rattle.component_checks.specs.OnComponents.{is_numbered_component, is_open_refdes};
ghost use Rattle.component_checks.specs.OnComponents.{is_whole, slot_of};

use crate::checked::CheckedComponent;

/// Whether it is a listed part. It takes no memory.
pub fn is_listed(component: &CheckedComponent<'_>) -> bool
    ensures { result ≡ is_listed_part component.now }
{
    if component.refdes.is_none() {
        return false;
    }
    !component.is_hierarchical && !component.is_port
}

/// Whether it is a listed part, or has a refdes and sheets below. It takes no memory.
pub fn is_numbered(component: &CheckedComponent<'_>) -> bool
    ensures { result ≡ is_numbered_component component.now }
{
    if component.refdes.is_none() {
        return false;
    }
    component.is_hierarchical || !component.is_port
}

/// Whether it has sheets below, or no `slot`. It takes no memory.
pub fn is_whole(component: &CheckedComponent<'_>) -> bool
    ensures { result ≡ is_whole component.now }
{
    component.is_hierarchical || component.slot.is_none()
}

/// The printed refdes; empty where there is none. It takes no memory.
pub fn refdes_of<'a>(component: &'a CheckedComponent<'_>) -> &'a str
    ensures { result.now ≡ checked_refdes component.now }
{
    match &component.refdes {
        None => "",
        Some(refdes) => refdes.as_str(),
    }
}

/// The `slot`; empty where there is none. It takes no memory.
pub fn slot_of<'a>(component: &'a CheckedComponent<'_>) -> &'a str
    ensures { result.now ≡ slot_of component.now }
{
    match component.slot {
        None => "",
        Some(slot) => slot,
    }
}

/// Whether a text ends in `?`. It takes no memory.
pub fn ends_open(text: &[u8]) -> bool
    ensures { result ≡ is_open_refdes text.now }
{
    if text.len() == 0 {
        return false;
    }
    text[text.len() - 1] == b'?'
}
