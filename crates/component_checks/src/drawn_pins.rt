// The drawn net pins of a component, as far as the check asks of them.
ghost use Rattle.std.specs.Prelude.{◌≡◌, ◌==◌, IfOk, filter, length, option_copied};
ghost use Rattle.std.specs.List.{filter_map};
ghost use Rattle.pin_place.specs.Pins.{is_drawn, pins_of};
ghost use Rattle.component_checks.specs.steps.ToldPins.{AreAlike, drawn_of, unknown_number};

use crate::lists::push_if;
use attr_rules::PinKind;
use geda_model::{Items, Object, Symbol, Word};
use pin_matrix::same_kind;
use pin_place::{PinPlan, PlacedPin, PlanPin};
use std::alloc::{AllocError, Global};
use std::marker::Model;

/// The drawn net pins of a component, by place, as far as the check asks of them.
#[derive(Debug, Drop)]
pub struct DrawnPins<'a> {
    object: &'a Object,
    library: Option<&'a Symbol>,
    has_none: bool,
    unknown: Vec<Word>,
}

impl<'a> Model for DrawnPins<'a> {
    ghost use Rattle.std.specs.Prelude.{List, filter, option_copied};
    ghost use Rattle.pin_place.specs.declared.pins.PlacedPin.{PlacedPin};
    ghost use Rattle.pin_place.specs.Pins.{is_drawn, pins_of};
    ghost use Rattle.component_checks.specs.steps.ToldPins.{AreTold, drawn_of};

    ghost Value = { List PlacedPin };

    ghost view = { λ d. filter is_drawn (pins_of d.object.now (option_copied d.library)) };

    ghost invariant = { λ d.
        AreTold (drawn_of d.object.now (option_copied d.library)) d.has_none d.unknown.items };
}

/// The drawn ones of these pins, in their order.
fn drawn_pins(pins: Items<PlacedPin>) -> Vec<PlacedPin>
    ensures { result.items ≡ filter is_drawn pins }
{
    let mut pins = pins.into_vec();
    pins.retain(|pin| pin.end.is_some());
    pins
}

fn unknown_number(pin: &PlacedPin) -> Result<Option<Word>, AllocError>
    ensures { IfOk result (λ number. number ≡ unknown_number pin.now) }
{
    if !same_kind(pin.kind, PinKind::Unknown) {
        return Ok(None);
    }
    Ok(Some(pin.number.clone()?))
}

#[tactic(auto, using(crate::proofs::ListLemmas::push_more))]
fn unknown_numbers(alloc: Global, pins: &[PlacedPin]) -> Result<Vec<Word>, AllocError>
    ensures { IfOk result (λ numbers. numbers.items ≡ filter_map unknown_number pins.now) }
{
    let mut numbers = Vec::new(alloc);
    for pin in pins {
        push_if(&mut numbers, unknown_number(pin)?)?;
    }
    Ok(numbers)
}

fn unknown_of_plan(pin: &PlanPin) -> Result<Option<Word>, AllocError>
    ensures { IfOk result (λ number. number ≡ unknown_number pin.now) }
{
    if !same_kind(pin.kind, PinKind::Unknown) {
        return Ok(None);
    }
    Ok(Some(pin.number.clone()?))
}

#[tactic(auto, using(crate::proofs::ListLemmas::push_more))]
fn unknown_in_plan(alloc: Global, pins: &[PlanPin]) -> Result<Vec<Word>, AllocError>
    ensures { IfOk result (λ numbers. numbers.items ≡ filter_map unknown_number pins.now) }
{
    let mut numbers = Vec::new(alloc);
    for pin in pins {
        push_if(&mut numbers, unknown_of_plan(pin)?)?;
    }
    Ok(numbers)
}

impl<'a> DrawnPins<'a> {
    /// The drawn ones of all pins of a component.
    pub fn of(
        alloc: Global,
        object: &'a Object,
        library: Option<&'a Symbol>,
        pins: Items<PlacedPin>,
    ) -> Result<DrawnPins<'a>, AllocError>
        requires { pins ≡ pins_of object.now (option_copied library) }
        ensures { IfOk result
            (λ drawn. drawn ≡ drawn_of object.now (option_copied library.entry)) }
    {
        let drawn = drawn_pins(pins);
        let unknown = unknown_numbers(alloc, drawn.as_slice())?;
        Ok(DrawnPins {
            object,
            library,
            has_none: drawn.len() == 0,
            unknown,
        })
    }

    /// Those of a component to which its library symbol gives its pins by this plan.
    pub fn by_plan(
        alloc: Global,
        object: &'a Object,
        library: Option<&'a Symbol>,
        plan: &PinPlan,
    ) -> Result<DrawnPins<'a>, AllocError>
        requires { AreAlike plan.now.drawn.items (drawn_of object.now (option_copied library)) }
        ensures { IfOk result
            (λ drawn. drawn ≡ drawn_of object.now (option_copied library.entry)) }
    {
        let unknown = unknown_in_plan(alloc, plan.drawn.as_slice())?;
        Ok(DrawnPins {
            object,
            library,
            has_none: plan.drawn.len() == 0,
            unknown,
        })
    }

    /// Whether there are none. It takes no memory.
    pub fn is_empty(&self) -> bool
        ensures { result ≡ (length self.now == 0) }
    {
        self.has_none
    }

    /// The numbers of those of kind unknown. It takes no memory.
    pub fn unknown(&self) -> &[Word]
        ensures { result.now ≡ filter_map unknown_number self.now }
    {
        self.unknown.as_slice()
    }
}
