// Components of which the pins are kept with their library symbols.
ghost use Rattle.std.specs.Prelude.{◌≡◌, ◌++◌, IfSome, None, map};
ghost use Rattle.geda_model.specs.declared.object.Body.TheVariants as bodies;
ghost use Rattle.attr_rules.specs.FirstValues.{values_of};
ghost use Rattle.pin_place.specs.Pins.{pins_of};
ghost use Rattle.pin_place.specs.Plans.{put_pin};

use attr_rules::FirstValues;
use geda_model::{Component, Object};
use pin_place::{PinPlan, SymbolTable, is_plain};

/// The first values of a component, and the plan of its pins.
#[derive(Drop)]
pub struct Planned<'t, 'a> {
    /// The first values, attached or inherited.
    pub values: FirstValues<'a>,
    /// The plan, lent by the table of the library symbol.
    pub plan: &'t PinPlan,
}

/// The first values of a component by the table of its library symbol, and the plan of its pins,
/// where that is kept there and the component has no others.
pub fn values_and_plan<'t, 'a>(
    object: &'a Object,
    component: &Component,
    table: &'t SymbolTable<'a>,
) -> Option<Planned<'t, 'a>>
    requires body { object.now.body ≡ bodies.Component component.now }
    requires alone { component.now.embedded ≡ None }
    ensures values { IfSome result (λ it. it.values ≡ values_of object.now table.now) }
    ensures pins { IfSome result (λ it. pins_of object.now table.now
        ≡ map (put_pin component.now) it.plan.now.drawn.items ++ it.plan.now.hidden.items) }
{
    let own = FirstValues::of_texts(object.attrs.as_slice());
    let values = own.over(table.values());
    if !is_plain(&own, &values) {
        return None;
    }
    match table.plan(values.slot) {
        Some(plan) => Some(Planned { values, plan }),
        None => None,
    }
}
