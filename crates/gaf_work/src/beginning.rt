// The project that the work begins with.
ghost use Rattle.std.specs.Prelude.{◌≡◌, IfOk};
ghost use Rattle.project_model.specs.Changes.{CanApply};
ghost use Rattle.gaf_work.specs.Opening.{opening};

use crate::names::{sheet_name, symbol_name};
use crate::symbol::{head, two_pins};
use project_model::{Change, Thing, Value};
use std::alloc::{AllocError, Global};

/// The change that opens the project of the work (docs/RULES.md, "Work"): the symbol `two.sym`, and
/// the empty sheet `work.sch`.
#[tactic(auto, using(crate::proofs::ChangeLemmas::opening_can_apply))]
pub fn opening(alloc: Global) -> Result<Change, AllocError>
    ensures opening { IfOk result (λ change. change.items ≡ opening) }
    ensures can_apply { IfOk result (λ change. CanApply change.items) }
{
    let symbol = two_pins(alloc)?;
    let mut change = Change::new(alloc);
    change.push(
        Thing::SymbolName(symbol_name(alloc)?),
        Some(Value::Symbol(symbol)),
    )?;
    change.push(
        Thing::SheetName(sheet_name(alloc)?),
        Some(Value::Head(head())),
    )?;
    Ok(change)
}
