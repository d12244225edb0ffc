// The rows that an owner vouches for.
ghost use Rattle.std.specs.Prelude.{◌≡◌, ◌<◌, ◌≤◌, IfSome, None, Ok};
ghost use Rattle.engine_core.specs.Calls.{OfTold};
ghost use Rattle.engine_board.specs.Holds.{HoldsBoard, ShowsRow};

use crate::hold::Hold;
use engine_core::{Body, Engine, EngineFault};

/// The row of a serial that is vouched for.
fn row_below<E: Engine>(
    engine: &mut E,
    hold: Hold,
    serial: u32,
) -> Result<Option<Body>, EngineFault>
    requires held { IfSome (E.world engine.old) (HoldsBoard hold) }
    requires below { serial < hold.count }
    ensures { OfTold (ShowsRow hold serial result) (E.world engine.old) (E.world engine.new) }
{
    let _ = hold;
    engine.row(serial)
}

/// The row of a serial; `None` where it is not vouched for, and then nothing is asked. The rows
/// that are vouched for stay.
#[tactic(auto, using(crate::proofs::CallLemmas::no_row))]
pub fn row<E: Engine>(engine: &mut E, hold: Hold, serial: u32) -> Result<Option<Body>, EngineFault>
    requires held { IfSome (E.world engine.old) (HoldsBoard hold) }
    ensures shown { OfTold (ShowsRow hold serial result) (E.world engine.old) (E.world engine.new) }
    ensures past { hold.count ≤ serial → result ≡ Ok None }
{
    if serial >= hold.count {
        return Ok(None);
    }
    row_below(engine, hold, serial)
}
