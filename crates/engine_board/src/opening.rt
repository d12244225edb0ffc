// How a board is taken.
ghost use Rattle.std.specs.Prelude.{◌≡◌, IfSome};
ghost use Rattle.engine_core.specs.Calls.{OfTold};
ghost use Rattle.engine_board.specs.Holding.{IsFresh};
ghost use Rattle.engine_board.specs.Openings.{TellsOpening};
ghost use Rattle.engine_board.specs.steps.Taking.{MayTake, Opened};

use crate::hold::Hold;
use engine_core::{Engine, EngineFault, Taken};

/// Takes the board where its key stands at this revision.
fn take_under<E: Engine>(engine: &mut E, fence: u64) -> Result<Option<Taken>, EngineFault>
    requires may { IfSome (E.world engine.old) (λ w. MayTake fence w) }
    ensures { OfTold (λ w v. Opened w v result) (E.world engine.old) (E.world engine.new) }
{
    engine.take(fence)
}

/// Takes the board where its key is found.
fn take_found<E: Engine>(engine: &mut E) -> Result<Option<Taken>, EngineFault>
    requires fresh { IfSome (E.world engine.old) IsFresh }
    ensures { OfTold (λ w v. Opened w v result) (E.world engine.old) (E.world engine.new) }
{
    match engine.owner() {
        Ok(owner) => take_under(engine, owner.fence),
        Err(fault) => Err(fault),
    }
}

/// Takes the board, whoever has it; `None` where another one took it in between. What is known
/// then vouches for all rows that were there when it was taken.
///
/// Without an answer the board may have been taken, or may be taken later.
pub fn open<E: Engine>(engine: &mut E) -> Result<Option<Hold>, EngineFault>
    requires fresh { IfSome (E.world engine.old) IsFresh }
    ensures { OfTold (λ w v. TellsOpening w v result) (E.world engine.old) (E.world engine.new) }
{
    match take_found(engine) {
        Ok(Some(taken)) => Ok(Some(Hold::of(taken))),
        Ok(None) => Ok(None),
        Err(fault) => Err(fault),
    }
}
