// The calls of an owner, one by one.
ghost use Rattle.std.specs.Prelude.{◌≡◌, IfSome, false, true};
ghost use Rattle.engine_core.specs.Calls.{OfTold};
ghost use Rattle.engine_board.specs.Holding.{IsHolding};
ghost use Rattle.engine_board.specs.steps.Turns.{Finds, Renews, Sends};

use engine_core::{Body, Engine, EngineFault, Owner, Taken};

/// Takes the board anew: then nothing that was asked before can be done any more. `None` where the
/// board was not as it was.
pub fn renew<E: Engine>(
    engine: &mut E,
    fence: u64,
    count: u32,
) -> Result<Option<Taken>, EngineFault>
    requires holds { IfSome (E.world engine.old) (λ w. IsHolding fence true count w) }
    ensures { OfTold (λ w v. Renews fence count w v result)
        (E.world engine.old) (E.world engine.new) }
{
    let _ = count;
    engine.take(fence)
}

/// The owner's key.
pub fn find<E: Engine>(engine: &mut E, fence: u64, count: u32) -> Result<Owner, EngineFault>
    requires holds { IfSome (E.world engine.old) (λ w. IsHolding fence true count w) }
    ensures { OfTold (λ w v. Finds fence count w v result)
        (E.world engine.old) (E.world engine.new) }
{
    let _ = (fence, count);
    engine.owner()
}

/// Puts a row behind those that are vouched for; false where the board was not as it was.
pub fn send<E: Engine>(
    engine: &mut E,
    fence: u64,
    count: u32,
    body: &Body,
) -> Result<bool, EngineFault>
    requires holds { IfSome (E.world engine.old) (λ w. IsHolding fence false count w) }
    ensures { OfTold (λ w v. Sends fence count body.now w v result)
        (E.world engine.old) (E.world engine.new) }
{
    engine.put(fence, count, body)
}
