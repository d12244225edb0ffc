// What an owner tries, over and again.
ghost use Rattle.std.specs.Prelude.{◌≡◌, ◌<◌, ◌-◌, ◌^◌, IfOk, IfSome, IsOk, false, true};
ghost use Rattle.engine_core.specs.Calls.{OfTold};
ghost use Rattle.engine_board.specs.Holds.{EndsPut, HoldsBoard, KeepsRows};
ghost use Rattle.engine_board.specs.steps.Turns.{Tries};

use crate::calls::{find, renew, send};
use crate::hold::Hold;
use engine_core::{Body, Engine, EngineFault};

/// Looks whether the board is owned still, perhaps by a taking that was not answered. It never
/// settles anything.
fn look<E: Engine>(engine: &mut E, hold: &mut Hold) -> Result<bool, EngineFault>
    requires held { IfSome (E.world engine.old) (HoldsBoard hold.old) }
    requires doubt { hold.old.doubt ≡ true }
    ensures kept { OfTold (KeepsRows hold.old hold.new) (E.world engine.old) (E.world engine.new) }
    ensures refused { IfOk result (λ is_settled. is_settled ≡ false) }
    ensures count { hold.new.count ≡ hold.old.count }
{
    match find(engine, hold.fence, hold.count) {
        Ok(owner) => {
            if owner.ours {
                hold.fence = owner.fence;
                return Ok(false);
            }
            hold.lost = true;
            Ok(false)
        }
        Err(fault) => Err(fault),
    }
}

/// Takes the board anew, so that nothing is in doubt; false where it is not known yet.
fn settle<E: Engine>(engine: &mut E, hold: &mut Hold) -> Result<bool, EngineFault>
    requires held { IfSome (E.world engine.old) (HoldsBoard hold.old) }
    requires doubt { hold.old.doubt ≡ true }
    ensures kept { OfTold (KeepsRows hold.old hold.new) (E.world engine.old) (E.world engine.new) }
    ensures sure { IfOk result (λ is_settled. is_settled ≡ true → hold.new.doubt ≡ false) }
    ensures count { hold.new.count ≡ hold.old.count }
{
    match renew(engine, hold.fence, hold.count) {
        Ok(Some(taken)) => {
            hold.fence = taken.fence;
            hold.doubt = false;
            Ok(true)
        }
        Ok(None) => look(engine, hold),
        Err(fault) => Err(fault),
    }
}

/// Puts a row once; false where the board was not as it was.
fn add<E: Engine>(engine: &mut E, hold: &mut Hold, body: &Body) -> Result<bool, EngineFault>
    requires held { IfSome (E.world engine.old) (HoldsBoard hold.old) }
    requires sure { hold.old.doubt ≡ false }
    requires room { hold.old.count < 2 ^ 32 - 1 }
    ensures tried { OfTold (λ w v. Tries hold.old hold.new body.now w v result)
        (E.world engine.old) (E.world engine.new) }
{
    hold.doubt = true;
    match send(engine, hold.fence, hold.count, body) {
        Ok(true) => {
            hold.doubt = false;
            hold.count += 1;
            Ok(true)
        }
        Ok(false) => Ok(false),
        Err(fault) => Err(fault),
    }
}

/// Puts a row once, after what is in doubt is settled.
fn settle_and_add<E: Engine>(
    engine: &mut E,
    hold: &mut Hold,
    body: &Body,
) -> Result<bool, EngineFault>
    requires held { IfSome (E.world engine.old) (HoldsBoard hold.old) }
    requires doubt { hold.old.doubt ≡ true }
    requires room { hold.old.count < 2 ^ 32 - 1 }
    ensures tried { OfTold (λ w v. Tries hold.old hold.new body.now w v result)
        (E.world engine.old) (E.world engine.new) }
{
    match settle(engine, hold) {
        Ok(true) => add(engine, hold, body),
        Ok(false) => Ok(false),
        Err(fault) => Err(fault),
    }
}

/// One try of a row.
fn try_put<E: Engine>(engine: &mut E, hold: &mut Hold, body: &Body) -> Result<bool, EngineFault>
    requires held { IfSome (E.world engine.old) (HoldsBoard hold.old) }
    requires room { hold.old.count < 2 ^ 32 - 1 }
    ensures tried { OfTold (λ w v. Tries hold.old hold.new body.now w v result)
        (E.world engine.old) (E.world engine.new) }
{
    if hold.doubt {
        return settle_and_add(engine, hold, body);
    }
    add(engine, hold, body)
}

/// Puts a row, in at most so many tries.
fn put_in_tries<E: Engine>(
    engine: &mut E,
    hold: &mut Hold,
    body: &Body,
    tries: u32,
) -> Result<(), EngineFault>
    requires held { IfSome (E.world engine.old) (HoldsBoard hold.old) }
    ensures ended { OfTold (λ w v. EndsPut hold.old hold.new body.now w v result)
        (E.world engine.old) (E.world engine.new) }
{
    for _ in 0..tries {
        if hold.lost {
            return Err(EngineFault::NoAnswer);
        }
        if hold.count == u32::MAX {
            return Err(EngineFault::NoAnswer);
        }
        match try_put(engine, hold, body) {
            Ok(true) => return Ok(()),
            Ok(false) => {}
            Err(EngineFault::NoAnswer) => {}
            Err(EngineFault::NoMemory) => return Err(EngineFault::NoMemory),
        }
    }
    Err(EngineFault::NoAnswer)
}

/// Puts a row behind those that are vouched for, in at most so many tries. Where something is in
/// doubt the board is taken anew first, so that nothing that was asked before is done any more.
///
/// After a fault the rows that are vouched for are as before, and while the board is owned there is
/// at most one row more, which the next row replaces. No row is put where another one has the
/// board, and from a hold that says so nothing is asked.
#[tactic(auto, using(crate::proofs::CallLemmas::keeps_itself))]
pub fn put<E: Engine>(
    engine: &mut E,
    hold: &mut Hold,
    body: &Body,
    tries: u32,
) -> Result<(), EngineFault>
    requires held { IfSome (E.world engine.old) (HoldsBoard hold.old) }
    ensures ended { OfTold (λ w v. EndsPut hold.old hold.new body.now w v result)
        (E.world engine.old) (E.world engine.new) }
    ensures refused { hold.old.lost ≡ true → ¬ (IsOk result) }
    ensures unasked { hold.old.lost ≡ true → engine.new ≡ engine.old }
    ensures lost { hold.old.lost ≡ true → hold.new ≡ hold.old }
{
    if hold.lost {
        return Err(EngineFault::NoAnswer);
    }
    put_in_tries(engine, hold, body, tries)
}
