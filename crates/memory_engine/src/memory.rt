// A store in memory.
ghost use Rattle.std.specs.Prelude.{◌≡◌, IfErr, IfOk};
ghost use Rattle.engine_core.specs.Calls.{Asks, Elapses, TellsPut, TellsTaking};
ghost use Rattle.std.specs.List.{slice_get};
ghost use Rattle.engine_core.specs.declared.engine.EngineFault.TheVariants as faults;

use crate::late::Txn;
use crate::world::MemoryWorld;
use engine_core::{Act, Body, Engine, EngineFault, Event, Owner, Taken};
use std::alloc::Global;
use std::marker::Model;

/// What is planned for a call.
#[derive(Drop)]
pub struct Turn {
    /// What happens before it is done; where it is not answered, after it was asked.
    pub events: Vec<Event>,
    /// It is answered.
    pub is_answered: bool,
}

/// A store in memory that tells what is there. Its calls take the turns from the last one on; a
/// call without a turn is answered, and nothing happens before it. Where memory runs out while
/// events happen, the others do not.
#[derive(Drop)]
pub struct MemoryEngine {
    alloc: Global,
    board: MemoryWorld,
    turns: Vec<Turn>,
}

impl Model for MemoryEngine {
    ghost use Rattle.engine_core.specs.Worlds.{World};

    ghost Value = { World };

    ghost view = { λ k. k.board };
}

impl MemoryEngine {
    /// A store over a board, with the turns of its calls, of which the last is the first. It takes
    /// no memory.
    pub fn new(alloc: Global, board: MemoryWorld, turns: Vec<Turn>) -> MemoryEngine
        ensures { result ≡ board }
    {
        MemoryEngine {
            alloc,
            board,
            turns,
        }
    }

    // Keeps what is asked without an answer.
    fn lose(&mut self, txn: Txn, events: Vec<Event>) -> EngineFault
        ensures { Asks txn self.old self.new result }
    {
        match self.board.join(txn) {
            Ok(()) => {
                let _ = self.board.elapse(self.alloc, events);
                EngineFault::NoAnswer
            }
            Err(_) => EngineFault::NoMemory,
        }
    }

    fn take_now(&mut self, fence: u64) -> Result<Option<Taken>, EngineFault>
        ensures takes { TellsTaking fence self.old self.new result }
        ensures answered { IfErr result (λ e. e ≡ faults.NoMemory) }
    {
        match self.board.take(fence) {
            Ok(answer) => Ok(answer),
            Err(_) => Err(EngineFault::NoMemory),
        }
    }

    fn take_after(&mut self, events: Vec<Event>, fence: u64) -> Result<Option<Taken>, EngineFault>
        ensures { TellsTaking fence self.old self.new result }
    {
        match self.board.elapse(self.alloc, events) {
            Ok(()) => self.take_now(fence),
            Err(_) => Err(EngineFault::NoMemory),
        }
    }

    fn put_now(&mut self, fence: u64, serial: u32, body: &Body) -> Result<bool, EngineFault>
        ensures puts { TellsPut fence serial body.now self.old self.new result }
        ensures answered { IfErr result (λ e. e ≡ faults.NoMemory) }
    {
        match self.board.put_under(self.alloc, fence, serial, body) {
            Ok(answer) => Ok(answer),
            Err(_) => Err(EngineFault::NoMemory),
        }
    }

    fn put_after(
        &mut self,
        events: Vec<Event>,
        fence: u64,
        serial: u32,
        body: &Body,
    ) -> Result<bool, EngineFault>
        ensures { TellsPut fence serial body.now self.old self.new result }
    {
        match self.board.elapse(self.alloc, events) {
            Ok(()) => self.put_now(fence, serial, body),
            Err(_) => Err(EngineFault::NoMemory),
        }
    }

    fn take_turn(&mut self, fence: u64) -> Result<Option<Taken>, EngineFault>
        ensures { TellsTaking fence self.old self.new result }
    {
        let Some(turn) = self.turns.pop() else {
            return self.take_now(fence);
        };
        let Turn {
            events,
            is_answered,
        } = turn;
        if is_answered {
            return self.take_after(events, fence);
        }
        let act = Act::Take;
        Err(self.lose(Txn { fence, act }, events))
    }

    fn put_turn(&mut self, fence: u64, serial: u32, body: &Body) -> Result<bool, EngineFault>
        ensures { TellsPut fence serial body.now self.old self.new result }
    {
        let Some(turn) = self.turns.pop() else {
            return self.put_now(fence, serial, body);
        };
        let Turn {
            events,
            is_answered,
        } = turn;
        if is_answered {
            return self.put_after(events, fence, serial, body);
        }
        let Ok(body) = body.copy(self.alloc) else {
            drop(events);
            return Err(EngineFault::NoMemory);
        };
        let act = Act::Put { serial, body };
        Err(self.lose(Txn { fence, act }, events))
    }

    // Lets happen what is planned before a call that asks for nothing, and says whether it is
    // answered.
    fn step(&mut self) -> Result<bool, EngineFault>
        ensures { Elapses self.old self.new }
    {
        let Some(turn) = self.turns.pop() else {
            return Ok(true);
        };
        let Turn {
            events,
            is_answered,
        } = turn;
        match self.board.elapse(self.alloc, events) {
            Ok(()) => Ok(is_answered),
            Err(_) => Err(EngineFault::NoMemory),
        }
    }

    fn row_now(&mut self, serial: u32) -> Result<Option<Body>, EngineFault>
        ensures same { self.new ≡ self.old }
        ensures row { IfOk result (λ row. row ≡ slice_get self.old.rows serial) }
    {
        match self.board.row(self.alloc, serial) {
            Ok(row) => Ok(row),
            Err(_) => Err(EngineFault::NoMemory),
        }
    }
}

impl Engine for MemoryEngine {
    ghost use Rattle.std.specs.Prelude.{Some};

    ghost world = { λ k. Some k };

    fn owner(&mut self) -> Result<Owner, EngineFault> {
        match self.step() {
            Ok(true) => Ok(self.board.owner()),
            Ok(false) => Err(EngineFault::NoAnswer),
            Err(fault) => Err(fault),
        }
    }

    fn row(&mut self, serial: u32) -> Result<Option<Body>, EngineFault> {
        match self.step() {
            Ok(true) => self.row_now(serial),
            Ok(false) => Err(EngineFault::NoAnswer),
            Err(fault) => Err(fault),
        }
    }

    fn take(&mut self, fence: u64) -> Result<Option<Taken>, EngineFault> {
        self.take_turn(fence)
    }

    fn put(&mut self, fence: u64, serial: u32, body: &Body) -> Result<bool, EngineFault> {
        self.put_turn(fence, serial, body)
    }
}
