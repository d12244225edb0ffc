// What a store in memory holds, and what goes on in it.
ghost use Rattle.std.specs.Prelude.{◌≡◌, [], false, IfOk, IsErr, IsTrue, OnOk};
ghost use Rattle.engine_core.specs.Worlds.{after_txn, after_late, happened, has_room, is_done, is_others, owned, with_late, with_row};
ghost use Rattle.std.specs.List.{slice_get};
ghost use Rattle.engine_core.specs.Calls.{Elapses, IsOwner, IsTake, put_txn, take_txn};

use crate::late::Txn;
use engine_core::{Act, Body, Event, Owner, Taken};
use std::alloc::{AllocError, Global};
use std::marker::Model;

/// A board in memory: its owner's key, its rows, and what was asked and not answered.
#[derive(Drop)]
pub struct MemoryWorld {
    ours: bool,
    fence: u64,
    base: usize,
    rows: Vec<Body>,
    revision: u64,
    late: Vec<Txn>,
}

impl Model for MemoryWorld {
    ghost use Rattle.engine_core.specs.Worlds.{World};

    ghost Value = { World };

    ghost view = { λ w. record {
      ours = w.ours;
      fence = w.fence;
      base = w.base;
      rows = w.rows.items;
      revision = w.revision;
      late = w.late.items;
    } };
}

impl MemoryWorld {
    /// A board of these rows that nobody has taken yet. It takes no memory.
    pub fn new(alloc: Global, rows: Vec<Body>) -> MemoryWorld
        ensures rows { result.rows ≡ rows.items }
        ensures ours { result.ours ≡ false }
        ensures fence { result.fence ≡ 0 }
        ensures revision { result.revision ≡ 0 }
        ensures late { result.late ≡ [] }
    {
        MemoryWorld {
            ours: false,
            fence: 0,
            base: rows.len(),
            rows,
            revision: 0,
            late: Vec::new(alloc),
        }
    }

    /// Whether something can be put still.
    pub fn has_room(&self) -> bool
        ensures { result ≡ has_room self.now }
    {
        self.revision < u64::MAX
    }

    /// Whether a transaction under this revision is done now.
    pub fn is_done(&self, fence: u64) -> bool
        ensures { result ≡ is_done fence self.now }
    {
        self.fence == fence && self.has_room()
    }

    /// Puts the owner's key.
    pub fn own(&mut self, ours: bool)
        requires room { IsTrue (has_room self.old) }
        ensures { self.new ≡ owned ours self.old }
    {
        self.revision += 1;
        self.fence = self.revision;
        if self.ours {
            self.base = self.rows.len();
        }
        self.ours = ours;
    }

    /// Puts a row.
    pub fn put(&mut self, serial: u32, body: Body) -> Result<(), AllocError>
        requires room { IsTrue (has_room self.old) }
        ensures ok { OnOk result (self.new ≡ with_row serial body self.old) }
        ensures err { IsErr result → self.new ≡ self.old }
    {
        let place = serial as usize;
        if place < self.rows.len() {
            self.rows[place] = body;
        } else {
            self.rows.push(body)?;
        }
        self.revision += 1;
        Ok(())
    }

    /// Whether the board is another's, who puts this row.
    fn is_others(&self, serial: u32) -> bool
        ensures { result ≡ is_others serial self.now }
    {
        let place = serial as usize;
        !self.ours && self.base <= place && place <= self.rows.len() && self.has_room()
    }

    /// Does a transaction, or nothing.
    fn act(&mut self, txn: Txn) -> Result<(), AllocError>
        ensures ok { OnOk result (self.new ≡ after_txn txn self.old) }
        ensures err { IsErr result → self.new ≡ self.old }
    {
        if !self.is_done(txn.fence) {
            return Ok(());
        }
        match txn.act {
            Act::Take => {
                self.own(true);
                Ok(())
            }
            Act::Put { serial, body } => self.put(serial, body),
        }
    }

    /// Does what was asked and not answered.
    fn act_late(&mut self, alloc: Global, place: usize) -> Result<(), AllocError>
        ensures ok { OnOk result (self.new ≡ after_late (slice_get self.old.late place) self.old) }
        ensures err { IsErr result → self.new ≡ self.old }
    {
        let Some(late) = self.late.get(place) else {
            return Ok(());
        };
        let txn = late.copy(alloc)?;
        self.act(txn)
    }

    /// Lets an event happen.
    fn happen(&mut self, alloc: Global, event: Event) -> Result<(), AllocError>
        ensures ok { OnOk result (self.new ≡ happened event self.old) }
        ensures err { IsErr result → self.new ≡ self.old }
    {
        match event {
            Event::Late { place } => self.act_late(alloc, place),
            Event::Taken => {
                if self.has_room() {
                    self.own(false);
                }
                Ok(())
            }
            Event::Wrote { serial, body } => {
                if self.is_others(serial) {
                    return self.put(serial, body);
                }
                Ok(())
            }
            Event::Other => {
                if self.has_room() {
                    self.revision += 1;
                }
                Ok(())
            }
        }
    }

    /// Keeps a transaction that is not answered.
    pub fn join(&mut self, txn: Txn) -> Result<(), AllocError>
        ensures ok { OnOk result (self.new ≡ with_late txn self.old) }
        ensures err { IsErr result → self.new ≡ self.old }
    {
        self.late.push(txn)?;
        Ok(())
    }

    /// Lets events happen, one after the other.
    pub fn elapse(&mut self, alloc: Global, events: Vec<Event>) -> Result<(), AllocError>
        ensures { Elapses self.old self.new }
    {
        for event in events {
            self.happen(alloc, event)?;
        }
        Ok(())
    }

    /// The owner's key.
    pub fn owner(&self) -> Owner
        ensures { IsOwner result self.now }
    {
        Owner {
            fence: self.fence,
            ours: self.ours,
        }
    }

    /// A copy of a row.
    pub fn row(&self, alloc: Global, serial: u32) -> Result<Option<Body>, AllocError>
        ensures { IfOk result (λ row. row ≡ slice_get self.now.rows serial) }
    {
        match self.rows.get(serial as usize) {
            Some(body) => Ok(Some(body.copy(alloc)?)),
            None => Ok(None),
        }
    }

    /// Takes the board, where its key stands at this revision.
    pub fn take(&mut self, fence: u64) -> Result<Option<Taken>, AllocError>
        ensures told { IfOk result (λ answer. IsTake fence answer self.old) }
        ensures ok { OnOk result (self.new ≡ after_txn (take_txn fence) self.old) }
        ensures err { IsErr result → self.new ≡ self.old }
    {
        if !self.is_done(fence) {
            return Ok(None);
        }
        let Ok(count) = u32::try_from(self.rows.len()) else {
            return Err(AllocError);
        };
        self.own(true);
        Ok(Some(Taken {
            fence: self.fence,
            count,
        }))
    }

    /// Puts a row, where the owner's key stands at this revision.
    pub fn put_under(
        &mut self,
        alloc: Global,
        fence: u64,
        serial: u32,
        body: &Body,
    ) -> Result<bool, AllocError>
        ensures told { IfOk result (λ answer. answer ≡ is_done fence self.old) }
        ensures ok { OnOk result (self.new ≡ after_txn (put_txn fence serial body.now) self.old) }
        ensures err { IsErr result → self.new ≡ self.old }
    {
        if !self.is_done(fence) {
            return Ok(false);
        }
        self.put(serial, body.copy(alloc)?)?;
        Ok(true)
    }
}
