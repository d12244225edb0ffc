// The serial of each number of each session.
ghost use Rattle.std.specs.Prelude.{◌≡◌, ◌==◌, ◌&&◌, ◌+◌, ◌≤◌, ◌<◌, cond, None, Some, ℕ, OnOk};
ghost use Rattle.edit_rules.specs.TicketRows.{ticket};

use std::alloc::{AllocError, Global};
use std::collections::HashMap;
use std::marker::Model;

/// The serial of each number of each session, of which each has a number. Contracts see the rows
/// and the room for more of them.
#[derive(Drop)]
pub struct Tickets {
    rows: HashMap<(u32, u32), u32>,
}

impl Model for Tickets {
    ghost use Rattle.std.specs.HashMap.{spare};
    ghost use Rattle.edit_rules.specs.TicketRows.{TicketsView};

    ghost Value = { TicketsView };

    ghost view = { λ t. record { rows = t.rows.entries; spare = spare t.rows } };
}

impl Tickets {
    /// No rows, and no room. It takes no memory.
    pub fn new(alloc: Global) -> Tickets
        ensures { (s n : ℕ) → ticket result.rows s n ≡ None }
    {
        Tickets {
            rows: HashMap::new(alloc),
        }
    }

    /// The serial of a number of a session. It takes no memory.
    pub fn get(&self, session: u32, number: u32) -> Option<u32>
        ensures { result ≡ ticket self.now.rows session number }
    {
        self.rows.get(&(session, number)).copied()
    }

    /// Makes room for as many more rows. The rows and the room that there is stay, also where
    /// memory runs out.
    pub fn reserve(&mut self, count: usize) -> Result<(), AllocError>
        ensures rows { (s n : ℕ) → ticket self.new.rows s n ≡ ticket self.old.rows s n }
        ensures ok { OnOk result (count ≤ self.new.spare) }
        ensures spare { self.old.spare ≤ self.new.spare }
    {
        self.rows.reserve(count)
    }

    /// Notes a number of a session, and answers the serial that it had. It can't fail and takes no
    /// memory.
    pub fn put(&mut self, session: u32, number: u32, serial: u32) -> Option<u32>
        requires { 0 < self.old.spare }
        ensures rows { (s n : ℕ) → ticket self.new.rows s n
            ≡ cond ((session == s) && (number == n)) (Some serial) (ticket self.old.rows s n) }
        ensures spare { self.old.spare ≤ self.new.spare + 1 }
    {
        let put: Result<_, _> = self.rows.insert((session, number), serial);
        put.unwrap()
    }
}
