// A gate in memory, of which some calls fail.
ghost use Rattle.std.specs.Prelude.{◌≡◌, ◌↔◌, ◌≤◌, ◌∷◌, [], IsErrOf, IsTrue};
ghost use Rattle.std.specs.Prelude.{MatchBool, MatchOption, OnErr, OnOk};
ghost use Rattle.geda_defs.specs.Causes.{HasCause, HasRisen};
ghost use Rattle.outside.specs.FailingCalls.{NextFails, after_call, after_fault};

use crate::gate::{Gate, GateFault};
use outside::FailingCalls;
use std::marker::Model;
use std::sync::{Mutex, Wait};
use std::vec;
use web_heads::Link;

/// The connections that are still to come.
#[derive(Drop)]
struct LinksToCome<L> {
    links: vec::IntoIter<L>,
}

impl<L> Model for LinksToCome<L> {
    ghost use Rattle.std.specs.Prelude.{List};
    ghost use Rattle.std.specs.Vec.Iter.{into_iter_items};

    ghost Value = { List L };

    ghost view = { λ c. into_iter_items c.links };
}

impl<L: Drop> LinksToCome<L> {
    /// Takes the first connection.
    fn take_first(&mut self) -> Option<L>
        ensures { MatchOption result
            ((self.old ≡ []) × (self.new ≡ []))
            (λ link. self.old ≡ link ∷ self.new) }
    {
        self.links.next()
    }
}

/// A gate in memory: it gives out the connections of a list, from the first to the last.
pub struct MemoryGate<L, R: Wait> {
    rt: R,
    links: Mutex<LinksToCome<L>>,
    planned: FailingCalls,
}

impl<L: Drop, R: Wait + Drop> Drop for MemoryGate<L, R> {
    fn drop(self) {
        let MemoryGate {
            rt: _,
            links: _,
            planned: _,
        } = self;
    }
}

impl<L, R: Wait> Model for MemoryGate<L, R> {
    ghost use Rattle.outside.specs.FailingCalls.{FailingCallsData};

    ghost Value = { FailingCallsData };

    ghost view = { λ g. g.planned };
}

impl<L, R: Wait> MemoryGate<L, R> {
    /// A gate to these connections. The binds whose numbers are in `failing`, counted from 1, fail.
    /// It takes no memory. `rt` is what a call waits by for the list.
    pub fn new(rt: R, links: Vec<L>, failing: Vec<u64>) -> MemoryGate<L, R>
        ensures failing { result.failing ≡ failing.items }
        ensures calls { result.calls ≡ 0 }
        ensures faults { result.faults ≡ 0 }
    {
        let links = LinksToCome {
            links: links.into_iter(),
        };
        MemoryGate {
            rt,
            links: Mutex::new(links),
            planned: FailingCalls::new(failing),
        }
    }

    /// How many binds there were. The count stays at the end of its type. It takes no memory.
    pub fn calls(&self) -> u64
        ensures { result ≡ self.now.calls }
    {
        self.planned.calls()
    }
}

impl<L: Link + Send + Drop, R: Wait> Gate for MemoryGate<L, R> {
    type Link = L;

    ghost faults = { λ g. g.faults };

    /// The address does not matter.
    ///
    /// `Failed` exactly where the number of the bind is in the list of those that fail. The count
    /// of binds rises by one, with `Failed` the count of faults too, and all else stays.
    fn bind(&mut self, _address: &str) -> Result<(), GateFault>
        ensures cause { HasCause self.old.faults self.new.faults result GateFault.Failed }
        ensures failed { IsErrOf result GateFault.Failed ↔ NextFails self.old }
        ensures ok { OnOk result (self.new ≡ after_call self.old) }
        ensures err { OnErr result (self.new ≡ after_fault self.old) }
    {
        if self.planned.is_next_failing() {
            return Err(GateFault::Failed);
        }
        Ok(())
    }

    /// The first connection that was not given out before. `None` where the list is used up.
    fn next(&self) -> Option<L> {
        self.links.lock(&self.rt).take_first()
    }
}
