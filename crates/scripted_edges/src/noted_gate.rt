// A gate in memory that notes the address which it is given.
ghost use Rattle.geda_defs.specs.Causes.{HasCause};

use crate::progress::Progress;
use gates::{Gate, GateFault, MemoryGate};
use std::sync::Wait;
use std::time::Clock;
use web_heads::Link;

/// A gate in memory that tells which address it was given.
pub struct NotedGate<'a, L, W: Wait + Clock> {
    gate: MemoryGate<L, &'a W>,
    progress: Progress<'a, W>,
}

impl<L: Drop, W: Wait + Clock> Drop for NotedGate<'_, L, W> {
    fn drop(self) {
        let NotedGate {
            gate: _,
            progress: _,
        } = self;
    }
}

impl<'a, L, W: Wait + Clock> NotedGate<'a, L, W> {
    /// This gate, which notes its address where all notes stand.
    pub fn new(gate: MemoryGate<L, &'a W>, progress: Progress<'a, W>) -> NotedGate<'a, L, W> {
        NotedGate { gate, progress }
    }
}

impl<L: Link + Send + Drop, W: Wait + Clock> Gate for NotedGate<'_, L, W> {
    type Link = L;

    ghost faults = { λ g. g.gate.faults };

    /// Notes the address. Where there is no memory for it, a row tells another text.
    fn bind(&mut self, address: &str) -> Result<(), GateFault> {
        let _ = self.progress.note("gate", address);
        self.gate.bind(address)
    }

    fn next(&self) -> Option<L> {
        self.gate.next()
    }
}
