// A connection in memory that waits for others. It tells no contents.
ghost use Rattle.std.specs.Prelude.{None};

use crate::progress::Progress;
use crate::scripts::Script;
use std::sync::Wait;
use std::time::Clock;
use web_heads::{Link, LinkFault, Part};

/// A connection that sends what a script says, and tells all what is written to it.
#[derive(Drop)]
pub struct SharedLink<'a, W: Wait + Clock> {
    progress: Progress<'a, W>,
    place: usize,
    script: Script,
    read_faults: u64,
    write_faults: u64,
}

impl<'a, W: Wait + Clock> SharedLink<'a, W> {
    /// The connection at a place, which sends what a script says.
    pub fn new(progress: Progress<'a, W>, place: usize, script: Script) -> SharedLink<'a, W> {
        SharedLink {
            progress,
            place,
            script,
            read_faults: 0,
            write_faults: 0,
        }
    }
}

impl<W: Wait + Clock> SharedLink<'_, W> {
    /// Waits until what is read next may come, and says whether it may.
    fn is_ready(&self) -> bool {
        match self.script.milestone() {
            Some(milestone) => self.progress.wait_for(milestone),
            None => true,
        }
    }
}

impl<W: Wait + Clock> Link for SharedLink<'_, W> {
    ghost input = { λ _. None };

    ghost output = { λ _. None };

    ghost read_faults = { λ l. l.read_faults };

    ghost write_faults = { λ l. l.write_faults };

    fn begin(&mut self, _part: Part) {}

    fn read(&mut self, room: &mut [u8]) -> Result<usize, LinkFault> {
        if !self.is_ready() {
            self.read_faults = self.read_faults.saturating_add(1);
            return Err(LinkFault::Failed);
        }
        Ok(self.script.take_bytes(room))
    }

    fn write(&mut self, piece: &[u8]) -> Result<(), LinkFault> {
        match self.progress.put(self.place, piece) {
            Ok(()) => Ok(()),
            Err(_) => {
                self.write_faults = self.write_faults.saturating_add(1);
                Err(LinkFault::Failed)
            }
        }
    }
}
