// A keeper in memory that notes the store which it is given, and of which one call waits. It tells
// no rows.
ghost use Rattle.std.specs.Prelude.{◌≡◌, None};
ghost use Rattle.geda_defs.specs.Causes.{HasCause};

use crate::progress::{Milestone, Progress};
use edit_entries::Entry;
use keeper_core::{KeepFault, Keeper, MemoryKeeper};
use std::sync::Wait;
use std::time::Clock;

/// The call of a keeper that waits.
#[derive(Clone, Copy)]
pub struct HeldCall {
    /// The number of the call, from 1 over all calls.
    pub call: u32,
    /// What it waits for.
    pub until: Milestone,
}

/// A keeper in memory that tells all when a call begins, and notes its store under its name. One
/// call may wait then, and fails where it waits in vain.
#[derive(Drop)]
pub struct HeldKeeper<'a, W: Wait + Clock> {
    name: &'static str,
    keeper: MemoryKeeper,
    progress: Progress<'a, W>,
    place: usize,
    held: Option<HeldCall>,
    begun: u32,
    faults: u64,
}

impl<'a, W: Wait + Clock> HeldKeeper<'a, W> {
    /// This keeper under a name, whose steps stand at a place.
    pub fn new(
        name: &'static str,
        keeper: MemoryKeeper,
        progress: Progress<'a, W>,
        place: usize,
        held: Option<HeldCall>,
    ) -> HeldKeeper<'a, W> {
        HeldKeeper {
            name,
            keeper,
            progress,
            place,
            held,
            begun: 0,
            faults: 0,
        }
    }
}

impl<W: Wait + Clock> HeldKeeper<'_, W> {
    /// Begins a call, waits where it is the one that waits, and says whether it may be made.
    fn begin_call(&mut self) -> bool
        ensures { self.new.faults ≡ self.old.faults }
    {
        self.begun = self.begun.saturating_add(1);
        self.progress.step(self.place);
        match self.held {
            Some(held) if held.call == self.begun => self.progress.wait_for(held.until),
            _ => true,
        }
    }

    /// Counts a call that failed, and hands on what came of it.
    fn counted<T: Drop>(&mut self, done: Result<T, KeepFault>) -> Result<T, KeepFault>
        ensures { HasCause self.old.faults self.new.faults result KeepFault.Failed }
    {
        if matches!(done, Err(KeepFault::Failed)) {
            self.faults = self.faults.saturating_add(1);
        }
        done
    }
}

impl<W: Wait + Clock> Keeper for HeldKeeper<'_, W> {
    ghost rows = { λ _. None };

    ghost faults = { λ k. k.faults };

    ghost never_fails = { λ _. ⊥ };

    fn attach(&mut self, store: &str) -> Result<(), KeepFault> {
        if !self.begin_call() {
            return self.counted(Err(KeepFault::Failed));
        }
        self.progress.note(self.name, store)?;
        let done = self.keeper.attach(store);
        self.counted(done)
    }

    fn put(&mut self, serial: u32, entry: &Entry) -> Result<(), KeepFault> {
        if !self.begin_call() {
            return self.counted(Err(KeepFault::Failed));
        }
        let done = self.keeper.put(serial, entry);
        self.counted(done)
    }

    fn load(&mut self, serial: u32) -> Result<Option<Entry>, KeepFault> {
        if !self.begin_call() {
            return self.counted(Err(KeepFault::Failed));
        }
        let done = self.keeper.load(serial);
        self.counted(done)
    }
}
