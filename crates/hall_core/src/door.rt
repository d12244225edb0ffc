// Where readers get their places, and their entry to the board. Both count how often they were
// refused, and no other module can raise these counts. They are trusted: no clause of the board
// shows that it refused.
ghost use Rattle.std.specs.Prelude.{◌≡◌, ◌≤◌, IfSome, IfNone, MatchBool};
ghost use Rattle.std.specs.Fn.{FnOnceReturnsAt};
ghost use mathlib.Core.List.{IsPrefix};
ghost use Rattle.geda_defs.specs.Causes.{HasRisen};
ghost use Rattle.hall_core.specs.BoardSteps.{IsShownFrom};

use crate::board_copy::ShowsBoard;
use crate::published::PublishedDesk;
use hall_log::{HallName, Prefix};
use left_right::ReadHandle;
use std::marker::{Model, PhantomData};
use std::sync::Wait;

/// Where readers get their places. Contracts see how often one was refused, at most 2^64 - 1.
#[derive(Drop)]
pub struct Places {
    refused: u64,
}

impl Model for Places {
    ghost use Rattle.hall_core.specs.Seats.{PlacesData};

    ghost Value = { PlacesData };

    ghost view = { λ p. record { refused = p.refused } };
}

impl Places {
    /// Where no place was refused yet. It takes no memory.
    pub fn new() -> Places
        ensures { result.refused ≡ 0 }
    {
        Places { refused: 0 }
    }

    /// How often a place was refused, at most 2^64 - 1. It takes no memory.
    pub fn refused(&self) -> u64
        ensures { result ≡ self.now.refused }
    {
        self.refused
    }

    /// The door of a new reader.
    ///
    /// `None` only where the count of refusals rose.
    pub(crate) fn door<B: HallName, S: ShowsBoard<B>, R: Wait + Drop>(
        &mut self,
        desk: &PublishedDesk<B, S, R>,
    ) -> Option<Door<B, S>>
        ensures some { IfSome result (λ door. door.refusals ≡ 0) }
        ensures none { IfNone result (HasRisen self.old.refused self.new.refused) }
        ensures later { self.old.refused ≤ self.new.refused }
    {
        match desk.door() {
            Some(door) => Some(door),
            None => {
                self.refused = self.refused.saturating_add(1);
                None
            }
        }
    }
}

/// The way of one reader to the board. Contracts see how often it was refused, at most 2^64 - 1.
#[derive(Drop)]
pub struct Door<B: HallName, S: ShowsBoard<B>> {
    reader: ReadHandle<S>,
    refusals: u64,
    of: PhantomData<B>,
}

impl<B: HallName, S: ShowsBoard<B>> Model for Door<B, S> {
    ghost use Rattle.hall_core.specs.Seats.{DoorData};

    ghost Value = { DoorData };

    ghost view = { λ d. record { refusals = d.refusals } };
}

// Shows what is published to a closure, where it holds all that was seen and has so many entries.
fn read_from<B: HallName, S: ShowsBoard<B>, T, F: FnOnce(&S) -> T + Drop>(
    reader: &mut ReadHandle<S>,
    seen: &Prefix<B>,
    least: u64,
    f: F,
) -> Option<(Prefix<B>, Option<T>)>
    requires { F.IsAlwaysCallable f }
    ensures { IfSome result (λ read. IsPrefix seen.now read.0 × IsShownFrom S.list least read.0
        (λ answer shown. FnOnceReturnsAt F.FnOnce f shown answer) read.1) }
{
    let guard = reader.enter()?;
    let shown: &S = &guard;
    let prefix = shown.prefix();
    if !seen.begins(prefix) {
        return None;
    }
    if prefix.len() < least {
        return Some((prefix.again(), None));
    }
    let seen = prefix.again();
    Some((seen, Some(f(shown))))
}

impl<B: HallName, S: ShowsBoard<B>> Door<B, S> {
    /// The door of a reader that was not refused yet. It takes no memory.
    pub(crate) fn new(reader: ReadHandle<S>) -> Door<B, S>
        ensures { result.refusals ≡ 0 }
    {
        Door {
            reader,
            refusals: 0,
            of: PhantomData,
        }
    }

    fn refuse(&mut self)
        ensures risen { HasRisen self.old.refusals self.new.refusals }
        ensures later { self.old.refusals ≤ self.new.refusals }
    {
        self.refusals = self.refusals.saturating_add(1);
    }

    // Shows what is published to a closure, where it holds all that was seen and has so many
    // entries, with its prefix.
    pub(crate) fn read<T, F: FnOnce(&S) -> T + Drop>(
        &mut self,
        seen: &Prefix<B>,
        least: u64,
        f: F,
    ) -> Option<(Prefix<B>, Option<T>)>
        requires { F.IsAlwaysCallable f }
        ensures some { IfSome result (λ read.
            IsPrefix seen.now read.0 × IsShownFrom S.list least read.0
            (λ answer shown. FnOnceReturnsAt F.FnOnce f shown answer) read.1) }
        ensures none { IfNone result (HasRisen self.old.refusals self.new.refusals) }
        ensures later { self.old.refusals ≤ self.new.refusals }
    {
        match read_from(&mut self.reader, seen, least, f) {
            Some(read) => Some(read),
            None => {
                self.refuse();
                None
            }
        }
    }

    // Whether what is told holds all that was seen.
    pub(crate) fn admits(&mut self, seen: &Prefix<B>, told: &Prefix<B>) -> bool
        ensures admits { MatchBool result
            (IsPrefix seen.now told.now × (self.new.refusals ≡ self.old.refusals))
            (HasRisen self.old.refusals self.new.refusals) }
        ensures later { self.old.refusals ≤ self.new.refusals }
    {
        if seen.begins(told) {
            return true;
        }
        self.refuse();
        false
    }
}
