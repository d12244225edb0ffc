// What a connection holds of the hall.
ghost use Rattle.std.specs.Prelude.{◌≡◌, ◌≤◌, ◌^◌, ◌<◌, length, IfSome, IfNone, MatchBool};
ghost use Rattle.std.specs.Fn.{FnOnceReturnsAt};
ghost use mathlib.Core.List.{IsPrefix};
ghost use Rattle.geda_defs.specs.Causes.{HasRisen};
ghost use Rattle.hall_log.specs.Histories.{IsHistory};
ghost use Rattle.hall_core.specs.BoardSteps.{IsAnswered, IsAnsweredFrom, IsShownFrom};
ghost use Rattle.hall_core.specs.Seats.{Learns, SeatData};

use crate::board_copy::ShowsBoard;
use crate::door::Door;
use crate::losses::Allowance;
use board_core::Board;
use hall_log::{HallName, Prefix};
use std::marker::Model;

/// The read handle of one connection (docs/RULES.md, "Seats"). Contracts see the entries that it
/// has seen, its losses, which are the faults of the keeper that it was told, at most
/// 4,294,967,295, and its refusals, which are how often it was refused its entry to the board, at
/// most 2^64 - 1.
#[derive(Drop)]
pub struct Seat<B: HallName, S: ShowsBoard<B>> {
    door: Door<B, S>,
    seen: Prefix<B>,
    pub(crate) allowance: Allowance<B>,
}

impl<B: HallName, S: ShowsBoard<B>> Model for Seat<B, S> {
    ghost use Rattle.hall_core.specs.Seats.{SeatData};

    ghost Value = { SeatData };

    ghost view = { λ s. record {
      seen = s.seen;
      losses = s.allowance.losses;
      refusals = s.door.refusals;
    } };
}

impl<B: HallName, S: ShowsBoard<B>> Seat<B, S> {
    pub(crate) fn new(door: Door<B, S>, seen: Prefix<B>, allowance: Allowance<B>) -> Seat<B, S>
        ensures seen { result.seen ≡ seen }
        ensures losses { result.losses ≡ allowance.losses }
        ensures refusals { result.refusals ≡ door.refusals }
    {
        Seat {
            door,
            seen,
            allowance,
        }
    }

    /// How many entries it has seen, which are a legal history. It takes no memory.
    pub fn front(&self) -> u32
        ensures length { result ≡ length self.now.seen }
        ensures history { IsHistory self.now.seen }
    {
        self.seen.len() as u32
    }

    /// Shows the board to a closure, with how many entries the board has. It holds all that this
    /// seat had seen, and has the project of just what the seat has then seen. It takes no lock,
    /// does not wait, and takes no memory of its own.
    ///
    /// `None` only where the count of refusals rose; what it has seen is then as before.
    pub fn look<T, F: FnOnce(&Board) -> T + Drop>(&mut self, f: F) -> Option<(u32, T)>
        requires { F.IsAlwaysCallable f }
        ensures seen { IfSome result (λ look. IsPrefix self.old.seen self.new.seen) }
        ensures front { IfSome result (λ look. look.0 ≡ length self.new.seen) }
        ensures answered { IfSome result (λ look.
            IsAnswered self.new.seen (λ board. FnOnceReturnsAt F.FnOnce f board look.1)) }
        ensures history { IfSome result (λ look. IsHistory self.new.seen) }
        ensures none { IfNone result
            ((self.new.seen ≡ self.old.seen) × HasRisen self.old.refusals self.new.refusals) }
        ensures losses { self.new.losses ≡ self.old.losses }
        ensures later { self.old.refusals ≤ self.new.refusals }
    {
        let (front, answer) = self.look_from(0, f)?;
        Some((front, answer?))
    }

    /// Shows the board as `look` does, where the board has `least` entries or more. Where it has
    /// fewer, the closure is not called, and what it would answer is `None`.
    pub fn look_from<T, F: FnOnce(&Board) -> T + Drop>(
        &mut self,
        least: u64,
        f: F,
    ) -> Option<(u32, Option<T>)>
        requires { F.IsAlwaysCallable f }
        ensures seen { IfSome result (λ look. IsPrefix self.old.seen self.new.seen) }
        ensures front { IfSome result (λ look. look.0 ≡ length self.new.seen) }
        ensures answered { IfSome result (λ look. IsAnsweredFrom least self.new.seen
            (λ answer board. FnOnceReturnsAt F.FnOnce f board answer) look.1) }
        ensures history { IfSome result (λ look. IsHistory self.new.seen) }
        ensures none { IfNone result
            ((self.new.seen ≡ self.old.seen) × HasRisen self.old.refusals self.new.refusals) }
        ensures losses { self.new.losses ≡ self.old.losses }
        ensures later { self.old.refusals ≤ self.new.refusals }
    {
        self.look_whole(
            least,
            |shown: &S| -> T
                requires { F.IsAlwaysCallable f }
                ensures { IsAnswered (S.list shown.now)
                    (λ board. FnOnceReturnsAt F.FnOnce f board result) }
            { f(shown.board()) },
        )
    }

    /// Shows all that is published, the board with its prefix, as `look_from` shows the board.
    pub fn look_whole<T, F: FnOnce(&S) -> T + Drop>(
        &mut self,
        least: u64,
        f: F,
    ) -> Option<(u32, Option<T>)>
        requires { F.IsAlwaysCallable f }
        ensures seen { IfSome result (λ look. IsPrefix self.old.seen self.new.seen) }
        ensures front { IfSome result (λ look. look.0 ≡ length self.new.seen) }
        ensures answered { IfSome result (λ look. IsShownFrom S.list least self.new.seen
            (λ answer shown. FnOnceReturnsAt F.FnOnce f shown answer) look.1) }
        ensures history { IfSome result (λ look. IsHistory self.new.seen) }
        ensures none { IfNone result
            ((self.new.seen ≡ self.old.seen) × HasRisen self.old.refusals self.new.refusals) }
        ensures losses { self.new.losses ≡ self.old.losses }
        ensures later { self.old.refusals ≤ self.new.refusals }
    {
        let (seen, answer) = self.door.read(&self.seen, least, f)?;
        let front = seen.len() as u32;
        self.seen = seen;
        Some((front, answer))
    }

    /// The prefix that is published, which holds all that this seat has seen. What it has seen
    /// stays. It takes no lock, does not wait, and takes no memory.
    ///
    /// `None` only where the count of refusals rose.
    pub fn published(&mut self) -> Option<Prefix<B>>
        ensures holds { IfSome result (λ told. IsPrefix self.old.seen told) }
        ensures none { IfNone result (HasRisen self.old.refusals self.new.refusals) }
        ensures same { (self.new.seen ≡ self.old.seen) × (self.new.losses ≡ self.old.losses) }
        ensures later { self.old.refusals ≤ self.new.refusals }
    {
        let (told, _) = self.door.read(&self.seen, 0, |_shown: &S| ())?;
        Some(told)
    }

    /// Sees what it is told, where that holds all that it had seen, and says whether it does. It
    /// takes no lock and no memory.
    ///
    /// False only where the count of refusals rose; what it has seen is then as before.
    pub fn learn(&mut self, told: &Prefix<B>) -> bool
        ensures learned { Learns self.old told.now result self.new }
    {
        if !self.door.admits(&self.seen, told) {
            return false;
        }
        self.seen = told.again();
        true
    }

    // Whether these entries hold all that it has seen.
    pub(crate) fn is_held(&mut self, listed: &Prefix<B>) -> bool
        ensures held { MatchBool result
            (IsPrefix self.new.seen listed.now)
            (HasRisen self.old.refusals self.new.refusals) }
        ensures same { (self.new.seen ≡ self.old.seen) × (self.new.losses ≡ self.old.losses) }
        ensures later { self.old.refusals ≤ self.new.refusals }
    {
        self.door.admits(&self.seen, listed)
    }
}
