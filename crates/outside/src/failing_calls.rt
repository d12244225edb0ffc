// The calls of a form in memory that are to fail.
ghost use Rattle.std.specs.Prelude.{◌≡◌, ◌↔◌, ◌≤◌, IsTrue, MatchBool};
ghost use Rattle.geda_defs.specs.Causes.{HasRisen};
ghost use Rattle.outside.specs.Counts.{one_more};
ghost use Rattle.outside.specs.FailingCalls.{NextFails, after_call, after_fault};

use std::marker::Model;

/// Which calls of a form in memory are to fail, by their numbers, which count from 1, and how many
/// calls there were and failed. Each count stays at the end of its type.
#[derive(Drop)]
pub struct FailingCalls {
    failing: Vec<u64>,
    calls: u64,
    faults: u64,
}

impl Model for FailingCalls {
    ghost use Rattle.outside.specs.FailingCalls.{FailingCallsData};

    ghost Value = { FailingCallsData };

    ghost view = { λ p. record { failing = p.failing.items; calls = p.calls; faults = p.faults } };
}

impl FailingCalls {
    /// Before the first call. The calls whose numbers are in `failing` are to fail. It takes no
    /// memory.
    pub fn new(failing: Vec<u64>) -> FailingCalls
        ensures failing { result.failing ≡ failing.items }
        ensures calls { result.calls ≡ 0 }
        ensures faults { result.faults ≡ 0 }
    {
        FailingCalls {
            failing,
            calls: 0,
            faults: 0,
        }
    }

    /// How many calls there were. It takes no memory.
    pub fn calls(&self) -> u64
        ensures { result ≡ self.now.calls }
    {
        self.calls
    }

    /// Counts a call, and says whether it is to fail, which it does exactly where its number is in
    /// the list. Such a one is counted as a fault too. It takes no memory.
    pub fn is_next_failing(&mut self) -> bool
        ensures failing { IsTrue result ↔ NextFails self.old }
        ensures after { MatchBool result
            (self.new ≡ after_fault self.old)
            (self.new ≡ after_call self.old) }
        ensures later { self.old.faults ≤ self.new.faults }
        ensures cause { IsTrue result → HasRisen self.old.faults self.new.faults }
    {
        self.calls = self.calls.saturating_add(1);
        if self.failing.contains(&self.calls) {
            self.faults = self.faults.saturating_add(1);
            return true;
        }
        false
    }

    /// Counts the last call as a fault, though its number is not in the list. It takes no memory.
    pub fn count_fault(&mut self)
        ensures failing { self.new.failing ≡ self.old.failing }
        ensures calls { self.new.calls ≡ self.old.calls }
        ensures faults { self.new.faults ≡ one_more self.old.faults }
        ensures later { self.old.faults ≤ self.new.faults }
        ensures risen { HasRisen self.old.faults self.new.faults }
    {
        self.faults = self.faults.saturating_add(1);
    }
}
