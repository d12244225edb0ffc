// Where connections come from.
ghost use Rattle.std.specs.Prelude.{ℕ};
ghost use Rattle.geda_defs.specs.Causes.{HasCause};

use web_heads::Link;

/// Why a call of a gate failed.
#[derive(Clone, Copy, Debug, PartialEq, Eq)]
pub enum GateFault {
    /// The address could not be bound.
    Failed,
}

/// A listener, which gives out the connections of clients (docs/RULES.md, "Gates"). Several threads
/// may take connections from one gate.
pub trait Gate {
    /// A connection. It can move to another thread.
    type Link: Link + Send + Drop;

    /// How often a bind failed. The count never falls, and stays at the end of its type.
    ghost faults: { Self → ℕ };

    /// Listens at this address. It is called once, before `next`.
    ///
    /// `Failed` only where the count of faults rose.
    fn bind(&mut self, address: &str) -> Result<(), GateFault>
        ensures cause { HasCause (faults self.old) (faults self.new) result GateFault.Failed };

    /// Waits for the next connection. `None` where no further one comes.
    fn next(&self) -> Option<Self::Link>;
}
