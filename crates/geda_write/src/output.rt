// Where a text goes: a text that grows, or a count of its bytes.
ghost use Rattle.std.specs.Prelude.{◌≡◌, ◌<◌, ◌-◌, ◌^◌};
ghost use Rattle.geda_write.specs.steps.Output.{Adds, Got, Spare, Written};

use std::alloc::AllocError;
use std::convert::Infallible;

pub(crate) trait Output {
    type Fault;

    // What has gone out so far.
    ghost got: { Self → Got };

    fn piece(&mut self, piece: &[u8]) -> Result<(), Self::Fault>
        ensures { Adds result (got self.old) (got self.new) piece.now };
}

impl Output for Vec<u8> {
    type Fault = AllocError;

    ghost got = { λ v. Written v.items };

    #[inline(always)]
    #[tactic(auto, unfolding(crate::specs::steps::Output::more))]
    fn piece(&mut self, piece: &[u8]) -> Result<(), AllocError> {
        self.extend_from_slice(piece)?;
        Ok(())
    }
}

// The bytes of a text, at most 18,446,744,073,709,551,615.
#[derive(Drop)]
pub(crate) struct Count {
    pub(crate) bytes: u64,
}

impl Count {
    pub(crate) fn bytes(&self) -> u64
        ensures bytes { result ≡ self.now.bytes }
        ensures fits { self.now.bytes < 2 ^ 64 }
    {
        self.bytes
    }
}

impl Output for Count {
    type Fault = Infallible;

    ghost got = { λ c. Spare (2 ^ 64 - 1 - c.bytes) };

    #[tactic(auto, unfolding(crate::specs::steps::Output::more))]
    fn piece(&mut self, piece: &[u8]) -> Result<(), Infallible> {
        self.bytes = self.bytes.saturating_add(piece.len() as u64);
        Ok(())
    }
}
