// Requests of a client. It tells no contents.
ghost use Rattle.std.specs.Prelude.{None};

use crate::served::Served;
use crate::shared::Shared;
use crate::stream::Stream;
use connection_flow::Lent;
use std::sync::{Arc, Wait};
use std::time::Clock;
use web_heads::{Link, LinkFault, Part};

/// Requests of a client that are whole, for as long as a worker answers them: its input ends behind
/// the last of them. A connection is one such link after the other.
#[derive(Drop)]
pub struct TcpLink<'a, R: Clock + Wait> {
    served: Served<'a, R>,
    read_faults: u64,
    write_faults: u64,
}

impl<'a, R: Clock + Wait> TcpLink<'a, R> {
    ghost use Rattle.std.specs.Prelude.{◌≡◌};

    /// The link of a connection that a worker begins to serve.
    pub(crate) fn new(rt: &'a R, shared: Arc<Shared>, lent: Lent<Stream>) -> TcpLink<'a, R>
        ensures read_faults { result.read_faults ≡ 0 }
        ensures write_faults { result.write_faults ≡ 0 }
    {
        TcpLink {
            served: Served::new(rt, shared, lent),
            read_faults: 0,
            write_faults: 0,
        }
    }
}

impl<R: Clock + Wait> Link for TcpLink<'_, R> {
    ghost input = { λ _. None };

    ghost output = { λ _. None };

    ghost read_faults = { λ l. l.read_faults };

    ghost write_faults = { λ l. l.write_faults };

    fn begin(&mut self, part: Part) {
        self.served.begin(part);
    }

    /// It never fails.
    fn read(&mut self, room: &mut [u8]) -> Result<usize, LinkFault> {
        Ok(self.served.read(room))
    }

    fn write(&mut self, piece: &[u8]) -> Result<(), LinkFault> {
        match self.served.write(piece) {
            Ok(()) => Ok(()),
            Err(_) => {
                self.write_faults = self.write_faults.saturating_add(1);
                Err(LinkFault::Failed)
            }
        }
    }
}
