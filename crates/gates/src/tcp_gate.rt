// A listener of sockets.
use crate::gate::{Gate, GateFault};
use crate::listener::Listener;
use crate::shared::Shared;
use crate::tcp_link::TcpLink;
use std::fs::Files;
use std::io;
use std::net::{Net, TcpListener, TcpStream};
use std::sync::{Arc, Wait};
use std::time::Clock;

/// A listener of TCP or of the Unix domain, which waits for clients.
///
/// A connection is given out when a request is whole, head and body, or can be none, and is taken
/// back when that was answered: it is several links, one after the other. Requests are gathered
/// beside, and what does not go out at once of a reply is sent beside. Where room or memory is
/// wanted, the connection that has waited the longest since it came or had its last reply is
/// closed. At most six links of requests that may be edits are out at once.
#[derive(Drop)]
pub struct TcpGate<
    'a,
    R: Net<Listener = TcpListener, Stream = TcpStream> + Files + Clock + Wait + AllocGlobal,
> {
    rt: &'a R,
    shared: Option<Arc<Shared>>,
    faults: u64,
}

/// Listens at an address.
fn listen<R: Net<Listener = TcpListener, Stream = TcpStream> + Files + AllocGlobal>(
    rt: &R,
    address: &str,
) -> io::Result<Arc<Shared>> {
    let listener = Listener::bind(rt, address)?;
    let shared = Shared::new(rt, rt.alloc(), listener)?;
    Ok(Arc::new(rt.alloc(), shared)?)
}

impl<
    'a,
    R: Net<Listener = TcpListener, Stream = TcpStream> + Files + Clock + Wait + AllocGlobal,
> TcpGate<'a, R> {
    ghost use Rattle.std.specs.Prelude.{◌≡◌};

    /// A listener that is not bound yet.
    pub fn new(rt: &'a R) -> TcpGate<'a, R>
        ensures faults { result.faults ≡ 0 }
    {
        TcpGate {
            rt,
            shared: None,
            faults: 0,
        }
    }
}

impl<
    'a,
    R: Net<Listener = TcpListener, Stream = TcpStream> + Files + Clock + Wait + AllocGlobal + Sync,
> Gate for TcpGate<'a, R> {
    type Link = TcpLink<'a, R>;

    ghost faults = { λ g. g.faults };

    /// Listens at this address: an IP address or the name of a host, `:` and a port; or `unix:` and
    /// a path.
    fn bind(&mut self, address: &str) -> Result<(), GateFault> {
        match listen(self.rt, address) {
            Ok(shared) => {
                self.shared = Some(shared);
                Ok(())
            }
            Err(_) => {
                self.faults = self.faults.saturating_add(1);
                Err(GateFault::Failed)
            }
        }
    }

    /// Waits for the next client. A connection that fails before it is set up counts for none, and
    /// the next one is waited for. `None` after 1,000 such failures in a row, and before a bind.
    fn next(&self) -> Option<TcpLink<'a, R>> {
        let shared = self.shared.as_ref()?;
        let shared_too = Arc::try_clone(shared).ok()?;
        let lent = shared.next(self.rt)?;
        Some(TcpLink::new(self.rt, shared_too, lent))
    }
}
