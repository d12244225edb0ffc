// What the workers of a gate share.
use crate::listener::Listener;
use crate::poller::{Poller, WAKER, now};
use crate::stream::Stream;
use connection_flow::{Connection, Connections, Lent};
use mio::{Registry, Waker};
use std::alloc::Global;
use std::io;
use std::net::Net;
use std::sync::{Mutex, Wait, WaitMethods};
use std::time::{Clock, Duration};

/// How long the worker that waits for what the system tells waits at once.
const LONGEST_WAIT_SECONDS: u64 = 1;

/// A listener, and its connections. The lock of the poller is held by the worker that waits for
/// what the system tells, and the lock of the connections for as long as it takes to go on with
/// one: no call under it waits.
#[derive(Drop)]
pub struct Shared {
    connections: Mutex<Connections<Stream>>,
    poller: Mutex<Poller>,
    registry: Registry,
    waker: Waker,
}

impl Shared {
    /// A listener from which nothing was taken yet.
    pub fn new<R: Net>(rt: &R, alloc: Global, listener: Listener) -> io::Result<Shared> {
        let poller = Poller::new(rt, alloc, listener)?;
        let registry = poller.registry().try_clone()?;
        let waker = Waker::new(&registry, WAKER)?;
        Ok(Shared {
            connections: Mutex::new(Connections::new(alloc)?),
            poller: Mutex::new(poller),
            registry,
            waker,
        })
    }

    /// What sockets are made known to.
    pub fn registry(&self) -> &Registry {
        &self.registry
    }

    // Sees to what the system tells, where it was not asked for a while and nobody else does.
    fn look<R: Clock + Wait>(&self, rt: &R) {
        if let Some(mut poller) = self.poller.try_lock() {
            if poller.is_due(now(rt)) {
                poller.wait(rt, &self.connections, Duration::ZERO);
            }
        }
    }

    // The next request that is whole.
    fn lend<R: Wait>(&self, rt: &R) -> Option<Lent<Stream>> {
        self.connections.lock(rt).lend()
    }

    // Waits for a request that is whole, as one of those that rest.
    fn rest<R: Clock + Wait>(&self, rt: &R) -> Option<Lent<Stream>> {
        let mut poller = self.poller.lock(rt);
        for _ in rt.forever() {
            if let Some(lent) = self.lend(rt) {
                return Some(lent);
            }
            if poller.has_failed() {
                return None;
            }
            poller.wait(
                rt,
                &self.connections,
                Duration::from_secs(LONGEST_WAIT_SECONDS),
            );
        }
        None
    }

    /// Waits for a connection whose next request is whole. `None` after 1,000 failures in a row.
    pub fn next<R: Clock + Wait>(&self, rt: &R) -> Option<Lent<Stream>> {
        self.look(rt);
        if let Some(lent) = self.lend(rt) {
            return Some(lent);
        }
        self.connections.lock(rt).rests(true);
        let found = self.rest(rt);
        self.connections.lock(rt).rests(false);
        found
    }

    /// How many requests could be served at once, if there were a worker.
    pub fn others<R: Clock + Wait>(&self, rt: &R) -> usize {
        self.look(rt);
        self.connections.lock(rt).ready_count()
    }

    /// A worker is done with a connection, and hands it back if it is to go on. Where more requests
    /// wait than the one that this worker takes next, another one is woken.
    pub fn take_back<R: Clock + Wait>(
        &self,
        rt: &R,
        place: usize,
        is_post: bool,
        connection: Option<Connection<Stream>>,
    ) {
        let now = now(rt);
        let mut connections = self.connections.lock(rt);
        connections.take_back(place, is_post, connection, now);
        if connections.wants_one_more() {
            // Without it they wait for the next event, or a second.
            let _woken = self.waker.wake();
        }
    }
}
