// Waiting for what the system tells. One worker at a time does so, for all.
use crate::listener::Listener;
use crate::stream::Stream;
use connection_flow::{Connection, Connections, is_to_wait};
use mio::unix::SourceFd;
use mio::{Events, Interest, Poll, Registry, Token};
use std::alloc::Global;
use std::net::Net;
use std::sync::{Mutex, Wait};
use std::time::{Clock, Duration};
use std::{io, thread};

/// After so many failures in a row no further connection comes.
const MOST_FAILURES: u32 = 1_000;

/// How long to wait after the first failure, since want of descriptors or of memory mostly passes.
/// It doubles with each further one, up to the longest.
const SHORTEST_PAUSE_MILLISECONDS: u64 = 10;

const MOST_DOUBLINGS: u32 = 7;

const LONGEST_PAUSE_SECONDS: u64 = 1;

/// How often connections whose time is up are looked for.
const SWEEP_MILLISECONDS: u64 = 500;

/// How often the system is asked at most while requests wait for a worker.
const ASK_MILLISECONDS: u64 = 1;

/// How many events, and how many new connections, are taken at once.
const MOST_EVENTS: usize = 256;

const MOST_ACCEPTED: u32 = 64;

/// The listener's name among the events. The others are places of connections.
const LISTENER: Token = Token(usize::MAX);

/// The name of what ends a wait.
pub const WAKER: Token = Token(usize::MAX - 1);

/// A listener, and what the system tells of.
#[derive(Drop)]
pub struct Poller {
    alloc: Global,
    poll: Poll,
    events: Events,
    listener: Listener,
    is_called: bool,
    failures: u32,
    retry_at: Duration,
    sweep_at: Duration,
    asked_at: Duration,
}

/// The time on a clock that never goes back.
pub fn now<R: Clock>(rt: &R) -> Duration {
    match rt.monotonic() {
        Ok(now) => now,
        Err(_) => Duration::MAX,
    }
}

/// How long to wait after so many failures in a row.
fn pause_after(failures: u32) -> Duration {
    let doubled = Duration::from_millis(SHORTEST_PAUSE_MILLISECONDS).saturating_mul(
        1 << failures.min(MOST_DOUBLINGS),
    );
    doubled.min(Duration::from_secs(LONGEST_PAUSE_SECONDS))
}

impl Poller {
    /// A listener from which nothing was taken yet, with memory for all that it needs.
    pub fn new<R: Net>(rt: &R, alloc: Global, listener: Listener) -> io::Result<Poller> {
        let poll = Poll::new(rt)?;
        let descriptor = listener.descriptor();
        poll.registry()
            .register(&mut SourceFd(&descriptor), LISTENER, Interest::READABLE)?;
        Ok(Poller {
            alloc,
            poll,
            events: Events::with_capacity(alloc, MOST_EVENTS)?,
            listener,
            is_called: false,
            failures: 0,
            retry_at: Duration::ZERO,
            sweep_at: Duration::ZERO,
            asked_at: Duration::ZERO,
        })
    }

    /// What sockets are made known to.
    pub fn registry(&self) -> &Registry {
        self.poll.registry()
    }

    /// Whether so many failures came in a row that no further connection comes.
    pub fn has_failed(&self) -> bool {
        self.failures >= MOST_FAILURES
    }

    /// Whether the system was not asked for a while.
    pub fn is_due(&self, now: Duration) -> bool {
        now.saturating_sub(self.asked_at) >= Duration::from_millis(ASK_MILLISECONDS)
    }

    // An accept failed: the next one comes later.
    fn put_off(&mut self, now: Duration) {
        self.retry_at = now.saturating_add(pause_after(self.failures));
        self.failures = self.failures.saturating_add(1);
    }

    // Puts a new connection at a place. The system tells of it from then on.
    fn begin(&self, connections: &mut Connections<Stream>, stream: Stream, now: Duration) {
        let Some(index) = connections.place_for_one() else {
            return;
        };
        match stream.register(self.registry(), index) {
            Ok(()) => connections.go_on(index, Connection::new(self.alloc, stream, now), now),
            Err(_) => connections.give_free(index),
        }
    }

    // Takes the connections that have come to the listener.
    fn accept_all(&mut self, connections: &mut Connections<Stream>, now: Duration) {
        for _ in 0..MOST_ACCEPTED {
            match self.listener.accept() {
                Ok(stream) => {
                    self.failures = 0;
                    self.begin(connections, stream, now);
                }
                Err(fault) if is_to_wait(&fault) => {
                    self.is_called = false;
                    return;
                }
                Err(_) => {
                    self.put_off(now);
                    // A descriptor that is given back may be what it wants.
                    connections.close_longest_waiting();
                    return;
                }
            }
        }
    }

    // Sees to the connections of which the system told.
    fn see_to_events(&mut self, connections: &mut Connections<Stream>, now: Duration) {
        for event in self.events.iter() {
            let token = event.token();
            if token == LISTENER {
                self.is_called = true;
            } else if token != WAKER {
                let Token(index) = token;
                connections.is_told(index, event.is_read_closed(), now);
            }
        }
    }

    // How long the poll waits.
    fn longest_wait(&self, longest: Duration, now: Duration) -> Duration {
        if !self.is_called {
            return longest;
        }
        longest.min(self.retry_at.saturating_sub(now))
    }

    /// Waits so long at most until something happens, and sees to all that did.
    pub fn wait<R: Clock + Wait>(
        &mut self,
        rt: &R,
        connections: &Mutex<Connections<Stream>>,
        longest: Duration,
    ) {
        let timeout = self.longest_wait(longest, now(rt));
        if self.poll.poll(&mut self.events, Some(timeout)).is_err() {
            thread::sleep(rt, Duration::from_millis(SHORTEST_PAUSE_MILLISECONDS));
        }
        let now = now(rt);
        self.asked_at = now;
        let mut connections = connections.lock(rt);
        self.see_to_events(&mut connections, now);
        if self.is_called && self.retry_at <= now {
            self.accept_all(&mut connections, now);
        }
        if self.sweep_at <= now {
            connections.close_late(now);
            self.sweep_at = now.saturating_add(Duration::from_millis(SWEEP_MILLISECONDS));
        }
    }
}
