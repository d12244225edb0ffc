// A connection: its socket, what has come of it, and what is to go out.
ghost use Rattle.std.specs.Io.{ReadsAtMost, WritesAtMost};
ghost use Rattle.std.specs.Prelude.{◌≤◌, length};

use crate::gathered::{Gathered, Progress};
use crate::patience::{Part, Patience};
use crate::socket::{Socket, is_to_try_again, is_to_wait};
use crate::unsent::Unsent;
use std::alloc::Global;
use std::io;
use std::time::Duration;

/// How often a connection is read, or written, at once.
const MOST_CALLS: u32 = 1_000;

/// With how many bytes the client of a connection that was ended may go on.
const MOST_DROPPED: usize = 16 * 1024 * 1024;

/// What a connection is about.
#[derive(Clone, Copy, Debug, PartialEq, Eq)]
enum Stage {
    /// A request comes.
    Gathering,
    /// A request is whole, and is to be served.
    Ready,
    /// A reply goes out.
    Sending,
    /// The last reply goes out.
    SendingLast,
    /// All was written, and what still comes is dropped until the client's end.
    Ended,
}

/// What is to become of a connection.
#[derive(Clone, Copy, Debug, PartialEq, Eq)]
pub enum Outlook {
    /// It waits for its client.
    Wait,
    /// It waits for a worker, since a request came.
    Serve,
    /// It waits for a worker again, since a further request was there when its last reply was out.
    ServeAgain,
    /// It is closed.
    Close,
}

/// A connection.
#[derive(Drop)]
pub struct Connection<S: Socket + Drop> {
    socket: S,
    gathered: Gathered,
    unsent: Unsent,
    stage: Stage,
    patience: Patience,
    waits_since: Duration,
    is_read_closed: bool,
    has_more: bool,
    dropped: usize,
}

impl<S: Socket + Drop> Connection<S> {
    /// A new one.
    pub fn new(alloc: Global, socket: S, now: Duration) -> Connection<S> {
        Connection {
            socket,
            gathered: Gathered::new(alloc),
            unsent: Unsent::new(alloc),
            stage: Stage::Gathering,
            patience: Patience::new(Part::Silence, now),
            waits_since: now,
            is_read_closed: false,
            has_more: true,
            dropped: 0,
        }
    }

    /// Its socket.
    pub fn socket(&self) -> &S {
        &self.socket
    }

    /// Since when it waits: since it came, or had its last reply.
    pub fn waits_since(&self) -> Duration {
        self.waits_since
    }

    /// How much memory its requests and its replies hold.
    pub fn memory(&self) -> usize {
        self.gathered.memory().saturating_add(self.unsent.memory())
    }

    /// Whether it waits for a worker.
    pub fn is_ready(&self) -> bool {
        self.stage == Stage::Ready
    }

    /// Whether its first request may be an edit.
    pub fn is_post(&self) -> bool {
        self.gathered.is_post()
    }

    /// Whether its client has taken too long.
    pub fn is_late(&self, now: Duration) -> bool {
        self.stage != Stage::Ready && self.patience.is_over(now)
    }

    /// Something came, or may go out; or the client's end has come.
    pub fn is_told(&mut self, is_read_closed: bool) {
        self.has_more = true;
        self.is_read_closed |= is_read_closed;
    }

    // What the first request needs now.
    fn look(&mut self, now: Duration) -> Outlook {
        let part = match self.gathered.progress() {
            Progress::Whole => {
                self.stage = Stage::Ready;
                return Outlook::Serve;
            }
            Progress::Nothing => Part::Silence,
            Progress::Head => Part::Head,
            Progress::Body => Part::Body,
        };
        self.patience = self.patience.with(part, now);
        Outlook::Wait
    }

    // One call for further bytes. What the system tells again of is not asked for twice.
    fn read_once(&mut self, room: &mut [u8]) -> io::Result<usize>
        ensures { ReadsAtMost result room.new }
    {
        let read = self.socket.read(room);
        match &read {
            Ok(count) if *count < room.len() && !self.is_read_closed => self.has_more = false,
            Err(fault) if is_to_wait(fault) => self.has_more = false,
            _ => {}
        }
        read
    }

    // Gathers what has come, until a request is whole.
    fn gather(&mut self, now: Duration, room: &mut [u8]) -> Outlook {
        for _ in 0..MOST_CALLS {
            if self.look(now) == Outlook::Serve {
                return Outlook::Serve;
            }
            if !self.has_more {
                return Outlook::Wait;
            }
            match self.read_once(room) {
                Ok(0) => return Outlook::Close,
                Ok(count) => {
                    if self.gathered.push(&room[..count]).is_err() {
                        return Outlook::Close;
                    }
                    self.patience.moved(count);
                }
                Err(fault) if is_to_wait(&fault) || is_to_try_again(&fault) => {}
                Err(_) => return Outlook::Close,
            }
        }
        Outlook::Wait
    }

    // Drops what has come.
    fn drain(&mut self, room: &mut [u8]) -> Outlook {
        for _ in 0..MOST_CALLS {
            match self.read_once(room) {
                Ok(0) => return Outlook::Close,
                Ok(count) => self.dropped = self.dropped.saturating_add(count),
                Err(fault) if is_to_wait(&fault) => return Outlook::Wait,
                Err(fault) if is_to_try_again(&fault) => {}
                Err(_) => return Outlook::Close,
            }
            if self.dropped > MOST_DROPPED {
                return Outlook::Close;
            }
        }
        Outlook::Wait
    }

    // Sends what is left of a reply.
    fn send_left(&mut self) -> io::Result<()> {
        for _ in 0..MOST_CALLS {
            if self.unsent.is_empty() {
                return Ok(());
            }
            match self.socket.write(self.unsent.left()) {
                Ok(count) => {
                    self.unsent.skip(count);
                    self.patience.moved(count);
                }
                Err(fault) if is_to_wait(&fault) => return Ok(()),
                Err(fault) if is_to_try_again(&fault) => {}
                Err(fault) => return Err(fault),
            }
        }
        Ok(())
    }

    // Sends on; then the next request is gathered.
    fn send_on(&mut self, now: Duration, room: &mut [u8]) -> Outlook {
        if self.send_left().is_err() {
            return Outlook::Close;
        }
        if !self.unsent.is_empty() {
            return Outlook::Wait;
        }
        if self.stage == Stage::SendingLast {
            return self.end(now, room);
        }
        self.stage = Stage::Gathering;
        self.waits_since = now;
        self.patience = Patience::new(Part::Silence, now);
        if self.look(now) == Outlook::Serve {
            return Outlook::ServeAgain;
        }
        self.gathered.shrink();
        self.gather(now, room)
    }

    // Ends the output, since all was written.
    fn end(&mut self, now: Duration, room: &mut [u8]) -> Outlook {
        self.stage = Stage::Ended;
        self.patience = Patience::new(Part::End, now);
        match self.socket.end() {
            Ok(()) => self.drain(room),
            Err(_) => Outlook::Close,
        }
    }

    /// Goes on as far as can be without its client.
    pub fn go_on(&mut self, now: Duration, room: &mut [u8]) -> Outlook {
        match self.stage {
            Stage::Ready => Outlook::Wait,
            Stage::Gathering => self.gather(now, room),
            Stage::Sending | Stage::SendingLast => self.send_on(now, room),
            Stage::Ended => self.drain(room),
        }
    }

    /// A worker begins with the first request, which is whole.
    pub fn begin(&mut self) {
        self.gathered.begin();
    }

    /// Hands out bytes of the request that a worker began with. 0 where all were handed out.
    pub fn take(&mut self, room: &mut [u8]) -> usize
        ensures { result ≤ length room.old }
    {
        self.gathered.take(room)
    }

    // How many bytes of a piece go out at once.
    fn write(&mut self, piece: &[u8]) -> io::Result<usize>
        ensures { WritesAtMost result piece.now }
    {
        match self.socket.write(piece) {
            Err(fault) if is_to_wait(&fault) || is_to_try_again(&fault) => Ok(0),
            written => written,
        }
    }

    /// Sends a reply as far as it goes out at once, and keeps the rest.
    pub fn send(&mut self, piece: &[u8]) -> io::Result<()> {
        let count = if self.unsent.is_empty() {
            self.write(piece)?
        } else {
            0
        };
        if count < piece.len() {
            self.unsent.keep(&piece[count..])?;
        }
        Ok(())
    }

    /// The request was answered, and what is behind it is the next one.
    pub fn is_answered(&mut self) {
        self.gathered.go_on();
    }

    /// Whether the next request is whole, and may be served at once by who served the last one.
    pub fn has_next(&self) -> bool {
        self.unsent.is_empty()
            && self.gathered.progress() == Progress::Whole
            && !self.gathered.is_post()
    }

    /// Whether the last reply is out, and no byte of the next request has come.
    pub fn is_silent(&self) -> bool {
        self.unsent.is_empty() && self.gathered.progress() == Progress::Nothing
    }

    /// Takes what comes next, by one call. 0 is the client's end.
    pub fn read_on(&mut self, room: &mut [u8]) -> io::Result<usize>
        ensures { ReadsAtMost result room.new }
    {
        let count = self.socket.read(room)?;
        self.gathered.push(&room[..count])?;
        Ok(count)
    }

    /// A worker is done with it: the next request is to come, or the last reply was written.
    pub fn is_served(&mut self, is_last: bool, now: Duration) {
        self.stage = if is_last {
            Stage::SendingLast
        } else {
            Stage::Sending
        };
        self.waits_since = now;
        self.patience = Patience::new(Part::Body, now);
    }
}
