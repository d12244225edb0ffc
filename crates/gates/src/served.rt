// A connection while a worker serves it.
ghost use Rattle.std.specs.Prelude.{◌≡◌, ◌≤◌, length};
ghost use Rattle.gates.specs.steps.Fates.{GoesBackBetween};

use crate::poller::now;
use crate::shared::Shared;
use crate::stream::Stream;
use connection_flow::{Connection, Lent, is_to_try_again, is_to_wait};
use std::io;
use std::sync::{Arc, Wait};
use std::time::Clock;
use web_heads::Part;

/// After so many replies a worker looks whether others wait, to whom it then turns. Where others
/// waited when it came to this connection it looks sooner.
const LONG_TURN: usize = 100;

const SHORT_TURN: usize = 10;

/// A long reply counts for several: one for so many bytes.
const BYTES_OF_ONE: usize = 16 * 1024;

/// What becomes of a connection when its link is dropped.
#[derive(Clone, Copy, Debug, PartialEq, Eq)]
enum Fate {
    /// It is closed at once: a request was read and not answered, the client has ended it, or it
    /// failed.
    Close,
    /// Its next request is waited for.
    Wait,
    /// It is closed in stages, since all was written.
    End,
}

/// A connection while a worker serves it. When it is dropped it is closed, or goes back to those
/// that wait.
pub struct Served<'a, R: Clock + Wait> {
    rt: &'a R,
    shared: Arc<Shared>,
    place: usize,
    connection: Connection<Stream>,
    is_post: bool,
    part: Part,
    fate: Fate,
    left_of_turn: usize,
    is_staying: bool,
}

impl<R: Clock + Wait> Drop for Served<'_, R> {
    fn drop(self) {
        let Served {
            rt,
            shared,
            place,
            connection,
            is_post,
            part: _,
            fate,
            left_of_turn: _,
            is_staying,
        } = self;
        let handed_back = handed_back(rt, &shared, place, connection, fate, is_staying);
        shared.take_back(rt, place, is_post, handed_back);
    }
}

/// A connection with this fate, as it goes back to those that wait. None where it is closed.
fn handed_back<R: Clock>(
    rt: &R,
    shared: &Shared,
    place: usize,
    connection: Connection<Stream>,
    fate: Fate,
    is_staying: bool,
) -> Option<Connection<Stream>> {
    let mut connection = connection;
    if fate == Fate::Close {
        return None;
    }
    if is_staying {
        connection.socket().leave(shared.registry(), place).ok()?;
        connection.is_told(false);
    }
    connection.is_served(fate == Fate::End, now(rt));
    Some(connection)
}

impl<'a, R: Clock + Wait> Served<'a, R> {
    /// A connection that a worker begins to serve.
    pub fn new(rt: &'a R, shared: Arc<Shared>, lent: Lent<Stream>) -> Served<'a, R> {
        let Lent {
            place,
            connection,
            is_post,
            others,
        } = lent;
        Served {
            rt,
            shared,
            place,
            connection,
            is_post,
            part: Part::Head,
            fate: Fate::Close,
            left_of_turn: if others > 0 { SHORT_TURN } else { LONG_TURN },
            is_staying: false,
        }
    }

    /// The next reads are for this part of a message.
    pub fn begin(&mut self, part: Part)
        ensures part { self.new.part ≡ part }
        ensures fate { self.new.fate ≡ self.old.fate }
    {
        self.part = part;
    }

    // Whether others wait for a worker.
    fn has_others(&self) -> bool {
        self.shared.others(self.rt) > 0
    }

    // Whether it is to make way for others.
    fn has_had_its_turn(&mut self) -> bool {
        if self.left_of_turn > 0 {
            return false;
        }
        self.left_of_turn = LONG_TURN;
        self.has_others()
    }

    // Whether the worker stays with its client, which it does only while nobody waits for one.
    fn stays(&mut self) -> bool {
        if !self.connection.is_silent() {
            return false;
        }
        if !self.is_staying && !self.has_others() {
            self.is_staying = self
                .connection
                .socket()
                .stay(self.shared.registry())
                .is_ok();
        }
        self.is_staying
    }

    // What becomes of the connection behind a request that was answered: it waits, or is closed.
    // None where the next request is whole, and is served at once, which is so for readers alone.
    fn go_on(&mut self, room: &mut [u8]) -> Option<Fate> {
        self.connection.is_answered();
        if self.is_post || self.has_had_its_turn() {
            return Some(Fate::Wait);
        }
        if self.stays() {
            match self.connection.read_on(room) {
                Ok(0) => return Some(Fate::Close),
                Ok(_) => {}
                Err(fault) if is_to_wait(&fault) || is_to_try_again(&fault) => {}
                Err(_) => return Some(Fate::Close),
            }
        }
        if !self.connection.has_next() {
            return Some(Fate::Wait);
        }
        self.connection.begin();
        None
    }

    /// Takes bytes of requests that are whole. 0 comes behind the last request that this link has:
    /// the client has ended it, or the connection goes back to those that wait, which is so between
    /// two requests alone. Where nobody else waits for a worker it waits a few milliseconds for the
    /// next request.
    pub fn read(&mut self, room: &mut [u8]) -> usize
        ensures count { result ≤ length room.old }
        ensures goes_back { GoesBackBetween self.old.part self.old.fate self.new.fate }
    {
        if self.part == Part::Message && self.fate == Fate::End {
            if let Some(fate) = self.go_on(room) {
                self.fate = fate;
                return 0;
            }
        }
        self.fate = Fate::Close;
        self.connection.take(room)
    }

    /// Writes a reply: what does not go out at once is sent beside.
    pub fn write(&mut self, piece: &[u8]) -> io::Result<()> {
        let cost = piece.len() / BYTES_OF_ONE;
        self.left_of_turn = self.left_of_turn.saturating_sub(1).saturating_sub(cost);
        self.fate = Fate::Close;
        self.connection.send(piece)?;
        self.fate = Fate::End;
        Ok(())
    }
}
