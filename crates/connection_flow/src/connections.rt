// The connections of a gate, each at a place, and those of them that wait for a worker.
use crate::connection::{Connection, Outlook};
use crate::socket::Socket;
use std::alloc::{AllocError, Global};
use std::collections::VecDeque;
use std::time::Duration;

/// How many connections there are at most.
pub const MOST_CONNECTIONS: usize = 500;

/// How many workers serve requests that may be edits at most, of eight: an edit waits for the
/// store, and no reader waits for that.
const MOST_EDITS: usize = 6;

/// How much memory unfinished requests and unsent replies hold at most.
const MOST_MEMORY: usize = 64 * 1024 * 1024;

/// From how much memory on a connection goes first where memory is wanted.
const MUCH_MEMORY: usize = 64 * 1024;

/// How many bytes are read at once.
const ROOM: usize = 64 * 1024;

/// A place of a connection.
#[derive(Drop)]
struct Place<S: Socket + Drop> {
    connection: Option<Connection<S>>,
    is_told: bool,
    is_read_closed: bool,
}

/// A connection that a worker serves.
#[derive(Drop)]
pub struct Lent<S: Socket + Drop> {
    /// Its place.
    pub place: usize,
    /// The connection.
    pub connection: Connection<S>,
    /// Whether it counts for an edit.
    pub is_post: bool,
    /// How many others wait for a worker.
    pub others: usize,
}

/// The connections of a gate.
#[derive(Drop)]
pub struct Connections<S: Socket + Drop> {
    places: Vec<Place<S>>,
    free: Vec<usize>,
    reads: VecDeque<usize>,
    reads_again: VecDeque<usize>,
    posts: VecDeque<usize>,
    posts_lent: usize,
    resting: usize,
    turn: u8,
    memory: usize,
    room: Vec<u8>,
}

impl<S: Socket + Drop> Place<S> {
    fn new() -> Place<S> {
        Place {
            connection: None,
            is_told: false,
            is_read_closed: false,
        }
    }
}

impl<S: Socket + Drop> Connections<S> {
    /// No connections, with memory for their places.
    pub fn new(alloc: Global) -> Result<Connections<S>, AllocError> {
        let mut places = Vec::with_capacity(alloc, MOST_CONNECTIONS)?;
        let mut free = Vec::with_capacity(alloc, MOST_CONNECTIONS)?;
        for index in 0..MOST_CONNECTIONS {
            places.push(Place::new())?;
            free.push(index)?;
        }
        let mut room = Vec::new(alloc);
        room.resize(ROOM, 0)?;
        Ok(Connections {
            places,
            free,
            reads: VecDeque::with_capacity(alloc, MOST_CONNECTIONS)?,
            reads_again: VecDeque::with_capacity(alloc, MOST_CONNECTIONS)?,
            posts: VecDeque::with_capacity(alloc, MOST_CONNECTIONS)?,
            posts_lent: 0,
            resting: 0,
            turn: 0,
            memory: 0,
            room,
        })
    }

    // Takes the connection of a place.
    fn take(&mut self, index: usize) -> Option<Connection<S>> {
        let place = self.places.get_mut(index)?;
        let connection = place.connection.take()?;
        self.memory = self.memory.saturating_sub(connection.memory());
        Some(connection)
    }

    // Puts a connection back at its place.
    fn put(&mut self, index: usize, connection: Connection<S>) {
        self.memory = self.memory.saturating_add(connection.memory());
        if let Some(place) = self.places.get_mut(index) {
            place.connection = Some(connection);
        }
    }

    /// The place has no connection any more.
    pub fn give_free(&mut self, index: usize) {
        if let Some(place) = self.places.get_mut(index) {
            *place = Place::new();
        }
        // There is memory for as many as there are.
        let _kept = self.free.push(index);
    }

    // A whole request waits for a worker. There is memory for as many as there are connections.
    fn queue(&mut self, index: usize, is_post: bool, is_again: bool) {
        let queue = match (is_post, is_again) {
            (true, _) => &mut self.posts,
            (false, true) => &mut self.reads_again,
            (false, false) => &mut self.reads,
        };
        let _kept = queue.push_back(index);
    }

    /// Goes on with a connection, and puts it at its place or closes it.
    pub fn go_on(&mut self, index: usize, connection: Connection<S>, now: Duration) {
        let mut connection = connection;
        match connection.go_on(now, self.room.as_mut_slice()) {
            Outlook::Close => {
                self.give_free(index);
                return;
            }
            Outlook::Serve => self.queue(index, connection.is_post(), false),
            Outlook::ServeAgain => self.queue(index, connection.is_post(), true),
            Outlook::Wait => {}
        }
        self.put(index, connection);
        self.close_for_memory();
    }

    /// The system told of a place: something came, or may go out, or the client's end came.
    pub fn is_told(&mut self, index: usize, is_read_closed: bool, now: Duration) {
        match self.take(index) {
            Some(mut connection) => {
                connection.is_told(is_read_closed);
                self.go_on(index, connection, now);
            }
            None => {
                if let Some(place) = self.places.get_mut(index) {
                    place.is_told = true;
                    place.is_read_closed |= is_read_closed;
                }
            }
        }
    }

    // Closes the connection of a place.
    fn close(&mut self, index: usize) {
        if let Some(connection) = self.take(index) {
            if connection.is_ready() {
                self.reads.retain(|ready| *ready != index);
                self.reads_again.retain(|ready| *ready != index);
                self.posts.retain(|ready| *ready != index);
            }
            self.give_free(index);
        }
    }

    // The place of the connection that has waited the longest, of those with so much memory.
    fn longest_waiting(&self, least_memory: usize) -> Option<usize> {
        let mut found = None;
        let mut least = Duration::MAX;
        for (index, place) in self.places.iter().enumerate() {
            if let Some(connection) = &place.connection {
                if connection.memory() >= least_memory && connection.waits_since() < least {
                    found = Some(index);
                    least = connection.waits_since();
                }
            }
        }
        found
    }

    /// Closes the connection that has waited the longest, whatever for.
    pub fn close_longest_waiting(&mut self) {
        if let Some(index) = self.longest_waiting(0) {
            self.close(index);
        }
    }

    // Closes connections until the memory is within its bound.
    fn close_for_memory(&mut self) {
        for _ in 0..MOST_CONNECTIONS {
            if self.memory <= MOST_MEMORY {
                return;
            }
            match self.longest_waiting(MUCH_MEMORY) {
                Some(index) => self.close(index),
                None => return,
            }
        }
    }

    // Whether the time of the connection of a place is up.
    fn is_late(&self, index: usize, now: Duration) -> bool {
        match self.places.get(index) {
            Some(place) => match &place.connection {
                Some(connection) => connection.is_late(now),
                None => false,
            },
            None => false,
        }
    }

    /// Closes those whose time is up.
    pub fn close_late(&mut self, now: Duration) {
        for index in 0..MOST_CONNECTIONS {
            if self.is_late(index, now) {
                self.close(index);
            }
        }
    }

    /// A place for a new connection. Where all are taken the one that has waited the longest is
    /// closed for it. None where workers have all.
    pub fn place_for_one(&mut self) -> Option<usize> {
        if self.free.is_empty() {
            self.close_longest_waiting();
        }
        self.free.pop()
    }

    // The place of the edit that has waited the longest, if one more may be served.
    fn next_post(&mut self) -> Option<usize> {
        if self.posts_lent >= MOST_EDITS {
            return None;
        }
        self.posts.pop_front()
    }

    // The place of the next request of a reader: first of those that came since.
    fn next_read(&mut self) -> Option<usize> {
        match self.reads.pop_front() {
            Some(index) => Some(index),
            None => self.reads_again.pop_front(),
        }
    }

    // The place of the next request that may be given to a worker.
    fn next_ready(&mut self) -> Option<usize> {
        self.turn = if self.turn < 3 { self.turn + 1 } else { 0 };
        let found = match self.turn {
            0 => self.reads_again.pop_front(),
            1 => self.next_post(),
            _ => None,
        };
        if found.is_some() {
            return found;
        }
        match self.next_read() {
            Some(index) => Some(index),
            None => self.next_post(),
        }
    }

    /// How many requests could be served at once, if there were a worker.
    pub fn ready_count(&self) -> usize {
        let reads = self.reads.len().saturating_add(self.reads_again.len());
        if self.posts_lent < MOST_EDITS {
            return reads.saturating_add(self.posts.len());
        }
        reads
    }

    /// A worker waits for a request, or does so no more.
    pub fn rests(&mut self, is_resting: bool) {
        self.resting = if is_resting {
            self.resting.saturating_add(1)
        } else {
            self.resting.saturating_sub(1)
        };
    }

    /// Whether a worker is to be woken, besides one that is about to take a request.
    pub fn wants_one_more(&self) -> bool {
        self.resting > 0 && self.ready_count() > 1
    }

    /// The next request that is whole, with its connection: in four turns one of an edit, one of a
    /// connection that had its turn before, and else of those that came since, the longest waiting
    /// first. So one more client has its reply soon beside many that ask without a pause.
    pub fn lend(&mut self) -> Option<Lent<S>> {
        let place = self.next_ready()?;
        let mut connection = self.take(place)?;
        let is_post = connection.is_post();
        if is_post {
            self.posts_lent = self.posts_lent.saturating_add(1);
        }
        if let Some(at) = self.places.get_mut(place) {
            at.is_told = false;
            at.is_read_closed = false;
        }
        connection.begin();
        Some(Lent {
            place,
            connection,
            is_post,
            others: self.ready_count(),
        })
    }

    /// A worker is done with the connection of a place, and hands it back if it is to go on.
    pub fn take_back(
        &mut self,
        index: usize,
        is_post: bool,
        connection: Option<Connection<S>>,
        now: Duration,
    ) {
        if is_post {
            self.posts_lent = self.posts_lent.saturating_sub(1);
        }
        match connection {
            None => self.give_free(index),
            Some(mut connection) => {
                if let Some(at) = self.places.get_mut(index) {
                    if at.is_told {
                        connection.is_told(at.is_read_closed);
                    }
                }
                self.go_on(index, connection, now);
            }
        }
    }
}
