// The bytes of a client that have come and were not handed out yet. It knows no socket.
ghost use Rattle.std.specs.Prelude.{◌≡◌, ◌≤◌, ◌++◌, [], IsErr, OnOk, length};
ghost use Rattle.connection_flow.specs.Requests.{HandsOut, HasCome, IsHandedOut};

use std::alloc::{AllocError, Global};
use std::marker::Model;
use web_heads::{MessageFront, MessageSize, message_front};

/// What memory a connection keeps between two requests at most, in bytes.
const MOST_KEPT: usize = 16 * 1024;

/// How far the first request has come.
#[derive(Clone, Copy, Debug, PartialEq, Eq)]
pub enum Progress {
    /// No byte of it.
    Nothing,
    /// Bytes that begin a head.
    Head,
    /// Its head, and not all of its body.
    Body,
    /// All of it; or a head that is refused, whatever follows.
    Whole,
}

/// What is known of the bytes at the front.
#[derive(Clone, Copy, Debug)]
enum Known {
    /// Nothing: they are no head yet, or were not looked at.
    Nothing,
    /// They are a head, and this is the size of the message.
    Size(MessageSize),
    /// No message can come of them.
    Refused,
}

/// The bytes of a client that have come and were not handed out yet.
#[derive(Drop)]
pub struct Gathered {
    alloc: Global,
    bytes: Vec<u8>,
    taken: usize,
    left_of_first: usize,
    known: Known,
}

impl Model for Gathered {
    ghost use Rattle.std.specs.Prelude.{◌≤◌, drop, length};
    ghost use Rattle.connection_flow.specs.Requests.{GatheredData, IsKnown};

    ghost Value = { GatheredData };

    ghost view = { λ g. record { bytes = drop g.taken g.bytes.items; left = g.left_of_first } };

    ghost invariant = { λ g. (g.taken ≤ length g.bytes.items)
        × IsKnown g.known (drop g.taken g.bytes.items) };
}

impl Gathered {
    /// No bytes. It takes no memory.
    pub fn new(alloc: Global) -> Gathered
        ensures { result ≡ record { bytes = []; left = 0 } }
    {
        Gathered {
            alloc,
            bytes: Vec::new(alloc),
            taken: 0,
            left_of_first: 0,
            known: Known::Nothing,
        }
    }

    // The bytes.
    fn front(&self) -> &[u8]
        ensures { result.now ≡ self.now.bytes }
    {
        &self.bytes.as_slice()[self.taken..]
    }

    // How many bytes the first request has, where that is known.
    fn wanted(&self) -> usize {
        match self.known {
            Known::Nothing => 0,
            Known::Size(size) => size.head.saturating_add(size.body),
            Known::Refused => self.front().len(),
        }
    }

    /// How far the first request has come.
    pub fn progress(&self) -> Progress
        ensures { HasCome self.now.bytes result }
    {
        let have = self.front().len();
        match self.known {
            Known::Nothing if have == 0 => Progress::Nothing,
            Known::Nothing => Progress::Head,
            Known::Size(size) if have - size.head < size.body => Progress::Body,
            Known::Size(_) => Progress::Whole,
            Known::Refused => Progress::Whole,
        }
    }

    /// Whether the first request, so far as it is known, is one with the method POST.
    pub fn is_post(&self) -> bool {
        match self.known {
            Known::Size(size) => size.is_post,
            Known::Nothing | Known::Refused => false,
        }
    }

    /// How many bytes of memory are held.
    pub fn memory(&self) -> usize {
        self.bytes.capacity()
    }

    // Looks at what stands at the front, where that is not known.
    fn look(&mut self)
        ensures { self.new ≡ self.old }
    {
        if let Known::Nothing = self.known {
            self.known = match message_front(self.front()) {
                MessageFront::Open => Known::Nothing,
                MessageFront::Sized(size) => Known::Size(size),
                MessageFront::Refused => Known::Refused,
            };
        }
    }

    // Moves the bytes to the front of the memory.
    fn move_to_front(&mut self)
        ensures { self.new ≡ self.old }
    {
        let (taken, end) = (self.taken, self.bytes.len());
        if taken > 0 {
            self.bytes.as_mut_slice().copy_within(taken..end, 0);
            self.bytes.truncate(end - taken);
            self.taken = 0;
        }
    }

    // Takes memory for further bytes: twice as much as before, but no more than the request wants.
    fn reserve(&mut self, further: usize) -> Result<(), AllocError>
        ensures { self.new ≡ self.old }
    {
        let least = self.bytes.len().saturating_add(further);
        if least <= self.bytes.capacity() {
            return Ok(());
        }
        let most = match self.known {
            Known::Size(_) => self.wanted(),
            Known::Nothing | Known::Refused => usize::MAX,
        };
        let goal = self.bytes.len().saturating_mul(2).min(most).max(least);
        self.bytes
            .reserve_exact(goal.saturating_sub(self.bytes.len()))
    }

    // Adds bytes behind those that are there.
    fn add(&mut self, further: &[u8]) -> Result<(), AllocError>
        ensures added { OnOk result (self.new ≡ record {
          bytes = self.old.bytes ++ further.now;
          left = self.old.left;
        }) }
        ensures kept { IsErr result → self.new ≡ self.old }
    {
        self.bytes.extend_from_slice(further)
    }

    /// Further bytes have come. Without memory all is as before.
    pub fn push(&mut self, further: &[u8]) -> Result<(), AllocError>
        ensures added { OnOk result (self.new ≡ record {
          bytes = self.old.bytes ++ further.now;
          left = self.old.left;
        }) }
        ensures kept { IsErr result → self.new ≡ self.old }
    {
        self.move_to_front();
        self.reserve(further.len())?;
        self.add(further)?;
        self.look();
        Ok(())
    }

    // How many bytes are to be handed out as the first request.
    fn request_len(&self) -> usize
        ensures { IsHandedOut self.now.bytes result }
    {
        let have = self.front().len();
        match self.known {
            Known::Size(size) if have - size.head >= size.body => size.head + size.body,
            Known::Refused => have,
            Known::Size(_) | Known::Nothing => 0,
        }
    }

    /// The first request is to be handed out: a whole message, or all bytes where none can come of
    /// them. None are handed out where it has not come.
    pub fn begin(&mut self)
        ensures bytes { self.new.bytes ≡ self.old.bytes }
        ensures left { IsHandedOut self.old.bytes self.new.left }
    {
        self.left_of_first = self.request_len();
        self.known = Known::Nothing;
    }

    /// Hands out further bytes of the first request, as many as have room. 0 where all were handed
    /// out.
    pub fn take(&mut self, room: &mut [u8]) -> usize
        ensures { HandsOut self.old self.new room.old room.new result }
    {
        let count = room.len().min(self.front().len()).min(self.left_of_first);
        let (front, _) = room.split_at_mut(count);
        front.copy_from_slice(&self.front()[..count]);
        self.taken += count;
        self.left_of_first -= count;
        self.known = Known::Nothing;
        count
    }

    /// The first request was answered, and what is behind it is the first now.
    pub fn go_on(&mut self)
        ensures { self.new ≡ record { bytes = self.old.bytes; left = 0 } }
    {
        self.left_of_first = 0;
        self.known = Known::Nothing;
        self.move_to_front();
        self.look();
    }

    /// Gives memory back that is not needed between two requests.
    pub fn shrink(&mut self)
        ensures { self.new ≡ self.old }
    {
        if self.front().is_empty() && self.bytes.capacity() > MOST_KEPT {
            self.bytes = Vec::new(self.alloc);
            self.taken = 0;
            self.known = Known::Nothing;
        }
    }
}
