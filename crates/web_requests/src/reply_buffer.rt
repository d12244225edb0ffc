// The bytes of a reply that is written, with memory for one reply that may not fail.
ghost use Rattle.std.specs.Prelude.{◌≡◌, ◌≤◌, ◌+◌, ◌++◌, [], length, IfOk, OnOk};
ghost use Rattle.web_requests.specs.Answers.{lost_reply};
ghost use Rattle.web_requests.specs.steps.Lost as spec;

use itoa::Buffer;
use std::alloc::{AllocError, Global};
use std::marker::Model;

/// The bytes of a reply. There is always memory for the reply to an edit that could not be kept.
#[derive(Debug, Drop)]
pub struct ReplyBuffer {
    bytes: Vec<u8>,
}

impl Model for ReplyBuffer {
    ghost use Rattle.std.specs.Prelude.{ℕ, List, ◌≤◌, vec_capacity};

    ghost Value = { List ℕ };

    ghost view = { λ t. t.bytes.items };

    ghost invariant = { λ t. 256 ≤ vec_capacity t.bytes };
}

impl ReplyBuffer {
    /// No bytes.
    pub fn new(alloc: Global) -> Result<ReplyBuffer, AllocError>
        ensures { IfOk result (λ buffer. buffer ≡ []) }
    {
        Ok(ReplyBuffer {
            bytes: Vec::with_capacity(alloc, 256)?,
        })
    }

    /// Its bytes. It takes no memory.
    pub fn as_slice(&self) -> &[u8]
        ensures { result.now ≡ self.now }
    {
        self.bytes.as_slice()
    }

    /// Takes all bytes away.
    pub fn clear(&mut self)
        ensures { self.new ≡ [] }
    {
        self.bytes.clear();
    }

    /// Adds a piece.
    pub fn push(&mut self, piece: &[u8]) -> Result<(), AllocError>
        ensures { OnOk result (self.new ≡ self.old ++ piece.now) }
    {
        self.bytes.extend_from_slice(piece)
    }

    /// Adds a piece for which there is memory.
    fn push_within(&mut self, piece: &[u8])
        requires { length self.old + length piece.now ≤ 256 }
        ensures { self.new ≡ self.old ++ piece.now }
    {
        self.bytes.extend_from_slice(piece).unwrap();
    }

    /// Writes the reply to an accepted edit that could not be kept, in place of what stood there.
    /// It takes no memory.
    pub fn write_lost(&mut self, front: u32, closing: bool)
        ensures { self.new ≡ lost_reply front closing }
    {
        let mut digits = Buffer::new();
        self.clear();
        self.push_within(lost_start());
        self.push_within(digits.format(front).as_bytes());
        self.push_within(lost_end(closing));
    }
}

/// What stands before the front.
fn lost_start() -> &'static [u8]
    ensures text { result.now ≡ spec.lost_start }
    ensures short { length result.now ≤ 100 }
{
    b"HTTP/1.1 507 Insufficient Storage\r\nContent-Type: application/json\r\nFront: "
}

/// What stands behind the front.
fn lost_end(closing: bool) -> &'static [u8]
    ensures text { result.now ≡ spec.lost_end closing }
    ensures short { length result.now ≤ 100 }
{
    if closing {
        b"\r\nConnection: close\r\nContent-Length: 23\r\n\r\n{\"fault\":\"KeeperFault\"}"
    } else {
        b"\r\nContent-Length: 23\r\n\r\n{\"fault\":\"KeeperFault\"}"
    }
}
