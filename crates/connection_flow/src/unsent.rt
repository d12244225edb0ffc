// What is left of a reply that did not go out at once. It knows no socket.
ghost use Rattle.std.specs.Prelude.{◌≡◌, ◌++◌, [], IsErr, OnOk, drop};

use std::alloc::{AllocError, Global};
use std::marker::Model;

/// What is left of a reply that did not go out at once.
#[derive(Drop)]
pub struct Unsent {
    alloc: Global,
    bytes: Vec<u8>,
    sent: usize,
}

impl Model for Unsent {
    ghost use Rattle.std.specs.Prelude.{ℕ, List, ◌≤◌, drop, length};

    ghost Value = { List ℕ };

    ghost view = { λ u. drop u.sent u.bytes.items };

    ghost invariant = { λ u. u.sent ≤ length u.bytes.items };
}

impl Unsent {
    /// Nothing. It takes no memory.
    pub fn new(alloc: Global) -> Unsent
        ensures { result ≡ [] }
    {
        Unsent {
            alloc,
            bytes: Vec::new(alloc),
            sent: 0,
        }
    }

    /// What is left.
    pub fn left(&self) -> &[u8]
        ensures { result.now ≡ self.now }
    {
        &self.bytes.as_slice()[self.sent..]
    }

    /// Whether nothing is left.
    pub fn is_empty(&self) -> bool {
        self.left().is_empty()
    }

    /// How many bytes of memory are held.
    pub fn memory(&self) -> usize {
        self.bytes.capacity()
    }

    /// Keeps bytes behind those that are left. Without memory all is as before.
    pub fn keep(&mut self, bytes: &[u8]) -> Result<(), AllocError>
        ensures kept { OnOk result (self.new ≡ self.old ++ bytes.now) }
        ensures same { IsErr result → self.new ≡ self.old }
    {
        self.bytes.extend_from_slice(bytes)
    }

    /// So many bytes went out. Where none are left the memory is given back.
    pub fn skip(&mut self, count: usize)
        ensures { self.new ≡ drop count self.old }
    {
        if count < self.left().len() {
            self.sent += count;
        } else {
            self.bytes = Vec::new(self.alloc);
            self.sent = 0;
        }
    }
}
