// The bytes of a connection that were read and are not used yet.
ghost use Rattle.std.specs.Prelude.{◌≡◌, ◌<◌, ◌≤◌, [], IfOk, length, drop};
ghost use Rattle.geda_defs.specs.Causes.{HasRisen};
ghost use Rattle.web_heads.specs.steps.Reading.{Fills};

use crate::link::Link;
use std::alloc::{AllocError, Global};
use std::marker::Model;

/// What came of a read.
#[derive(Clone, Copy, Debug, PartialEq, Eq)]
pub enum Filled {
    /// Further bytes.
    More,
    /// The end of the input.
    End,
    /// The read failed.
    Fault,
}

/// The bytes of a connection that were read and are not used yet, at most 8,192.
#[derive(Drop)]
pub struct Buffer {
    bytes: Vec<u8>,
    have: usize,
}

impl Model for Buffer {
    ghost use Rattle.std.specs.Prelude.{ℕ, List, ◌≡◌, ◌≤◌, length, take};

    ghost Value = { List ℕ };

    ghost view = { λ b. take b.have b.bytes.items };

    ghost invariant = { λ b. (b.have ≤ 8192) × (length b.bytes.items ≡ 8192) };
}

fn blank_bytes(alloc: Global) -> Result<Vec<u8>, AllocError>
    ensures { IfOk result (λ bytes. length bytes.items ≡ 8192) }
{
    let mut bytes = Vec::new(alloc);
    bytes.resize(8192, 0)?;
    Ok(bytes)
}

impl Buffer {
    /// No bytes, with memory for all that there may be.
    pub fn new(alloc: Global) -> Result<Buffer, AllocError>
        ensures { IfOk result (λ buffer. buffer ≡ []) }
    {
        let bytes = blank_bytes(alloc)?;
        Ok(Buffer { bytes, have: 0 })
    }

    /// Drops all bytes. It takes no memory.
    pub fn clear(&mut self)
        ensures { self.new ≡ [] }
    {
        self.have = 0;
    }

    /// The bytes.
    pub(crate) fn bytes(&self) -> &[u8]
        ensures bytes { result.now ≡ self.now }
        ensures few { length self.now ≤ 8192 }
    {
        &self.bytes.as_slice()[..self.have]
    }

    /// Drops the first bytes.
    pub(crate) fn skip(&mut self, count: usize)
        requires { count ≤ length self.old }
        ensures { self.new ≡ drop count self.old }
    {
        let have = self.have;
        self.bytes.as_mut_slice().copy_within(count..have, 0);
        self.have = have - count;
    }

    /// Reads further bytes behind these.
    pub(crate) fn fill<L: Link>(&mut self, link: &mut L) -> Filled
        requires { length self.old < 8192 }
        ensures input { Fills (L.input link.old) (L.input link.new) self.old self.new result }
        ensures output { L.output link.new ≡ L.output link.old }
        ensures few { length self.new ≤ 8192 }
        ensures later { L.read_faults link.old ≤ L.read_faults link.new }
        ensures write_later { L.write_faults link.old ≤ L.write_faults link.new }
        ensures cause { result ≡ Filled.Fault →
            HasRisen (L.read_faults link.old) (L.read_faults link.new) }
    {
        let have = self.have;
        let (_, room) = self.bytes.as_mut_slice().split_at_mut(have);
        match link.read(room) {
            Ok(0) => Filled::End,
            Ok(count) => {
                self.have = have + count;
                Filled::More
            }
            Err(_) => Filled::Fault,
        }
    }
}
