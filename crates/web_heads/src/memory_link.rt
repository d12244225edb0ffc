// A connection in memory.
ghost use Rattle.std.specs.Prelude.{◌≡◌, ◌≤◌, [], ◌++◌, min, length, take, drop, IfOk, Some};
ghost use Rattle.geda_defs.specs.Causes.{HasCause, HasRisen};
ghost use Rattle.web_heads.specs.Links.{Reads, Writes};
ghost use Rattle.web_heads.specs.MemoryLinks.{after_read, after_write, called, fails, read_failed};
ghost use Rattle.web_heads.specs.MemoryLinks.{read_result, room_after, write_failed, write_result};

use crate::link::{Link, LinkFault, Part};
use std::alloc::{AllocError, Global};
use std::marker::Model;

/// A connection in memory: its input is a list of bytes, and its output goes into memory of a given
/// size. The calls of given numbers fail; they count from 1 over all calls of the two kinds.
///
/// A read takes as many bytes as there are and as fit. A failed write writes nothing, and a write
/// of more bytes than there is memory left for fails too. Each count stays at the end of its type.
#[derive(Drop)]
pub struct MemoryLink {
    input: Vec<u8>,
    taken: usize,
    output: Vec<u8>,
    room: usize,
    failing: Vec<u64>,
    calls: u64,
    read_faults: u64,
    write_faults: u64,
}

impl Model for MemoryLink {
    ghost use Rattle.std.specs.Prelude.{◌≤◌, ◌+◌, drop, vec_len, vec_capacity};
    ghost use Rattle.web_heads.specs.MemoryLinks.{MemoryLinkData};

    ghost Value = { MemoryLinkData };

    ghost view = { λ l. record {
      input = drop l.taken l.input.items;
      output = l.output.items;
      room = l.room;
      failing = l.failing.items;
      calls = l.calls;
      read_faults = l.read_faults;
      write_faults = l.write_faults;
    } };

    ghost invariant = { λ l. (l.taken ≤ vec_len l.input) × (vec_len l.output + l.room ≤ vec_capacity l.output) };
}

/// Copies as many bytes as there are and as fit, and tells how many.
fn copy_front(source: &[u8], room: &mut [u8]) -> usize
    ensures count { result ≡ min (length room.old) (length source.now) }
    ensures copied { room.new ≡ take result source.now ++ drop result room.old }
{
    let count = room.len().min(source.len());
    let (front, _) = room.split_at_mut(count);
    front.copy_from_slice(&source[..count]);
    count
}

impl MemoryLink {
    /// A connection with this input, so much memory for its output, and these calls that are to
    /// fail.
    pub fn new(
        alloc: Global,
        input: Vec<u8>,
        room: usize,
        failing: Vec<u64>,
    ) -> Result<MemoryLink, AllocError>
        ensures { IfOk result (λ link. link ≡ record {
          input = input.items;
          output = [];
          room = room;
          failing = failing.items;
          calls = 0;
          read_faults = 0;
          write_faults = 0;
        }) }
    {
        let output = Vec::with_capacity(alloc, room)?;
        Ok(MemoryLink {
            input,
            taken: 0,
            output,
            room,
            failing,
            calls: 0,
            read_faults: 0,
            write_faults: 0,
        })
    }

    /// What was written. It takes no memory.
    pub fn written(&self) -> &[u8]
        ensures { result.now ≡ self.now.output }
    {
        self.output.as_slice()
    }

    /// Counts a call, and tells whether it is to fail.
    fn next_call(&mut self) -> bool
        ensures fails { result ≡ fails self.old }
        ensures called { self.new ≡ called self.old }
    {
        self.calls = self.calls.saturating_add(1);
        let number = self.calls;
        self.failing.iter().any(|failing| *failing == number)
    }

    /// The input that is left.
    fn left(&self) -> &[u8]
        ensures { result.now ≡ self.now.input }
    {
        &self.input.as_slice()[self.taken..]
    }

    /// Takes bytes of the input into the room.
    fn take_bytes(&mut self, room: &mut [u8]) -> usize
        ensures count { result ≡ min (length room.old) (length self.old.input) }
        ensures copied { room.new ≡ take result self.old.input ++ drop result room.old }
        ensures link { self.new ≡ record self.old { input = drop result self.old.input } }
    {
        let count = copy_front(self.left(), room);
        self.taken += count;
        count
    }

    /// Counts a failed read.
    fn fail_read(&mut self)
        ensures link { self.new ≡ read_failed self.old }
        ensures later { self.old.read_faults ≤ self.new.read_faults }
        ensures risen { HasRisen self.old.read_faults self.new.read_faults }
    {
        self.read_faults = self.read_faults.saturating_add(1);
    }

    /// Counts a failed write.
    fn fail_write(&mut self)
        ensures link { self.new ≡ write_failed self.old }
        ensures later { self.old.write_faults ≤ self.new.write_faults }
        ensures risen { HasRisen self.old.write_faults self.new.write_faults }
    {
        self.write_faults = self.write_faults.saturating_add(1);
    }
}

impl Link for MemoryLink {
    ghost input = { λ l. Some l.input };

    ghost output = { λ l. Some l.output };

    ghost read_faults = { λ l. l.read_faults };

    ghost write_faults = { λ l. l.write_faults };

    fn begin(&mut self, _part: Part)
        ensures link { self.new ≡ self.old }
        ensures input { Some self.new.input ≡ Some self.old.input }
        ensures output { Some self.new.output ≡ Some self.old.output }
        ensures read_faults { self.new.read_faults ≡ self.old.read_faults }
        ensures write_faults { self.new.write_faults ≡ self.old.write_faults }
    {}

    fn read(&mut self, room: &mut [u8]) -> Result<usize, LinkFault>
        ensures result { result ≡ read_result self.old room.old }
        ensures link { self.new ≡ after_read self.old room.old }
        ensures room { room.new ≡ room_after self.old room.old }
        ensures input { Reads (Some self.old.input) (Some self.new.input)
            room.old room.new result }
        ensures output { Some self.new.output ≡ Some self.old.output }
        ensures cause { HasCause self.old.read_faults self.new.read_faults
            result LinkFault.Failed }
        ensures write_faults { self.old.write_faults ≤ self.new.write_faults }
    {
        if self.next_call() {
            self.fail_read();
            return Err(LinkFault::Failed);
        }
        Ok(self.take_bytes(room))
    }

    fn write(&mut self, piece: &[u8]) -> Result<(), LinkFault>
        ensures result { result ≡ write_result self.old piece.now }
        ensures link { self.new ≡ after_write self.old piece.now }
        ensures output { Writes (Some self.old.output) (Some self.new.output) piece.now result }
        ensures input { Some self.new.input ≡ Some self.old.input }
        ensures cause { HasCause self.old.write_faults self.new.write_faults
            result LinkFault.Failed }
        ensures read_faults { self.old.read_faults ≤ self.new.read_faults }
    {
        if self.next_call() {
            self.fail_write();
            return Err(LinkFault::Failed);
        }
        if self.room < piece.len() {
            self.fail_write();
            return Err(LinkFault::Failed);
        }
        self.output.extend_from_slice(piece).unwrap();
        self.room -= piece.len();
        Ok(())
    }
}
