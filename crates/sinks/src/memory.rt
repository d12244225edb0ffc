// A sink in memory, of which some calls fail.
use crate::sink::{Sink, SinkFault};
use outside::FailingCalls;
use std::alloc::{AllocError, Global};
use std::marker::Model;

/// A sink in memory that tells what was written.
#[derive(Drop)]
pub struct MemorySink {
    written: Vec<u8>,
    room: usize,
    planned: FailingCalls,
}

impl Model for MemorySink {
    ghost use Rattle.std.specs.Prelude.{◌+◌, ◌≤◌, vec_capacity, vec_len};
    ghost use Rattle.sinks.specs.MemorySinks.{MemorySinkData};

    ghost Value = { MemorySinkData };

    ghost view = { λ m. record {
      written = m.written.items;
      room = m.room;
      failing = m.planned.failing;
      calls = m.planned.calls;
      faults = m.planned.faults;
    } };

    ghost invariant = { λ m. vec_len m.written + m.room ≤ vec_capacity m.written };
}

impl MemorySink {
    ghost use Rattle.std.specs.Prelude.{◌≡◌, [], IfOk};

    /// An empty sink with room for so many bytes. The calls whose numbers are in `failing`, counted
    /// from 1, fail, and so does one that has no room.
    pub fn new(alloc: Global, room: usize, failing: Vec<u64>) -> Result<MemorySink, AllocError>
        ensures written { IfOk result (λ sink. sink.written ≡ []) }
        ensures failing { IfOk result (λ sink. sink.failing ≡ failing.items) }
        ensures room { IfOk result (λ sink. sink.room ≡ room) }
        ensures calls { IfOk result (λ sink. sink.calls ≡ 0) }
        ensures faults { IfOk result (λ sink. sink.faults ≡ 0) }
    {
        Ok(MemorySink {
            written: Vec::with_capacity(alloc, room)?,
            room,
            planned: FailingCalls::new(failing),
        })
    }

    /// The bytes that were written. It takes no memory.
    pub fn written(&self) -> &[u8]
        ensures { result.now ≡ self.now.written }
    {
        self.written.as_slice()
    }
}

impl Sink for MemorySink {
    ghost use Rattle.std.specs.Prelude.{◌≡◌, ◌↔◌, Some, IsErrOf, OnErr, OnOk, length};
    ghost use Rattle.geda_defs.specs.Causes.{HasCause};
    ghost use Rattle.geda_defs.specs.Contents.{Writes};
    ghost use Rattle.sinks.specs.MemorySinks.{SinkFails, sink_after_fault, sink_after_write};

    ghost written = { λ m. Some m.written };

    ghost faults = { λ m. m.faults };

    /// Writes all the bytes of a piece. It takes no memory.
    ///
    /// `Failed` exactly where the number of the call is in the list of those that fail, or the
    /// piece has more bytes than there is room for. The count of calls rises by one. With `Failed`
    /// the count of faults does too, and all else stays; otherwise the room falls by the piece.
    fn write(&mut self, piece: &[u8]) -> Result<(), SinkFault>
        ensures bytes { Writes (Some self.old.written) (Some self.new.written) piece.now result }
        ensures cause { HasCause self.old.faults self.new.faults result SinkFault.Failed }
        ensures failed { IsErrOf result SinkFault.Failed ↔ SinkFails self.old (length piece.now) }
        ensures after_write { OnOk result (self.new ≡ sink_after_write self.old piece.now) }
        ensures after_fault { OnErr result (self.new ≡ sink_after_fault self.old) }
    {
        if self.planned.is_next_failing() {
            return Err(SinkFault::Failed);
        }
        if piece.len() > self.room {
            self.planned.count_fault();
            return Err(SinkFault::Failed);
        }
        self.written.extend_from_slice(piece).unwrap();
        self.room -= piece.len();
        Ok(())
    }
}
