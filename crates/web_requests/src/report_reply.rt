// The reply with the text of a report that stands once, for all who ask.
ghost use Rattle.std.specs.Prelude.{◌≡◌, IfOk};
ghost use Rattle.web_requests.specs.SharedReplies.{ReportReplyData, open_reply};

use crate::head::{report_head, write_reply};
use crate::reply_buffer::ReplyBuffer;
use std::alloc::{AllocError, Global};
use std::marker::Model;

/// The reply with the text of a report, on a connection that stays open.
#[derive(Debug, Drop)]
pub struct ReportReply {
    buffer: ReplyBuffer,
    // Where the text begins.
    start: usize,
    front: u32,
}

impl Model for ReportReply {
    ghost use Rattle.std.specs.Prelude.{◌≡◌, ◌≤◌, drop, length};
    ghost use Rattle.web_requests.specs.SharedReplies.{ReportReplyData, open_reply};

    ghost Value = { ReportReplyData };

    ghost view = { λ r. record { front = r.front; text = drop r.start r.buffer } };

    ghost invariant = { λ r. (r.start ≤ length r.buffer)
        × (r.buffer ≡ open_reply (record { front = r.front; text = drop r.start r.buffer })) };
}

impl ReportReply {
    /// The reply with this text after so many entries.
    pub fn new(alloc: Global, front: u32, text: &[u8]) -> Result<ReportReply, AllocError>
        ensures { IfOk result (λ reply. reply ≡ record { front = front; text = text.now }) }
    {
        let mut buffer = ReplyBuffer::new(alloc)?;
        write_reply(&mut buffer, &report_head(front, false), text)?;
        let start = buffer.as_slice().len() - text.len();
        Ok(ReportReply {
            buffer,
            start,
            front,
        })
    }

    /// The length of the history on which it stands. It takes no memory.
    pub fn front(&self) -> u32
        ensures { result ≡ self.now.front }
    {
        self.front
    }

    /// The text. It takes no memory.
    pub fn text(&self) -> &[u8]
        ensures { result.now ≡ self.now.text }
    {
        &self.buffer.as_slice()[self.start..]
    }

    /// The reply. It takes no memory.
    pub fn as_slice(&self) -> &[u8]
        ensures { result.now ≡ open_reply self.now }
    {
        self.buffer.as_slice()
    }
}
