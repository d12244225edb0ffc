// The text of a reply that is sent.
ghost use Rattle.std.specs.Prelude.{◌≡◌, [], IfOk, OnOk};
ghost use Rattle.std.specs.Arc.{arc_value};
ghost use Rattle.web_requests.specs.Answers.{lost_reply};
ghost use Rattle.web_requests.specs.SharedReplies.{open_reply};
ghost use Rattle.web_requests.specs.Texts.{reply_text};

use crate::head::{Head, write_reply};
use crate::reply_buffer::ReplyBuffer;
use crate::report_reply::ReportReply;
use std::alloc::{AllocError, Global};
use std::marker::Model;
use std::sync::Arc;

/// The text of a reply. There is always memory for the reply to an edit that could not be kept.
#[derive(Drop)]
pub struct ReplyText {
    written: ReplyBuffer,
    // What is sent in place of what was written.
    shared: Option<Arc<ReportReply>>,
}

impl Model for ReplyText {
    ghost use Rattle.std.specs.Prelude.{ℕ, List};
    ghost use Rattle.web_requests.specs.SharedReplies.{reply_bytes};

    ghost Value = { List ℕ };

    ghost view = { λ t. reply_bytes t.shared t.written };
}

impl ReplyText {
    /// No text.
    pub fn new(alloc: Global) -> Result<ReplyText, AllocError>
        ensures { IfOk result (λ text. text ≡ []) }
    {
        Ok(ReplyText {
            written: ReplyBuffer::new(alloc)?,
            shared: None,
        })
    }

    /// Takes all of it away, and lets go what is shared.
    pub fn clear(&mut self)
        ensures { self.new ≡ [] }
    {
        self.shared = None;
        self.written.clear();
    }

    /// Its bytes. It takes no memory.
    pub fn as_slice(&self) -> &[u8]
        ensures { result.now ≡ self.now }
    {
        match &self.shared {
            Some(reply) => reply.as_slice(),
            None => self.written.as_slice(),
        }
    }

    /// Writes a reply in place of what stood there.
    pub(crate) fn write(&mut self, head: &Head, body: &[u8]) -> Result<(), AllocError>
        ensures { OnOk result (self.new ≡ reply_text head.now body.now) }
    {
        self.shared = None;
        write_reply(&mut self.written, head, body)
    }

    /// Shares a reply in place of what stood there. It takes no memory.
    pub(crate) fn share(&mut self, reply: Arc<ReportReply>)
        ensures { self.new ≡ open_reply (arc_value reply) }
    {
        self.shared = Some(reply);
    }

    /// Writes the reply to an accepted edit that could not be kept, in place of what stood there
    /// (docs/RULES.md, "Answers"). It takes no memory.
    pub fn write_lost(&mut self, front: u32, closing: bool)
        ensures { self.new ≡ lost_reply front closing }
    {
        self.shared = None;
        self.written.write_lost(front, closing);
    }
}
