// The text of a report.
ghost use Rattle.std.specs.Prelude.{◌≡◌, IfOk, IfSome};
ghost use Rattle.std.specs.Arc.{arc_value};
ghost use Rattle.web_requests.specs.Answers.{report_reply};
ghost use Rattle.web_requests.specs.SharedReplies.{open_reply};

use crate::report_reply::ReportReply;
use std::alloc::{AllocError, Global};
use std::marker::Model;
use std::sync::Arc;

/// Where the text of a report stands.
#[derive(Debug, Drop)]
enum TextForm {
    /// By itself.
    Owned(Vec<u8>),
    /// In a reply.
    Shared(Arc<ReportReply>),
}

/// A list of bytes: the text of a report, by itself or in a reply that is sent to all who ask.
#[derive(Debug, Drop)]
pub struct Bytes {
    form: TextForm,
}

impl Model for Bytes {
    ghost use Rattle.std.specs.Prelude.{List, ℕ};
    ghost use Rattle.web_requests.specs.ReportTexts.{text_in_form};

    ghost Value = { List ℕ };

    ghost view = { λ b. text_in_form b.form };
}

impl Bytes {
    /// These bytes. It takes no memory.
    pub fn from_vec(list: Vec<u8>) -> Bytes
        ensures { result ≡ list.items }
    {
        Bytes {
            form: TextForm::Owned(list),
        }
    }

    /// The text of a report on a history of so many entries, in a reply that all who ask are sent.
    pub fn in_reply(alloc: Global, front: u32, text: &[u8]) -> Result<Bytes, AllocError>
        ensures { IfOk result (λ bytes. bytes ≡ text.now) }
    {
        let reply = ReportReply::new(alloc, front, text)?;
        Ok(Bytes {
            form: TextForm::Shared(Arc::new(alloc, reply)?),
        })
    }

    /// The same bytes once more, where they stand in a reply. It takes no memory.
    pub fn again(&self) -> Option<Bytes>
        ensures { IfSome result (λ bytes. bytes ≡ self.now) }
    {
        let TextForm::Shared(reply) = &self.form else {
            return None;
        };
        let reply = Arc::try_clone(reply).ok()?;
        Some(Bytes {
            form: TextForm::Shared(reply),
        })
    }

    /// The bytes. It takes no memory.
    pub fn as_slice(&self) -> &[u8]
        ensures { result.now ≡ self.now }
    {
        match &self.form {
            TextForm::Owned(list) => list.as_slice(),
            TextForm::Shared(reply) => reply.text(),
        }
    }

    /// The reply in which they stand, where it is this one: after so many entries, and closing or
    /// not. It takes no memory.
    pub(crate) fn reply(&self, front: u32, closing: bool) -> Option<Arc<ReportReply>>
        ensures { IfSome result (λ reply.
            open_reply (arc_value reply) ≡ report_reply front closing self.now) }
    {
        let TextForm::Shared(reply) = &self.form else {
            return None;
        };
        if closing {
            return None;
        }
        if reply.front() != front {
            return None;
        }
        Arc::try_clone(reply).ok()
    }
}
