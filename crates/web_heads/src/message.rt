// One message, in memory that was taken before.
ghost use Rattle.std.specs.Prelude.{◌≡◌, ◌≤◌, ◌+◌, [], ◌++◌, length, Some, None};
ghost use Rattle.web_heads.specs.Accesses.{speaks_as};
ghost use Rattle.web_heads.specs.Cuts.{MessageData};

use std::alloc::{AllocError, Global};
use std::marker::Model;

/// A message: what its head says of it, and its body. Its memory serves each message that there may
/// be.
#[derive(Drop)]
pub struct Message {
    method: Vec<u8>,
    target: String,
    body: Vec<u8>,
    closing: bool,
    user: Vec<u8>,
    asks_user: bool,
    has_user: bool,
}

impl Model for Message {
    ghost use Rattle.std.specs.Prelude.{◌≤◌, vec_capacity};
    ghost use Rattle.std.specs.String.{string_bytes, string_capacity};
    ghost use Rattle.web_heads.specs.Cuts.{MessageData};
    ghost use Rattle.web_heads.specs.steps.Reading.{user_in};

    ghost Value = { MessageData };

    ghost view = { λ m. record { method = m.method.items; target = string_bytes m.target; body = m.body.items; closing = m.closing; user = user_in m.asks_user m.has_user m.user.items } };

    ghost invariant = { λ m. (8192 ≤ vec_capacity m.method) × (8192 ≤ string_capacity m.target) × (4194304 ≤ vec_capacity m.body) × (8192 ≤ vec_capacity m.user) };
}

impl Message {
    /// An empty message, with memory for each that there may be.
    pub fn new(alloc: Global) -> Result<Message, AllocError> {
        Ok(Message {
            method: Vec::with_capacity(alloc, 8192)?,
            target: String::with_capacity(alloc, 8192)?,
            body: Vec::with_capacity(alloc, 4_194_304)?,
            closing: false,
            user: Vec::with_capacity(alloc, 8192)?,
            asks_user: false,
            has_user: false,
        })
    }

    /// Begins a message with no bytes of its body.
    pub(crate) fn begin(&mut self, method: &[u8], target: &str, closing: bool)
        requires method { length method.now ≤ 8192 }
        requires target { length target.now ≤ 8192 }
        ensures { self.new ≡ record self.old {
          method = method.now;
          target = target.now;
          body = [];
          closing = closing;
        } }
    {
        self.method.clear();
        self.method.extend_from_slice(method).unwrap();
        self.target.clear();
        self.target.push_str(target).unwrap();
        self.body.clear();
        self.closing = closing;
    }

    /// Has it speak as anyone.
    pub(crate) fn speak_as_anyone(&mut self)
        ensures { self.new ≡ record self.old { user = None } }
    {
        self.asks_user = false;
    }

    /// Has it speak as nobody.
    pub(crate) fn speak_as_nobody(&mut self)
        ensures { self.new ≡ record self.old { user = Some None } }
    {
        self.asks_user = true;
        self.has_user = false;
    }

    /// Has it speak as this user.
    pub(crate) fn speak_as(&mut self, user: &[u8])
        requires { length user.now ≤ 8192 }
        ensures { self.new ≡ record self.old { user = Some (Some user.now) } }
    {
        self.user.clear();
        self.user.extend_from_slice(user).unwrap();
        self.asks_user = true;
        self.has_user = true;
    }

    /// Adds bytes of its body.
    pub(crate) fn push(&mut self, bytes: &[u8])
        requires { length self.old.body + length bytes.now ≤ 4194304 }
        ensures { self.new ≡ record self.old { body = self.old.body ++ bytes.now } }
    {
        self.body.extend_from_slice(bytes).unwrap();
    }

    /// How many bytes of its body there are.
    pub(crate) fn body_len(&self) -> usize
        ensures { result ≡ length self.now.body }
    {
        self.body.len()
    }

    /// The method. It takes no memory.
    pub fn method(&self) -> &[u8]
        ensures { result.now ≡ self.now.method }
    {
        self.method.as_slice()
    }

    /// The target. It takes no memory.
    pub fn target(&self) -> &str
        ensures { result.now ≡ self.now.target }
    {
        self.target.as_str()
    }

    /// The body. It takes no memory.
    pub fn body(&self) -> &[u8]
        ensures { result.now ≡ self.now.body }
    {
        self.body.as_slice()
    }

    /// Whether an entry of this session may come in it. It takes no memory.
    pub fn speaks_as(&self, session: &[u8]) -> bool
        ensures { result ≡ speaks_as self.now.user session.now }
    {
        if !self.asks_user {
            return true;
        }
        if !self.has_user {
            return false;
        }
        self.user.as_slice() == session
    }

    /// Whether the message says that the connection closes after it. It takes no memory.
    pub fn closing(&self) -> bool
        ensures { result ≡ self.now.closing }
    {
        self.closing
    }
}
