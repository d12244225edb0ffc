// What stands at the front of bytes that have come, before a message is read from them.
ghost use Rattle.std.specs.Prelude.{◌≤◌, length};
ghost use Rattle.web_heads.specs.MessageFronts.{IsMessageFront};

use crate::heads::{Judged, judge};

/// How long the message is that bytes begin with.
#[derive(Clone, Copy, Debug)]
pub struct MessageSize {
    /// How many bytes its head has.
    pub head: usize,
    /// How many bytes of body follow it, at most 4,194,304.
    pub body: usize,
    /// Whether its method is POST.
    pub is_post: bool,
}

/// What stands at the front of bytes that have come.
#[derive(Clone, Copy, Debug)]
pub enum MessageFront {
    /// No head yet, and further bytes may make one.
    Open,
    /// A whole head of a message of this size, whose body may be still to come.
    Sized(MessageSize),
    /// What no message can come of, whatever follows.
    Refused,
}

/// What stands at the front of at most 8,192 bytes.
fn front_of(bytes: &[u8]) -> MessageFront
    requires { length bytes.now ≤ 8192 }
    ensures { IsMessageFront bytes.now result }
{
    match judge(bytes, &[], None) {
        Judged::Whole(head) => MessageFront::Sized(MessageSize {
            head: head.len,
            body: head.body,
            is_post: head.method.of(bytes) == b"POST".as_slice(),
        }),
        Judged::Open if bytes.len() < 8192 => MessageFront::Open,
        Judged::Open => MessageFront::Refused,
        Judged::Refused(_) => MessageFront::Refused,
    }
}

/// What stands at the front of bytes that have come. It takes no memory. `next_message` of a link
/// whose input begins so reads on where it is `Open`; it makes a message of as many bytes as
/// `Sized` says, and reads on only while they are not there; and it ends where it is `Refused`. No
/// option is looked at: a foreign head is `Sized` too.
pub fn message_front(bytes: &[u8]) -> MessageFront
    ensures { IsMessageFront bytes.now result }
{
    let count = bytes.len().min(8192);
    front_of(&bytes[..count])
}
