//! The messages of an HTTP connection: what a connection does, where each message ends, and why
//! none follows.
//!
//! It reads on until the next message is whole, or until it is known why none follows.
//!
//! The main call is `next_message`, over a `Link`; `MemoryLink` is one in memory. Profile:
//! docs/FORMATS.md, "HTTP". Rule: docs/RULES.md, "Messages". Definitions: specs/Cuts.antt and those
//! that it cites.
#![tactic(auto)]

mod access;
mod buffer;
mod cut_end;
mod digits;
mod heads;
mod laws;
mod link;
mod memory_link;
mod message;
mod next;
mod sizes;

pub use access::Access;
pub use buffer::Buffer;
pub use cut_end::CutEnd;
pub use digits::short_number;
pub use laws::{first_law, one_list_law};
pub use link::{Link, LinkFault, Part};
pub use memory_link::MemoryLink;
pub use message::Message;
pub use next::{Next, next_message};
pub use sizes::{MessageFront, MessageSize, message_front};
