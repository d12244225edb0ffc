//! The request that an HTTP message is: an edit, a report, or one that is answered by its fault
//! alone; and the text of its reply, byte for byte: what it is answered after a history.
//!
//! matchit decides the route of a path. What a request is answered after a history is said of the
//! entries alone, as if all were made anew.
//!
//! The main call is `request_of`. A reply is written into a `ReplyText`, which has memory for the
//! one reply that may not fail; the reply to a report that is kept stands once, and is shared.
//! Profile: docs/FORMATS.md, "HTTP". Rules: docs/RULES.md, "Requests" and "Answers". Definitions:
//! specs/Requests.antt, specs/Answers.antt, and those that they cite.
#![tactic(auto)]

mod body;
mod fixed;
mod head;
mod laws;
mod query;
mod reply_buffer;
mod reply_text;
mod report_bytes;
mod report_reply;
mod request;
mod route;
mod writing;

pub use fixed::{no_entry_text, no_memory_text};
pub use laws::{acknowledged_law, held_law, one_request_law};
pub use reply_text::ReplyText;
pub use report_bytes::Bytes;
pub use request::{Allowed, FixedRequest, Request, request_of};
pub use route::Routes;
pub use writing::{write_behind, write_done, write_fault, write_fixed, write_named, write_report};
