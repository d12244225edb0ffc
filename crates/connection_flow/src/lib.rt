//! What a connection may do when: which of its bytes are a request, what is owed to it, when its
//! time is up, and which of many has its turn.
//!
//! It knows bytes and times, and a socket only as what bytes come from and go to.
//!
//! The main types are `Connection` and `Connections`. Rule: docs/RULES.md, "Gates".
#![tactic(auto)]

mod connection;
mod connections;
mod gathered;
mod patience;
mod socket;
mod unsent;

pub use connection::Connection;
pub use connections::{Connections, Lent};
pub use gathered::{Gathered, Progress};
pub use socket::{Socket, is_to_try_again, is_to_wait};
pub use unsent::Unsent;
