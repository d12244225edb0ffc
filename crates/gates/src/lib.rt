//! Where the connections of a server come from: a list in memory, or a socket.
//!
//! It knows where a request ends, and nothing else of it.
//!
//! The main trait is `Gate`, whose connections are each a `Link` of web_heads. Contracts see how
//! often a gate failed to bind; what comes through a socket is told by none. Rule: docs/RULES.md,
//! "Gates".
#![tactic(auto)]

mod gate;
mod listener;
mod memory_gate;
mod poller;
mod served;
mod shared;
mod stream;
mod tcp_gate;
mod tcp_link;

pub use gate::{Gate, GateFault};
pub use memory_gate::MemoryGate;
pub use tcp_gate::TcpGate;
pub use tcp_link::TcpLink;
