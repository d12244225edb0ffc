//! Connections and histories as lines: the requests of a connection, and the entries of a history
//! or of a store, are lines of a table's file, and the replies that went out are lines of an
//! answer.
//!
//! How they are written stands in crates/cases/data/README.txt.
#![tactic(auto)]

mod entries;
mod ids;
mod replies;
mod requests;

pub use entries::{entries_of, entry_of};
pub use replies::{AnswerLines, last_lines, lines_of, put_bodies};
pub use requests::{input_of, put_request};
