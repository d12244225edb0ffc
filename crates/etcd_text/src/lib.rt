//! What is asked of etcd's JSON gateway, and what it answers, for the rows of a board.
//!
//! Keys and requests are bytes exactly (specs/Keys.antt, specs/Requests.antt). Of an answer is taken only what it says in so
//! many words; anything else is no answer, by which nothing is known of what was asked
//! (specs/Answers.antt). Rule: docs/RULES.md, "Boards on several machines".
#![tactic(auto)]

mod answers;
mod keys;
mod numbers;
mod requests;
mod values;

pub use answers::{read_owner, read_put, read_row, read_taking};
pub use keys::{owner_key, row_key, rows_end};
pub use numbers::string_number;
pub use requests::{key_text, put_text, take_text};
