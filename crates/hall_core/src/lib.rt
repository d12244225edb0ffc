//! Many callers at one history of edits: the pen behind a lock, a seat for each caller, and the
//! board that they read without the lock.
//!
//! Each published board has a token of its prefix. A publish waits for the looks at the older copy
//! of the board, so a look is to be short: who makes a text of the board copies its project first.
//! It makes no report, and knows no connection.
//!
//! Serials and lengths of histories count entries, from 0. The main types are `Hall` and `Seat`;
//! who opens a hall names it once (`HallName`). Rules: docs/RULES.md, "Histories that are shared"
//! and "Seats". Definitions: specs/Pens.antt (the pen, and edits), specs/Seats.antt,
//! specs/Rows.antt, specs/Closings.antt, and those that they cite.
#![tactic(auto)]

mod board_copy;
mod desk_budget;
mod door;
mod hall;
mod keys;
pub mod laws;
mod losses;
mod pen;
mod published;
mod rows;
mod seat;

pub use board_copy::{NextChange, PrefixBoard, ShowsBoard};
pub use door::{Door, Places};
pub use hall::{BoardHall, BoardSeat, Hall, close_hall, edit, open_hall};
pub use hall_log::{HallName, NamedLog, NewLog, Prefix};
pub use keeper_core::Reply;
pub use keys::Keys;
pub use pen::Pen;
pub use rows::OpenFault;
pub use seat::Seat;
