// A service with no entries.
ghost use Rattle.std.specs.Prelude.{◌≡◌};
ghost use Rattle.web_requests.specs.Answers.{is_behind};

use board_core::Board;
use edit_entries::Entry;
use hall_server::{Service, Shown};
use keeper_core::Reply;
use pin_matrix::Matrix;
use reports::{ReportFault, What, report};
use std::alloc::Global;
use std::marker::Model;
use web_requests::Bytes;

/// A service with no entries, which refuses so many looks of reports before it grants one. It has
/// no memory for edits.
#[derive(Drop)]
pub struct EmptyService {
    board: Board,
    refusing: u64,
    refusals: u64,
}

impl Model for EmptyService {
    ghost use Rattle.std.specs.Prelude.{◌≡◌, ℕ, []};
    ghost use Rattle.edit_rules.specs.Histories.{project};

    ghost Value = { ℕ };

    ghost view = { λ s. s.refusals };

    ghost invariant = { λ s. s.board.project ≡ project [] };
}

impl EmptyService {
    /// It refuses so many looks.
    pub fn new(alloc: Global, refusing: u64) -> EmptyService {
        EmptyService {
            board: Board::new(alloc),
            refusing,
            refusals: 0,
        }
    }
}

/// Whether more than no entries are wanted.
fn wants_more(least: Option<u64>) -> bool
    ensures { result ≡ is_behind least 0 }
{
    match least {
        Some(least) => least > 0,
        None => false,
    }
}

impl Service for EmptyService {
    ghost use Rattle.std.specs.Prelude.{[], None};

    ghost seen = { λ s. [] };

    ghost losses = { λ s. 0 };

    ghost refusals = { λ s. s };

    ghost reference = { λ s. None };

    fn edit(&mut self, _alloc: Global, _entry: Entry) -> Reply {
        Reply::NoMemory
    }

    fn front(&mut self) -> u32 {
        0
    }

    fn report(&mut self, alloc: Global, least: Option<u64>, what: &What) -> Shown {
        if self.refusing > 0 {
            self.refusing -= 1;
            self.refusals = self.refusals.saturating_add(1);
            return Shown::NoEntry;
        }
        if wants_more(least) {
            return Shown::Behind { front: 0 };
        }
        match report(alloc, &self.board, what, &Matrix::usual()) {
            Ok(text) => Shown::Text {
                front: 0,
                body: Bytes::from_vec(text),
            },
            Err(ReportFault::NoMemory) => Shown::NoMemory,
            Err(fault) => Shown::Fault { front: 0, fault },
        }
    }
}
