// The board that callers read, with the entries that it stands for.
ghost use Rattle.std.specs.Prelude.{◌≡◌, ◌++◌, ◌∷◌, [], List};
ghost use Rattle.edit_entries.specs.Entries.{EntryData};
ghost use Rattle.edit_rules.specs.Histories.{project};
ghost use Rattle.hall_core.specs.Histories.{IsNextChange};
ghost use Rattle.hall_core.specs.BoardSteps.{StepData, applied_to};

use board_core::Board;
use edit_entries::Entry;
use hall_log::{HallName, Prefix};
use left_right::Absorb;
use project_model::Change;
use std::alloc::{AllocError, Global};
use std::marker::Model;

/// A board, with the prefix whose project it has. Contracts see the entries of the prefix.
#[derive(Drop)]
pub struct PrefixBoard<B: HallName> {
    alloc: Global,
    board: Board,
    prefix: Prefix<B>,
}

impl<B: HallName> Model for PrefixBoard<B> {
    ghost use Rattle.std.specs.Prelude.{◌≡◌, List};
    ghost use Rattle.edit_entries.specs.Entries.{EntryData};
    ghost use Rattle.edit_rules.specs.Histories.{project};

    ghost Value = { List EntryData };

    ghost view = { λ s. s.prefix };

    ghost invariant = { λ s. s.board.project ≡ project s.prefix };
}

/// The change by which a prefix goes on by one entry.
#[derive(Drop)]
pub struct NextChange<B: HallName> {
    before: Prefix<B>,
    change: Change,
    after: Prefix<B>,
}

impl<B: HallName> Model for NextChange<B> {
    ghost use Rattle.hall_core.specs.Histories.{IsNextChange};
    ghost use Rattle.hall_core.specs.BoardSteps.{StepData};

    ghost Value = { StepData };

    ghost view = { λ o. record { before = o.before; after = o.after } };

    ghost invariant = { λ o. IsNextChange o.before o.after o.change.items };
}

impl<B: HallName> PrefixBoard<B> {
    /// The board of these entries. It takes no memory.
    pub fn new(alloc: Global, board: Board, prefix: Prefix<B>) -> PrefixBoard<B>
        requires { board.project ≡ project prefix }
        ensures { result ≡ prefix }
    {
        PrefixBoard {
            alloc,
            board,
            prefix,
        }
    }
}

impl<B: HallName> NextChange<B> {
    /// The step from one prefix to the next. It takes no memory.
    pub fn new(before: Prefix<B>, change: Change, after: Prefix<B>) -> NextChange<B>
        requires { IsNextChange before after change.items }
        ensures before { result.before ≡ before }
        ensures after { result.after ≡ after }
    {
        NextChange {
            before,
            change,
            after,
        }
    }

    /// The change alone. It takes no memory.
    pub fn into_change(self) -> Change
        ensures { IsNextChange self.before self.after result.items }
    {
        let NextChange {
            before: _,
            change,
            after: _,
        } = self;
        change
    }
}

/// What is published: a board with a prefix. It is a trait, since a struct cannot hold the writer
/// of a board whose type names a parameter.
pub trait ShowsBoard<B: HallName>: Absorb<NextChange<B>, State = [Entry; 0]> + Drop {
    /// The entries that the board stands for.
    ghost list: { Self → List EntryData };

    /// The prefix of these entries. It takes no memory.
    fn prefix(&self) -> &Prefix<B>
        ensures { result.now ≡ list self.now };

    /// The board of their project. It takes no memory.
    fn board(&self) -> &Board
        ensures { result.now.project ≡ project (list self.now) };

    /// The state of a copy is its entries.
    ghost lists: { (s : Self) → Self.Absorb.state s ≡ list s };

    /// A step takes its entry in.
    ghost applies: { (xs : List EntryData) (op : StepData) →
        Self.Absorb.applied xs op ≡ applied_to xs op };
}

impl<B: HallName> ShowsBoard<B> for PrefixBoard<B> {
    ghost use Rattle.std.specs.Prelude.{refl};

    ghost list = { λ s. s };

    ghost lists = { λ s. refl };

    ghost applies = { λ xs op. refl };

    fn prefix(&self) -> &Prefix<B> {
        &self.prefix
    }

    fn board(&self) -> &Board {
        &self.board
    }
}

impl<B: HallName> Absorb<NextChange<B>> for PrefixBoard<B> {
    type State = [Entry; 0];

    ghost state = { λ s. s };

    ghost applied = { applied_to };

    fn absorb_first(
        &mut self,
        operation: &NextChange<B>,
        _other: &PrefixBoard<B>,
    ) -> Result<(), AllocError> {
        // Each copy takes the steps in their order, so this is never so. The proof needs the test:
        // it knows the prefix that a step is to follow, and not which one this copy has.
        if self.prefix.len() != operation.before.len() || !self.prefix.begins(&operation.before) {
            return Ok(());
        }
        let _history = operation.after.len();
        self.board.apply(self.alloc, &operation.change)?;
        self.prefix = operation.after.again();
        Ok(())
    }
}
