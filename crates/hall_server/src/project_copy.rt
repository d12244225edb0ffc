// A copy of a project, of which a text is made when the look is over.
ghost use Rattle.std.specs.Prelude.{◌≡◌, IfOk};
ghost use Rattle.edit_rules.specs.Histories.{project};

use board_core::Board;
use hall_log::{HallName, Prefix};
use project_model::Project;
use std::alloc::{AllocError, Global};
use std::marker::Model;

/// A copy of the project of a prefix. Contracts see the entries of the prefix.
#[derive(Drop)]
pub struct ProjectCopy<B: HallName> {
    prefix: Prefix<B>,
    copied: Project,
}

impl<B: HallName> Model for ProjectCopy<B> {
    ghost use Rattle.std.specs.Prelude.{◌≡◌, List};
    ghost use Rattle.edit_entries.specs.Entries.{EntryData};
    ghost use Rattle.edit_rules.specs.Histories.{project};

    ghost Value = { List EntryData };

    ghost view = { λ c. c.prefix };

    ghost invariant = { λ c. c.copied.contents ≡ project c.prefix };
}

impl<B: HallName> ProjectCopy<B> {
    /// A copy of the project of a board, with the entries that the board stands for.
    pub fn of(
        alloc: Global,
        board: &Board,
        prefix: &Prefix<B>,
    ) -> Result<ProjectCopy<B>, AllocError>
        requires { board.now.project ≡ project prefix.now }
        ensures { IfOk result (λ copy. copy ≡ prefix.now) }
    {
        let copied = board.project().copy(alloc)?;
        Ok(ProjectCopy {
            prefix: prefix.again(),
            copied,
        })
    }

    /// The entries. It takes no memory.
    pub fn prefix(&self) -> &Prefix<B>
        ensures { result.now ≡ self.now }
    {
        &self.prefix
    }

    /// Their project. It takes no memory.
    pub fn project(&self) -> &Project
        ensures { result.now.contents ≡ project self.now }
    {
        &self.copied
    }
}
