// The numbers that are drawn, and the changes that they make.
ghost use Rattle.std.specs.Prelude.{◌≡◌, ◌<◌, ⊤, IfOk, OnOk, OnErr, MatchOption, option_map};
ghost use Rattle.std.specs.FinMap.{keys};
ghost use Rattle.project_model.specs.Changes.{CanApply};
ghost use Rattle.gaf_work.specs.Draws.{drawn, first_state};
ghost use Rattle.gaf_work.specs.DrawnSteps.{HasRoom, step};

use crate::live::LiveIds;
use crate::steps::step;
use project_model::{Change, Project};
use std::alloc::{AllocError, Global};
use std::marker::Model;

/// A generator of changes (docs/RULES.md, "Work"). Contracts see it as the number that it drew
/// last.
#[derive(Debug, Drop)]
pub struct Work {
    state: u32,
}

impl Model for Work {
    ghost use Rattle.std.specs.Prelude.{ℕ, ◌<◌};

    ghost Value = { ℕ };

    ghost view = { λ w. w.state };

    ghost invariant = { λ w. w.state < 2147483647 };
}

/// The number that is drawn after another.
fn drawn(state: u32) -> u32
    requires { state < 2147483647 }
    ensures number { result ≡ drawn state }
    ensures below { result < 2147483647 }
{
    (48_271 * u64::from(state) % 2_147_483_647) as u32
}

impl Work {
    /// A generator that has drawn nothing yet. It takes no memory.
    pub fn new(start: u64) -> Work
        ensures { result ≡ first_state start }
    {
        let state = (start % 2_147_483_647) as u32;
        Work {
            state: if state == 0 { 1 } else { state },
        }
    }

    /// Draws a number, and answers the change of the next step on a project. On want of memory
    /// nothing is drawn.
    ///
    /// `None` exactly where the step takes an object away and the project has none.
    pub fn next(&mut self, alloc: Global, project: &Project) -> Result<Option<Change>, AllocError>
        ensures step { IfOk result (λ change. option_map (λ c. c.items) change
            ≡ step project.now.contents (drawn self.old)) }
        ensures drawn { OnOk result (self.new ≡ drawn self.old) }
        ensures kept { OnErr result (self.new ≡ self.old) }
        ensures can_apply { HasRoom project.now.contents → IfOk result
            (λ change. MatchOption change ⊤ (λ c. CanApply c.items)) }
    {
        let live = LiveIds::of(alloc, project)?;
        self.next_among(alloc, project, &live)
    }

    /// Draws as `next` does, on a project whose live ids are known. So a step looks at no more of
    /// the project than what it changes.
    pub fn next_among(
        &mut self,
        alloc: Global,
        project: &Project,
        live: &LiveIds,
    ) -> Result<Option<Change>, AllocError>
        requires { live.now ≡ keys project.now.contents.objects }
        ensures step { IfOk result (λ change. option_map (λ c. c.items) change
            ≡ step project.now.contents (drawn self.old)) }
        ensures drawn { OnOk result (self.new ≡ drawn self.old) }
        ensures kept { OnErr result (self.new ≡ self.old) }
        ensures can_apply { HasRoom project.now.contents → IfOk result
            (λ change. MatchOption change ⊤ (λ c. CanApply c.items)) }
    {
        let number = drawn(self.state);
        let change = step(alloc, project, live, number)?;
        self.state = number;
        Ok(change)
    }
}
