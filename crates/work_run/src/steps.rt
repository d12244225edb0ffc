// The steps of a run.
ghost use Rattle.std.specs.Prelude.{◌≡◌, ◌+◌, ◌≤◌, ℕ, IfOk, OnOk};
ghost use Rattle.std.specs.FinMap.{keys};
ghost use Rattle.project_model.specs.Changes.{CanApply, put};
ghost use Rattle.gaf_work.specs.DrawnSteps.{HasRoom};
ghost use Rattle.work_run.specs.Runs.{AddsBound, IsOpened, IsRun, IsStep};
ghost use Rattle.work_run.specs.steps.SoundRuns.{IsSoundBoard, IsSoundRun, run_of};

use board_core::Board;
use gaf_work::{LiveIds, Work, opening};
use project_model::Change;
use std::alloc::{AllocError, Global};
use std::marker::Model;

/// Puts a change into a board, and answers a sum of bounds with that of the change.
fn put_in(alloc: Global, board: &mut Board, change: &Change, bound: u64) -> Result<u64, AllocError>
    requires { CanApply change.now.items }
    ensures project { OnOk result (board.new.project ≡ put board.old.project change.now.items) }
    ensures sum { IfOk result (AddsBound board.old.project change.now.items bound) }
    ensures sound { IsSoundBoard board.old bound → IfOk result (IsSoundBoard board.new) }
{
    let more = board.apply_with_bound(alloc, change)?;
    Ok(bound.saturating_add(more))
}

/// A run of the work: what draws its changes, the ids that they are drawn from, the board that
/// takes them, and the sum of their bounds.
#[derive(Drop)]
pub struct Run {
    work: Work,
    live: LiveIds,
    /// The board.
    pub board: Board,
    /// The sum of the bounds, at most 2^64 - 1.
    pub bound: u64,
}

impl Model for Run {
    ghost use Rattle.std.specs.FinMap as map;
    ghost use Rattle.std.specs.Coded.{codes};
    ghost use Rattle.work_run.specs.steps.SoundRuns.{OpenRun};

    ghost Value = { OpenRun };

    ghost coded = { Prim.hlevel (codes, map.code) };

    ghost view = { λ r. record { state = r.work; live = r.live; board = r.board; bound = r.bound } };
}

impl Run {
    /// A run before its first step.
    fn open(alloc: Global, start: u32) -> Result<Run, AllocError>
        ensures opened { IfOk result (λ run. IsOpened start (run_of run)) }
        ensures sound { IfOk result (IsSoundRun 0) }
    {
        let mut board = Board::new(alloc);
        let change = opening(alloc)?;
        let bound = put_in(alloc, &mut board, &change, 0)?;
        let live = LiveIds::of(alloc, board.project())?;
        Ok(Run {
            work: Work::new(u64::from(start)),
            live,
            board,
            bound,
        })
    }

    /// Draws a change, and puts it into the board.
    fn step(&mut self, alloc: Global) -> Result<(), AllocError>
        requires room { HasRoom self.old.board.project }
        requires live { self.old.live ≡ keys self.old.board.project.objects }
        ensures step { OnOk result (IsStep (run_of self.old) (run_of self.new)) }
        ensures sound { (count : ℕ) → IsSoundRun count self.old
            → OnOk result (IsSoundRun (count + 1) self.new) }
    {
        let project = self.board.project();
        if let Some(change) = self.work.next_among(alloc, project, &self.live)? {
            self.bound = put_in(alloc, &mut self.board, &change, self.bound)?;
            self.live.follow(&change)?;
        }
        Ok(())
    }
}

/// The run of so many steps from a start.
pub fn run_from(alloc: Global, start: u32, count: u32) -> Result<Run, AllocError>
    requires { count ≤ 100000 }
    ensures run { IfOk result (λ run. IsRun start count (run_of run)) }
    ensures sound { IfOk result (IsSoundRun count) }
{
    let mut run = Run::open(alloc, start)?;
    for _done in 0..count {
        run.step(alloc)?;
    }
    Ok(run)
}
