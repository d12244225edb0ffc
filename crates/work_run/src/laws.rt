// Laws of the work.
ghost use Rattle.std.specs.Prelude.{◌≤◌, ℕ, List};
ghost use Rattle.hierarchy.specs.Instances.{IsCrowded};
ghost use Rattle.work_run.specs.Runs.{IsRun, RunData};
ghost use Rattle.work_run.specs.RunText.{AgreeButForCalls, WorkComesTo};

/// The law that what the work draws stays within the limits of a hierarchy (docs/RULES.md, "Limits
/// of a hierarchy"): it has one instance of one sheet.
pub fn one_instance()
    ensures { (start count : ℕ) (run : RunData) → count ≤ 100000
        → IsRun start count run → ¬ (IsCrowded run.project) }
{}

/// The law that so many steps from a start have one text, but for the number of its calls.
pub fn one_work()
    ensures { (start count : ℕ) (one other : List ℕ) → WorkComesTo start count one
        → WorkComesTo start count other → AgreeButForCalls one other }
{}
