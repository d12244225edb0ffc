// What holds of the change, as laws that callers can cite.
ghost use Rattle.std.specs.Prelude.{◌<◌, All, List, ℕ, length};
ghost use Rattle.project_model.specs.Changes.{AreDistinct, CanApply};
ghost use Rattle.project_model.specs.Projects.{ProjectData};
ghost use Rattle.refdes_renum.specs.Laws.{IdsAreInRange, IsLeastFree, IsReplaced};
ghost use Rattle.refdes_renum.specs.Numbers.{greatest_u64, least_free};
ghost use Rattle.refdes_renum.specs.Renumbering.{renumbered};

/// The law that each item of the change is an object of the project, which stays in its sheet.
pub fn renumbered_replaced()
    ensures { (p : ProjectData) → All (IsReplaced p) (renumbered p) }
{}

/// The law that no object stands twice in the change, and that the project can take it, where the
/// ids of its objects leave room for the next one.
pub fn renumbered_distinct()
    ensures distinct { (p : ProjectData) → AreDistinct (renumbered p) }
    ensures can_apply { (p : ProjectData) → IdsAreInRange p → CanApply (renumbered p) }
{}

/// The law that the number that is looked for is the least one of which the text is not in use,
/// where fewer texts are in use than there are numbers of 64 bits from 1 on.
pub fn least_is_free()
    ensures { (used : List (List ℕ)) (stem : List ℕ) → length used < greatest_u64
        → IsLeastFree used stem (least_free used stem) }
{}
