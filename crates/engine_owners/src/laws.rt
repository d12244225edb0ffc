// What joins two owners of a board.
ghost use Rattle.std.specs.Prelude.{◌≡◌, ◌≤◌, ◌+◌, ℕ, Bool, true, false, List, length};
ghost use Rattle.engine_core.specs.Calls.{Elapses, put_txn};
ghost use Rattle.engine_core.specs.Worlds.{TxnData, World, is_done};
ghost use Rattle.engine_board.specs.Holding.{IsHolding, IsLate};
ghost use Rattle.engine_board.specs.Openings.{OpensBoard};
ghost use Rattle.engine_board.specs.declared.hold.Hold.{Hold};
ghost use Rattle.engine_owners.specs.Pairs.{FindsAll, HasFound, IsSeen, SeeOneStore};

/// What an owner asked and that was not answered is, when it is done, an event that the other's
/// rule allows.
pub fn asked_law()
    ensures { (fence : ℕ) (doubt : Bool) (count : ℕ) (t : TxnData) (w other : World)
        → IsHolding fence doubt count w → IsLate fence doubt count t
        → HasFound count w other → SeeOneStore w other → IsSeen count t w other }
{}

/// So is the row that an owner sends where nothing is in doubt.
pub fn sent_law()
    ensures { (fence count : ℕ) (body : List ℕ) (w other : World)
        → IsHolding fence false count w → HasFound count w other → SeeOneStore w other
        → IsSeen (count + 1) (put_txn fence count body) w other }
{}

/// Who takes the board vouches for all rows for which another owner vouches, as these are; and has
/// found those that were there when the board went from the other.
pub fn taken_law()
    ensures all { (fence : ℕ) (doubt : Bool) (count : ℕ) (other there w v : World) (hold : Hold)
        → IsHolding fence doubt count other → Elapses other there → (opens : OpensBoard hold w v)
        → SeeOneStore opens.at there → FindsAll count hold other v }
    ensures found { (w other : World) → SeeOneStore w other → other.base ≤ length other.rows
        → HasFound (length w.rows) w other }
{}
