// What the owner of a board knows.
ghost use Rattle.std.specs.Prelude.{◌≡◌, false};

use engine_core::Taken;

/// What the owner of a board knows.
#[derive(Clone, Copy, Debug)]
pub struct Hold {
    /// The revision at which it took the board.
    pub fence: u64,
    /// How many rows it vouches for.
    pub count: u32,
    /// Something that it asked may still be done.
    pub doubt: bool,
    /// It found another one's key: the board is lost.
    pub lost: bool,
}

impl Hold {
    /// What is known of a board that was just taken. It takes no memory.
    pub fn of(taken: Taken) -> Hold
        ensures fence { result.fence ≡ taken.fence }
        ensures count { result.count ≡ taken.count }
        ensures doubt { result.doubt ≡ false }
        ensures lost { result.lost ≡ false }
    {
        Hold {
            fence: taken.fence,
            count: taken.count,
            doubt: false,
            lost: false,
        }
    }
}
