// What an edit is answered.
use edit_entries::EditFault;

/// What an edit is answered.
#[derive(Debug, Drop)]
pub enum Reply {
    /// The edit is accepted: its serial, the id before it, and the length of the history with it.
    Done {
        serial: u32,
        first_id: u32,
        front: u32,
    },
    /// The same edit was accepted before, with this serial and id.
    Repeat {
        serial: u32,
        first_id: u32,
        front: u32,
    },
    /// The edit is refused.
    Refused {
        fault: EditFault,
        front: u32,
    },
    /// The keeper failed to put the edit's row.
    KeeperFault {
        front: u32,
    },
    /// The seat was refused its look at the board.
    NoEntry,
    /// There was no memory.
    NoMemory,
}
