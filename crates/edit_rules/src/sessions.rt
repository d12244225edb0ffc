// What is known of a session.
ghost use Rattle.std.specs.Prelude.{◌≡◌, option_copied};
ghost use Rattle.edit_rules.specs.TicketRows.{last_of, number_for};

/// What is known of a session.
#[derive(Clone, Copy, Debug)]
pub struct Session {
    /// The number under which its entries are filed: the serial of its first one.
    pub number: u32,
    /// The serial of its last entry.
    pub last: u32,
}

/// The number under which an entry of a session at a serial is filed. It takes no memory.
pub fn number_for(known: Option<&Session>, serial: u32) -> u32
    ensures { result ≡ number_for (option_copied known.entry) serial }
{
    match known {
        None => serial,
        Some(known) => known.number,
    }
}

/// The serial of a session's last entry, if it has one. It takes no memory.
pub fn last_serial(known: Option<&Session>) -> Option<u32>
    ensures { result ≡ last_of (option_copied known.entry) }
{
    match known {
        None => None,
        Some(known) => Some(known.last),
    }
}
