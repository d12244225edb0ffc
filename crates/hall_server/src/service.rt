// What answers the requests of a connection.
ghost use Rattle.std.specs.Prelude.{◌≡◌, ◌≤◌, ℕ, List, Option, length};
ghost use Rattle.std.specs.Borrow.{GName};
ghost use Rattle.edit_entries.specs.Entries.{EntryData};
ghost use Rattle.geda_defs.specs.Causes.{HasRisen};
ghost use Rattle.hall_server.specs.Services.{EditLosses, IsEditReply, Grows, IsShownReport};

use crate::shown::Shown;
use edit_entries::Entry;
use keeper_core::Reply;
use reports::What;
use std::alloc::Global;

/// What answers the requests of a connection: a history that grows, of which it sees ever more.
pub trait Service {
    /// The entries that it has seen.
    ghost seen: { Self → List EntryData };

    /// How many edits could not be kept. The count stays at 4,294,967,295.
    ghost losses: { Self → ℕ };

    /// How often what was seen could not be looked at. The count never falls, and stays at the end
    /// of its type.
    ghost refusals: { Self → ℕ };

    /// The reference that it holds, where it borrows what it serves. No call changes it, so that
    /// who lends knows that all calls were on what was lent.
    ghost reference: { Self → Option GName };

    /// Brings an entry, and tells what came of it.
    ///
    /// `KeeperFault` only for an entry that is accepted, and the losses have risen then. `NoEntry`
    /// only where the refusals rose.
    fn edit(&mut self, alloc: Global, entry: Entry) -> Reply
        ensures grown { Grows (seen self.old) (seen self.new) }
        ensures reply { IsEditReply (seen self.new) entry result }
        ensures losses { EditLosses (losses self.old) (losses self.new) result }
        ensures refusals { refusals self.old ≤ refusals self.new }
        ensures refused { result ≡ Reply.NoEntry →
            HasRisen (refusals self.old) (refusals self.new) }
        ensures same_reference { reference self.new ≡ reference self.old };

    /// The length of the history, as far as it is seen then. It takes no memory.
    fn front(&mut self) -> u32
        ensures grown { Grows (seen self.old) (seen self.new) }
        ensures front { result ≡ length (seen self.new) }
        ensures losses { losses self.new ≡ losses self.old }
        ensures refusals { refusals self.old ≤ refusals self.new }
        ensures same_reference { reference self.new ≡ reference self.old };

    /// What a report comes to, which may want the history to have so many entries.
    ///
    /// `NoEntry` only where the refusals rose; what is seen is as before then.
    fn report(&mut self, alloc: Global, least: Option<u64>, what: &What) -> Shown
        ensures grown { Grows (seen self.old) (seen self.new) }
        ensures shown { IsShownReport (seen self.new) least what.now result }
        ensures losses { losses self.new ≡ losses self.old }
        ensures refusals { refusals self.old ≤ refusals self.new }
        ensures refused { result ≡ Shown.NoEntry →
            HasRisen (refusals self.old) (refusals self.new) }
        ensures kept { result ≡ Shown.NoEntry → seen self.new ≡ seen self.old }
        ensures same_reference { reference self.new ≡ reference self.old };
}
