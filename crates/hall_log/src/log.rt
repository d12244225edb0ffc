// The list of entries that all callers share. It stands in the proofs alone; what the callers share
// is its length.
ghost use Rattle.std.specs.Prelude.{◌≡◌, ℕ, ◌+◌, ◌*◌, ◌==◌, ◌<◌, ◌≤◌, ◌^◌, ◌++◌, ◌∷◌, [], ◌⊎◌, ◌↔◌, length, MatchBool, IsTrue};
ghost use mathlib.Core.List.{IsPrefix};
ghost use Rattle.hall_log.specs.Histories.{IsHistory, MayFollow};
ghost use Rattle.hall_log.specs.Logs.{IsLonger, head_of};

use edit_entries::Entry;
use logbook::{Gain, Offer, Plain, Play, Rule, Seen, Start, Word};
use std::marker::{Brand, Model, PhantomData};
use std::sync::ledger;
use std::sync::ledger::{Blank, Ledger, Share};

/// The rule of the log: its word is the length of the list, which is a legal history.
pub struct LengthRule;

impl Rule<Entry, u64> for LengthRule {
    ghost use Rattle.std.specs.Prelude.{[]};
    ghost use base.Fml.{ftrue};
    ghost use Rattle.hall_log.specs.Logs.{IsKeptLog};

    ghost holds = { λ cells log. IsKeptLog cells log };

    ghost first = { [] };

    ghost hinted = { λ n log. Unit {0} };

    ghost shows = { λ log. [] };

    ghost keeps = { λ names log. ftrue };

    ghost moves = { λ ask before after answer. Unit {0} };
}

/// Callers get nothing but the list.
pub struct NoGain;

impl Gain<Entry, u64> for NoGain {
    ghost use base.Fml.{ftrue};

    ghost after = { λ names about answer. ftrue };
}

/// A step that adds an entry.
pub struct AddEntry;

impl Play<Entry, u64> for AddEntry {
    ghost use Rattle.hall_log.specs.Logs.{Adds};

    ghost then = { Adds };
}

impl Plain<Entry, Entry, u64> for AddEntry {
    ghost use Rattle.std.specs.Prelude.{None};

    ghost ask = { λ entry. entry };

    ghost state = { λ entry. None };
}

/// Which hall it is: its log, its ledger of losses, and how many seats it has. A program picks it
/// once for a hall, by `Brand`.
pub trait HallName: Ledger {
    ghost use Rattle.logbook.specs.Pages.{Book};

    /// The log.
    ghost book: { Book };

    /// How many seats there are.
    ghost seats: { ℕ };
}

impl HallName for Brand {
    ghost book = { record { number = 0; log_name = 0; cells_name = 0 } };

    ghost seats = { 0 };
}

/// A log of no entries and an empty ledger, which are not named yet. Contracts see the log, the
/// ledger and its parts, of which each seat gets one. Those that are left are one more, so that who
/// holds them knows that no other one does.
pub struct NewLog {
    head: Word<Entry, u64, LengthRule>,
    seen: Seen<Entry, u64, LengthRule>,
    blank: Blank,
}

impl Model for NewLog {
    ghost use Rattle.std.specs.Prelude.{◌≡◌, []};
    ghost use Rattle.hall_log.specs.Logs.{NewLogData, head_of};

    ghost Value = { NewLogData };

    ghost view = { λ o. record {
      book = o.seen.book;
      ledger = o.blank.name;
      parts = o.blank.parts;
    } };

    ghost invariant = { λ o. (o.seen.log ≡ []) × (o.head ≡ head_of o.seen.book) };
}

/// The same under the name of a hall.
#[derive(Drop)]
pub struct NamedLog<B: HallName> {
    log_length: LogLength<B>,
    seen: Prefix<B>,
    owed: ledger::Book<B>,
    rest: Share<B>,
    ghost empty: { seen ≡ [] },
    ghost owes: { owed.total ≡ 0 },
    ghost whole: { (rest.parts ≡ B.seats * 2 + 1) × (rest.amount ≡ 0) },
}

impl NewLog {
    /// For a hall of so many seats. It takes no memory.
    pub fn new(seats: u32) -> NewLog
        ensures { result.parts ≡ seats * 2 + 1 }
    {
        let (seen, mut first, _second) = Seen::open(Start::alone(), 0, 0);
        NewLog {
            head: Word::tracked(0, &mut first),
            seen,
            blank: Blank::new(u64::from(seats) * 2 + 1),
        }
    }

    /// The log under the name of a hall. It takes no memory.
    pub fn named<B: HallName>(self) -> NamedLog<B>
        requires book { self.book ≡ B.book }
        requires ledger { (self.ledger ≡ B.name) × (self.parts ≡ B.parts) }
        requires parts { B.parts ≡ B.seats * 2 + 1 }
    {
        let NewLog { head, seen, blank } = self;
        let (owed, rest) = blank.open::<B>();
        NamedLog {
            log_length: LogLength {
                head,
                of: PhantomData,
            },
            seen: Prefix {
                entries: 0,
                seen,
                of: PhantomData,
            },
            owed,
            rest,
        }
    }
}

impl<B: HallName> NamedLog<B> {
    /// The length of the list, the prefix of no entries, and the book of the ledger with a share
    /// that has all parts and nothing. It takes no memory.
    pub fn into_parts(self) -> (LogLength<B>, Prefix<B>, ledger::Book<B>, Share<B>)
        ensures seen { result.1 ≡ [] }
        ensures owed { result.2.total ≡ 0 }
        ensures rest { (result.3.parts ≡ B.seats * 2 + 1) × (result.3.amount ≡ 0) }
    {
        let NamedLog {
            log_length,
            seen,
            owed,
            rest,
        } = self;
        (log_length, seen, owed, rest)
    }
}

/// The word that is the length of the list.
#[derive(Drop)]
pub struct LogLength<B: HallName> {
    head: Word<Entry, u64, LengthRule>,
    of: PhantomData<B>,
    ghost head_is: { head ≡ head_of B.book },
}

/// A prefix of the list, as it was seen. Contracts see its entries.
#[derive(Drop)]
pub struct Prefix<B: HallName> {
    entries: u64,
    seen: Seen<Entry, u64, LengthRule>,
    of: PhantomData<B>,
}

impl<B: HallName> Model for Prefix<B> {
    ghost use Rattle.std.specs.Prelude.{◌≡◌, List, length};
    ghost use Rattle.edit_entries.specs.Entries.{EntryData};
    ghost use Rattle.hall_log.specs.Histories.{IsHistory};

    ghost Value = { List EntryData };

    ghost view = { λ p. p.seen.log };

    ghost invariant = { λ p.
        (p.entries ≡ length p.seen.log) × (p.seen.book ≡ B.book) × IsHistory p.seen.log };
}

impl<B: HallName> Prefix<B> {
    /// How many entries it has. It takes no memory.
    pub fn len(&self) -> u64
        ensures length { result ≡ length self.now }
        ensures history { IsHistory self.now }
        ensures short { length self.now ≤ 200000 }
    {
        self.entries
    }

    /// The same prefix once more. It takes no memory.
    pub fn again(&self) -> Prefix<B>
        ensures { result ≡ self.now }
    {
        Prefix {
            entries: self.entries,
            seen: self.seen.again(),
            of: PhantomData,
        }
    }

    /// Whether the other one is no shorter. It then begins with this one. It takes no memory.
    pub fn begins(&self, other: &Prefix<B>) -> bool
        ensures length { IsTrue result ↔ (length self.now ≤ length other.now) }
        ensures begins { IsTrue result → IsPrefix self.now other.now }
    {
        let mut both = self.seen.again();
        both.learn(&other.seen);
        self.entries <= other.entries
    }

    /// Adds an entry to the list where all of that was seen, and says whether it did: it did not
    /// where the list is longer, of which all is then seen. It takes no memory.
    pub fn add(&mut self, log_length: &LogLength<B>, entry: &Entry) -> bool
        requires room { length self.old < 2 ^ 62 }
        requires accepted { MayFollow self.old entry.now }
        ensures { MatchBool result
            (self.new ≡ self.old ++ entry.now ∷ [])
            (IsLonger self.old self.new) }
    {
        // A field is read so that the proof sees that the entry is in range.
        let _ = &entry.edit;
        let mut offer: Offer<Entry, u64, LengthRule, NoGain> = self
            .seen
            .plain::<NoGain, Entry, AddEntry>(entry);
        let mut pen = self.seen.no_pen();
        let entries = self.entries;
        let found = log_length
            .head
            .compare_exchange::<AddEntry, NoGain>(
                entries,
                entries + 1,
                &mut self.seen,
                &mut offer,
                &mut pen,
            );
        self.entries = if found == entries { entries + 1 } else { found };
        found == entries
    }
}
