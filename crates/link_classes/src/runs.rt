// The pairs of groups where the instances of what is drawn never fall. The conductors of an
// instance are then a run, and the first places of the present instance are kept by rows alone.
ghost use Rattle.std.specs.Prelude.{◌≡◌, ◌++◌, ◌<◌, ◌-◌, ◌^◌, IfOk, IfSome, IsTrue, length};
ghost use Rattle.std.specs.Prelude.{MatchOption, None, option_map, vec_capacity, vec_len};
ghost use Rattle.std.specs.List.Sorted.{IsStrictlySortedBy};
ghost use Rattle.std.specs.Map.{keys_of};
ghost use Rattle.geda_geom.specs.Keys.{by_key};
ghost use Rattle.link_classes.specs.InstanceGroups.{AreInstanceGroups, groups_by};
ghost use Rattle.link_classes.specs.Links.{AreTouching, AtPlaces};
ghost use Rattle.link_classes.specs.steps.FirstPlaces.{pair_with};
ghost use Rattle.link_classes.specs.steps.GroupPlaces.{row_group};
ghost use Rattle.link_classes.specs.steps.GroupRows.{IsRow};
ghost use Rattle.link_classes.specs.steps.RunPlaces.{AreNone, Enters, HasRoom, Marks, Ties, noted};
ghost use Rattle.pair_classes.specs.Pairs.{Spans};

use crate::rows::{are_one, key_row};
use flat_rows::{FlatRow, FlatRows};
use geda_geom::Key;
use std::alloc::{AllocError, Global};

/// Where the rows of keys are looked for first: the row that comes next, and for each id the row
/// that its key at place 0 would have, since the rows of an id follow one another. What it says is
/// tried, and a row that is not there is searched for.
#[derive(Drop)]
struct Hints {
    next: usize,
    bases: Vec<usize>,
}

impl Hints {
    /// The hints before any row is met. Ids far greater than rows are many have none.
    fn new(alloc: Global, rows: &[(Key, Key)]) -> Result<Hints, AllocError> {
        let most = rows.len().saturating_mul(8);
        let ids = rows.last().map_or(0, |row| row.0.id as usize);
        let bases = vec![in alloc; 0; ids.min(most).saturating_add(1)]?;
        Ok(Hints { next: 0, bases })
    }

    /// Notes the row of a key, for the other keys of its id.
    fn note(&mut self, key: &Key, at: usize) {
        let id = key.id as usize;
        if id < self.bases.len() {
            self.bases[id] = at.wrapping_sub(key.place as usize);
        }
    }

    /// Where the row of a key may be.
    fn guess(&self, key: &Key) -> usize {
        match self.bases.get(key.id as usize) {
            Some(base) => base.wrapping_add(key.place as usize),
            None => 0,
        }
    }

    /// The row of the key of a conductor, if it has one. In an instance keys rise, so that it comes
    /// next for the most part.
    fn own_row(&mut self, rows: &[(Key, Key)], key: &Key) -> Option<usize>
        requires rising { IsStrictlySortedBy by_key (keys_of rows.now) }
        ensures { MatchOption result (groups_by rows.now key.now ≡ None) (IsRow rows.now key.now) }
    {
        let at = key_row(rows, self.next, key)?;
        self.next = at + 1;
        Some(at)
    }

    /// The row of the group of a row's key, if it has one.
    fn group_row(&mut self, rows: &[(Key, Key)], at: usize, key: &Key, group: &Key) -> Option<usize>
        requires rising { IsStrictlySortedBy by_key (keys_of rows.now) }
        requires row { IsRow rows.now key.now at }
        ensures { MatchOption result (groups_by rows.now group.now ≡ None)
            (IsRow rows.now group.now) }
    {
        if are_one(*group, *key) {
            self.note(key, at);
            return Some(at);
        }
        key_row(rows, self.guess(group), group)
    }
}

/// The first places of groups in the present instance, by the rows of their keys. An entry is the
/// place after the first one; where it is not behind the start, at which the first conductor of the
/// instance stands, the group has no place in it yet.
#[derive(Drop)]
pub(crate) struct RunPlaces {
    pub instance: usize,
    pub start: usize,
    pub entries: Vec<usize>,
}

impl RunPlaces {
    /// No places, for so many rows.
    fn new(alloc: Global, rows: usize) -> Result<RunPlaces, AllocError>
        ensures { IfOk result (AreNone rows) }
    {
        let entries = vec![in alloc; 0; rows]?;
        Ok(RunPlaces {
            instance: 0,
            start: 0,
            entries,
        })
    }

    /// Goes on to the instance of the conductor at a place; a later one begins there, with no
    /// places. An earlier one is refused.
    fn enter(&mut self, instance: usize, place: usize) -> bool
        ensures enters { IsTrue result → Enters instance place self.old self.new }
        ensures entries { self.new.entries.items ≡ self.old.entries.items }
    {
        if instance == self.instance {
            return true;
        }
        if instance < self.instance {
            return false;
        }
        self.instance = instance;
        self.start = place;
        true
    }

    /// Pairs a place with the first place of the group of a row, or makes it the first.
    fn tie(&mut self, pairs: &mut Vec<(usize, usize)>, at: usize, place: usize)
        requires at { at < length self.old.entries.items }
        requires place { place < 2 ^ 64 - 1 }
        requires room { vec_len pairs.old < vec_capacity pairs.old }
        ensures marks { Marks at place self.old self.new }
        ensures pairs { pairs.new.items
            ≡ pairs.old.items ++ pair_with (noted self.old at) place }
        ensures room { HasRoom pairs.old pairs.new }
    {
        let entry = self.entries[at];
        if entry <= self.start {
            self.entries[at] = place + 1;
            return;
        }
        pairs.push_reserved((entry - 1, place));
    }
}

/// Ties the conductor of a key to its group in the present instance, if it has one. It does so
/// only if the key of the group has a row; the result says whether that is so.
fn tie_key(
    groups: &[(Key, Key)],
    hints: &mut Hints,
    first: &mut RunPlaces,
    pairs: &mut Vec<(usize, usize)>,
    key: &Key,
    place: usize,
) -> bool
    requires rising { IsStrictlySortedBy by_key (keys_of groups.now) }
    requires long { length first.old.entries.items ≡ length groups.now }
    requires place { place < 2 ^ 64 - 1 }
    requires room { vec_len pairs.old < vec_capacity pairs.old }
    ensures ties { IsTrue result → Ties groups.now place
        (option_map (λ group. (first.old.instance, group)) (groups_by groups.now key.now))
        first.old pairs.old.items first.new pairs.new.items }
    ensures room { HasRoom pairs.old pairs.new }
{
    let Some(at) = hints.own_row(groups, key) else {
        return true;
    };
    let group = &groups[at].1;
    let Some(head) = hints.group_row(groups, at, key, group) else {
        return false;
    };
    first.tie(pairs, head, place);
    true
}

/// Ties a conductor, if it is drawn and has a group. It does so only if its instance is no earlier
/// one and the key of the group has a row; the result says whether that is so.
fn tie_conductor(
    groups: &[(Key, Key)],
    hints: &mut Hints,
    first: &mut RunPlaces,
    pairs: &mut Vec<(usize, usize)>,
    conductor: &FlatRow,
    place: usize,
) -> bool
    requires rising { IsStrictlySortedBy by_key (keys_of groups.now) }
    requires long { length first.old.entries.items ≡ length groups.now }
    requires place { place < 2 ^ 64 - 1 }
    requires room { vec_len pairs.old < vec_capacity pairs.old }
    ensures ties { IsTrue result → Ties groups.now place
        (row_group (groups_by groups.now) conductor.now)
        first.old pairs.old.items first.new pairs.new.items }
    ensures room { HasRoom pairs.old pairs.new }
{
    if conductor.shape.is_none() {
        return true;
    }
    if !first.enter(conductor.instance, place) {
        return false;
    }
    tie_key(groups, hints, first, pairs, &conductor.key, place)
}

/// Pairs that stand for all that touches: at most one for each conductor. There are none where the
/// instances of what is drawn fall, or the key of a group has no row.
pub(crate) fn rising_pairs(
    alloc: Global,
    flat: &FlatRows,
    groups: &[(Key, Key)],
) -> Result<Option<Vec<(usize, usize)>>, AllocError>
    requires groups { AreInstanceGroups flat.now.conductors (groups_by groups.now) }
    requires rising { IsStrictlySortedBy by_key (keys_of groups.now) }
    ensures { IfOk result (λ found. IfSome found (λ pairs.
        Spans (AtPlaces AreTouching flat.now.conductors) (length flat.now.conductors)
        pairs.items)) }
{
    let conductors = flat.rows();
    let mut hints = Hints::new(alloc, groups)?;
    let mut first = RunPlaces::new(alloc, groups.len())?;
    let mut pairs = Vec::with_capacity(alloc, conductors.len())?;
    for place in 0..conductors.len() {
        let conductor = &conductors[place];
        if !tie_conductor(groups, &mut hints, &mut first, &mut pairs, conductor, place) {
            return Ok(None);
        }
    }
    Ok(Some(pairs))
}
