// Keys in groups, each under one of its keys, its head.
ghost use Rattle.std.specs.Prelude.{◌≡◌, ◌≢◌, ◌↔◌, IsSome, IsTrue, IfOk, OnOk, OnErr, None, Some, Contains};
ghost use Rattle.std.specs.List.Sorted.{IsStrictlySortedBy};
ghost use Rattle.geda_geom.specs.declared.conductor.Key.{Key};
ghost use Rattle.geda_geom.specs.Keys.{by_key};
ghost use Rattle.net_flood.specs.steps.Partition.{AddsAll, AddsMember, Has, IsMember, IsPartition, IsSizeOf, Joins, KeepsKeys, Lacks, IsLeastOf, LosesHead, MovesTo, Puts, PutsLeft, PutsSet, SetsHead, TakesOut, Together, heads_of, members_of};
ghost use Rattle.net_flood.specs.steps.Search.{IsFound, IsUnder};
ghost use Rattle.net_flood.specs.steps.Found.{PutsFound};

use crate::search::is_that;
use geda_geom::Key;
use std::alloc::{AllocError, Global};
use std::collections::{BTreeSet, HashMap};

/// Keys with the heads of their groups, and heads with the members.
#[derive(Drop)]
pub(crate) struct Partition {
    pub heads: HashMap<Key, Key>,
    pub rows: HashMap<Key, BTreeSet<Key>>,
}

/// Puts a key under a head, whose row is made if it is not there.
fn put_in_row(
    alloc: Global,
    rows: &mut HashMap<Key, BTreeSet<Key>>,
    head: Key,
    key: Key,
) -> Result<(), AllocError>
    ensures { OnOk result
        (AddsMember head key (IsMember rows.old.entries) (IsMember rows.new.entries)) }
{
    if let Some(row) = rows.get_mut(&head) {
        row.insert(key)?;
        return Ok(());
    }
    let mut row = BTreeSet::new(alloc);
    row.insert(key)?;
    rows.insert(head, row)?;
    Ok(())
}

fn row_len(rows: &HashMap<Key, BTreeSet<Key>>, head: Key) -> usize {
    match rows.get(&head) {
        Some(row) => row.len(),
        None => 0,
    }
}

/// The keys of a set in order.
pub(crate) fn listed(alloc: Global, row: &BTreeSet<Key>) -> Result<Vec<Key>, AllocError>
    ensures same { IfOk result (λ keys. keys.items ≡ row.now.keys) }
    ensures rising { IfOk result (λ keys. IsStrictlySortedBy by_key keys.items) }
{
    row.iter().copied().collect(alloc)
}

impl Partition {
    /// Keys in no group. It takes no memory.
    pub fn new(alloc: Global) -> Partition
        ensures empty { (k : Key) → heads_of result k ≡ None }
        ensures partition { IsPartition (heads_of result) (members_of result) }
    {
        Partition {
            heads: HashMap::new(alloc),
            rows: HashMap::new(alloc),
        }
    }

    /// Puts a key into the group under a head, which is made if it is not there.
    pub fn put(&mut self, alloc: Global, head: Key, key: Key) -> Result<(), AllocError>
        requires partition { IsPartition (heads_of self.old) (members_of self.old) }
        requires there { IsSome (heads_of self.old key) }
        requires free { (h : Key) → members_of self.old h key → h ≡ head }
        requires own { head ≢ key → members_of self.old head head }
        ensures keys { KeepsKeys self.old self.new }
        ensures puts { OnOk result (Puts head key self.old self.new) }
    {
        self.heads.insert(key, head)?;
        put_in_row(alloc, &mut self.rows, head, key)
    }

    /// Puts keys that are in no other group into the group under a head, which is there.
    pub fn put_all(&mut self, alloc: Global, head: Key, keys: &[Key]) -> Result<(), AllocError>
        requires partition { IsPartition (heads_of self.old) (members_of self.old) }
        requires there { (q : Key) → Contains keys.now q → IsSome (heads_of self.old q) }
        requires free { (h q : Key)
            → Contains keys.now q → members_of self.old h q → h ≡ head }
        requires own { members_of self.old head head }
        ensures keys { KeepsKeys self.old self.new }
        ensures partition { OnOk result (IsPartition (heads_of self.new) (members_of self.new)) }
        ensures adds { OnOk result
            (AddsAll head keys.now (members_of self.old) (members_of self.new)) }
    {
        for key in keys {
            self.put(alloc, head, *key)?;
        }
        Ok(())
    }

    /// Puts all members of the group under one head under another one.
    fn move_row(&mut self, alloc: Global, from: Key, to: Key) -> Result<(), AllocError>
        requires partition { IsPartition (heads_of self.old) (members_of self.old) }
        requires apart { to ≢ from }
        requires first { members_of self.old from from }
        requires second { members_of self.old to to }
        ensures keys { KeepsKeys self.old self.new }
        ensures partition { OnOk result (IsPartition (heads_of self.new) (members_of self.new)) }
        ensures moves { OnOk result (MovesTo from to (members_of self.old) (members_of self.new)) }
    {
        let row = self.rows.remove(&from).unwrap();
        let keys = listed(alloc, &row)?;
        self.put_all(alloc, to, &keys)
    }

    /// Joins the groups of two keys.
    pub fn join(&mut self, alloc: Global, a: Key, b: Key) -> Result<(), AllocError>
        requires partition { IsPartition (heads_of self.old) (members_of self.old) }
        requires first { Together (members_of self.old) a a }
        requires second { Together (members_of self.old) b b }
        ensures keys { KeepsKeys self.old self.new }
        ensures joins { OnOk result (Joins a b self.old self.new) }
    {
        let first = self.head(a).unwrap();
        let second = self.head(b).unwrap();
        if first == second {
            return Ok(());
        }
        // The smaller group moves, so that no key moves more than some 17 times of 100,000.
        if row_len(&self.rows, first) < row_len(&self.rows, second) {
            return self.move_row(alloc, first, second);
        }
        self.move_row(alloc, second, first)
    }

    /// Puts the keys of a set, of which one is given, into one group. Under their head it is put as
    /// it is, where that is one of them.
    fn put_set(
        &mut self,
        alloc: Global,
        head: Key,
        any: Key,
        keys: BTreeSet<Key>,
    ) -> Result<(), AllocError>
        requires partition { IsPartition (heads_of self.old) (members_of self.old) }
        requires alike { (q : Key) → Has keys q → heads_of self.old q ≡ Some head }
        requires free { (h q : Key) → members_of self.old h q → Lacks keys q }
        requires any { Has keys any }
        ensures keys { KeepsKeys self.old self.new }
        ensures partition { OnOk result (IsPartition (heads_of self.new) (members_of self.new)) }
        ensures puts { OnOk result (PutsSet keys (members_of self.old) (members_of self.new)) }
    {
        if keys.contains(&head) {
            self.rows.insert(head, keys)?;
            return Ok(());
        }
        let list = listed(alloc, &keys)?;
        self.put(alloc, any, any)?;
        self.put_all(alloc, any, &list)
    }

    /// Puts the keys of a set, which are in no group and have one head, into one group, if there
    /// are any. It takes time by the size of the set only where the head is none of them.
    pub fn put_left(
        &mut self,
        alloc: Global,
        head: Key,
        left: BTreeSet<Key>,
    ) -> Result<(), AllocError>
        requires partition { IsPartition (heads_of self.old) (members_of self.old) }
        requires alike { (q : Key) → Has left q → heads_of self.old q ≡ Some head }
        requires free { (h q : Key) → members_of self.old h q → Lacks left q }
        ensures keys { KeepsKeys self.old self.new }
        ensures partition { OnOk result (IsPartition (heads_of self.new) (members_of self.new)) }
        ensures puts { OnOk result (PutsLeft left (members_of self.old) (members_of self.new)) }
    {
        // The last key, as conductors leave by rising key.
        let Some(any) = left.last().copied() else {
            return Ok(());
        };
        self.put_set(alloc, head, any, left)
    }

    /// Moves what was found from the keys that are left into groups under its heads, all but what
    /// stands under the head that may be named.
    pub fn put_found(
        &mut self,
        alloc: Global,
        left: &mut BTreeSet<Key>,
        found: &HashMap<Key, Key>,
        start: Option<Key>,
    ) -> Result<(), AllocError>
        requires partition { IsPartition (heads_of self.old) (members_of self.old) }
        requires own { (h q : Key) → IsUnder found.now.entries h q
            → IsUnder found.now.entries h h }
        requires there { (q : Key) → IsFound found.now.entries q → IsSome (heads_of self.old q) }
        requires free { (h q : Key) → IsFound found.now.entries q → ¬ (members_of self.old h q) }
        ensures keys { KeepsKeys self.old self.new }
        ensures puts { OnOk result
            (PutsFound start found.now.entries left.old left.new self.old self.new) }
    {
        for (key, head) in found {
            if !is_that(start, *head) {
                left.remove(key);
                self.put(alloc, *head, *head)?;
                self.put(alloc, *head, *key)?;
            }
        }
        Ok(())
    }

    /// Adds a key that has no head and is in no group.
    pub fn know(&mut self, key: Key) -> Result<(), AllocError>
        requires is_new { heads_of self.old key ≡ None }
        ensures heads { OnOk result (SetsHead key key self.old self.new) }
        ensures rows { self.new.rows.entries ≡ self.old.rows.entries }
        ensures err { OnErr result (self.new.heads.entries ≡ self.old.heads.entries) }
    {
        self.heads.insert(key, key)?;
        Ok(())
    }

    /// Takes the head of a key away. It takes no memory.
    pub fn forget(&mut self, key: Key)
        ensures heads { LosesHead key self.old self.new }
        ensures rows { self.new.rows.entries ≡ self.old.rows.entries }
    {
        self.heads.remove(&key);
    }

    /// Takes all keys out of their groups. It takes no memory.
    pub fn clear(&mut self, alloc: Global)
        ensures partition { IsPartition (heads_of self.new) (members_of self.new) }
        ensures empty { (h q : Key) → members_of self.new h q → ⊥ }
        ensures heads { self.new.heads.entries ≡ self.old.heads.entries }
    {
        self.rows = HashMap::new(alloc);
    }

    /// Takes the group of a key out. It takes no memory.
    pub fn take(&mut self, key: Key) -> BTreeSet<Key>
        requires partition { IsPartition (heads_of self.old) (members_of self.old) }
        requires there { Together (members_of self.old) key key }
        ensures heads { self.new.heads.entries ≡ self.old.heads.entries }
        ensures takes { TakesOut key result self.old self.new }
    {
        let head = self.head(key).unwrap();
        self.rows.remove(&head).unwrap()
    }

    fn row(&self, key: Key) -> &BTreeSet<Key>
        requires partition { IsPartition (heads_of self.now) (members_of self.now) }
        requires there { Together (members_of self.now) key key }
        ensures { (q : Key) → Has result.now q ↔ Together (members_of self.now) key q }
    {
        let head = self.head(key).unwrap();
        self.rows.get(&head).unwrap()
    }

    /// The least key of the group of a key. It takes no memory.
    pub fn least(&self, key: Key) -> Key
        requires partition { IsPartition (heads_of self.now) (members_of self.now) }
        requires there { Together (members_of self.now) key key }
        ensures least { IsLeastOf (Together (members_of self.now) key) result }
    {
        *self.row(key).first().unwrap()
    }

    /// How many keys the group of a key has. It takes no memory.
    pub fn size(&self, key: Key) -> usize
        requires partition { IsPartition (heads_of self.now) (members_of self.now) }
        requires there { Together (members_of self.now) key key }
        ensures size { IsSizeOf (Together (members_of self.now) key) result }
    {
        self.row(key).len()
    }

    /// The keys of the group of a key; by id, then place.
    pub fn members(&self, alloc: Global, key: Key) -> Result<Vec<Key>, AllocError>
        requires partition { IsPartition (heads_of self.now) (members_of self.now) }
        requires there { Together (members_of self.now) key key }
        ensures rising { IfOk result (λ keys. IsStrictlySortedBy by_key keys.items) }
        ensures same { IfOk result (λ keys. (q : Key)
            → Contains keys.items q ↔ Together (members_of self.now) key q) }
    {
        listed(alloc, self.row(key))
    }

    /// All keys that have heads.
    pub fn keys(&self, alloc: Global) -> Result<BTreeSet<Key>, AllocError>
        ensures same { IfOk result (λ keys. (q : Key) → Has keys q ↔ IsSome (heads_of self.now q)) }
        ensures rising { IfOk result (λ keys. IsStrictlySortedBy by_key keys.keys) }
    {
        let keys = self.heads.keys().copied().collect(alloc)?;
        Ok(keys)
    }

    /// The head of the group of a key. It takes no memory.
    pub fn head(&self, key: Key) -> Option<Key>
        ensures { result ≡ heads_of self.now key }
    {
        self.heads.get(&key).copied()
    }
}
