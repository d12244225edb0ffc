// Conductors that come and go, and the groups of those that touch (docs/RULES.md, "Groups").
ghost use Rattle.std.specs.Prelude.{◌≡◌, ◌+◌, true, is_some};
ghost use Rattle.std.specs.BTreeSet.{contains};
ghost use Rattle.std.specs.FinMap.{get};
ghost use Rattle.geda_geom.specs.declared.conductor.Key.{Key};
ghost use Rattle.geda_geom.specs.Keys.{by_key};

use crate::geometry::conductor;
use case_tables::{CaseFault, number_of};
use geda_geom::{Conductor, Key};
use net_flood::Groups;
use std::alloc::Global;
use std::collections::BTreeSet;
use touch_index::Sealed;

/// Groups, with the keys of their conductors.
#[derive(Drop)]
struct Drawn {
    groups: Groups,
    keys: BTreeSet<Key>,
    ghost are_fresh: { groups.fresh ≡ true },
    ghost same: { (k : Key) → is_some (get groups.conductors k) ≡ contains by_key keys k },
}

fn key(id: u32) -> Key {
    Key { id, place: 0 }
}

impl Drawn {
    fn new(alloc: Global) -> Drawn {
        Drawn {
            groups: Groups::new(alloc),
            keys: BTreeSet::new(alloc),
        }
    }

    fn with(self, key: Key, conductor: Conductor) -> Result<Drawn, CaseFault> {
        let Drawn {
            mut groups,
            mut keys,
        } = self;
        if !keys.insert(key)? {
            return Err(CaseFault::BadCase);
        }
        groups.insert(key, Sealed::new(conductor))?;
        Ok(Drawn { groups, keys })
    }

    fn without(self, key: Key) -> Result<Drawn, CaseFault> {
        let Drawn {
            mut groups,
            mut keys,
        } = self;
        if !keys.remove(&key) {
            return Err(CaseFault::BadCase);
        }
        groups.remove(key)?;
        Ok(Drawn { groups, keys })
    }

    fn anew(self) -> Result<Drawn, CaseFault> {
        let Drawn { mut groups, keys } = self;
        groups.rebuild()?;
        Ok(Drawn { groups, keys })
    }

    /// The group of a key by its members, where the key is the least of them.
    fn put_group(&self, alloc: Global, key: Key, out: &mut String) -> Result<(), CaseFault> {
        if !self.keys.contains(&key) || self.groups.group_of(key) != key {
            return Ok(());
        }
        if !out.is_empty() {
            out.push_str(", ")?;
        }
        let mut between = "";
        for member in &self.groups.members(alloc, key)? {
            write!(out, "{between}{}", member.id)?;
            between = " ";
        }
        Ok(())
    }

    fn text(&self, alloc: Global, count: u32) -> Result<String, CaseFault> {
        let mut out = String::new(alloc);
        for id in 0..count {
            self.put_group(alloc, key(id), &mut out)?;
        }
        Ok(out)
    }
}

/// The groups after some steps: a conductor comes, whose id is how many came before, `- ID` removes
/// one, and `rebuild` groups all anew. Each group has its ids, and `, ` stands between two.
pub fn groups(alloc: Global, cells: &[&str]) -> Result<String, CaseFault> {
    let mut drawn = Drawn::new(alloc);
    let mut count: u32 = 0;
    for cell in cells {
        if *cell == "rebuild" {
            drawn = drawn.anew()?;
        } else if let Some(id) = cell.strip_prefix("- ") {
            drawn = drawn.without(key(number_of(id)?))?;
        } else {
            drawn = drawn.with(key(count), conductor(cell)?)?;
            count = count.saturating_add(1);
        }
    }
    drawn.text(alloc, count)
}
