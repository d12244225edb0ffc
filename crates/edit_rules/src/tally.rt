// The numbers of a project that limits are about, and the objects of each sheet.
ghost use Rattle.std.specs.Prelude.{◌≡◌, ◌≤◌, ◌<◌, ◌^◌, All, ℕ, nat_lt, OnOk};
ghost use Rattle.std.specs.FinMap as map;
ghost use Rattle.project_model.specs.Changes.{AreDistinct, count_names, put};
ghost use Rattle.edit_rules.specs.Fitting.{IsPlacedIn};
ghost use Rattle.edit_rules.specs.Weights.{weigh};
ghost use Rattle.edit_rules.specs.HomeRows.{home_count};
ghost use Rattle.edit_rules.specs.Tallies.{IsTallied, have, no_tally, weights_of};

use crate::homes::Homes;
use crate::rehoming::{open_all, rehome_all};
use crate::weighing::{Which, put_in, taken_out};
use geda_model::Name;
use project_model::{Project, Thing, Value};
use std::alloc::{AllocError, Global};
use std::marker::Model;

/// The numbers of a project. Contracts see them, and for how many more sheets there is room.
#[derive(Drop)]
pub struct Tally {
    objects: u64,
    sheets: u64,
    symbols: u64,
    text: u64,
    homes: Homes,
}

impl Model for Tally {
    ghost use Rattle.std.specs.FinMap as map;
    ghost use Rattle.std.specs.Coded.{codes};
    ghost use Rattle.edit_rules.specs.Tallies.{TallyView};

    ghost Value = { TallyView };

    ghost coded = { Prim.hlevel (codes, map.code) };

    ghost view = { λ t. record {
      rows = record {
        objects = t.objects;
        sheets = t.sheets;
        symbols = t.symbols;
        text = t.text;
        homes = t.homes.rows;
      };
      spare = t.homes.spare;
    } };
}

impl Tally {
    /// The numbers of the empty project, and no room. It takes no memory.
    pub fn new(alloc: Global) -> Tally
        ensures { result.rows ≡ no_tally }
    {
        Tally {
            objects: 0,
            sheets: 0,
            symbols: 0,
            text: 0,
            homes: Homes::new(alloc),
        }
    }

    fn have(&self, which: Which) -> u64
        ensures { result ≡ have self.now.rows which }
    {
        match which {
            Which::Objects => self.objects,
            Which::Sheets => self.sheets,
            Which::Symbols => self.symbols,
            Which::Text => self.text,
        }
    }

    /// The number of objects of a sheet. It takes no memory.
    pub fn home_count(&self, name: &Name) -> u64
        ensures { result ≡ home_count (map.get self.now.rows.homes name.now) }
    {
        self.homes.count(name)
    }

    /// Makes room for as many more sheets. The numbers stay, also where memory runs out.
    pub fn reserve(&mut self, alloc: Global, count: usize) -> Result<(), AllocError>
        ensures rows { self.new.rows ≡ self.old.rows }
        ensures ok { OnOk result (count ≤ self.new.spare) }
    {
        self.homes.reserve(alloc, count)
    }

    /// The number of these after a change, which is exact below 2^62. It takes no memory.
    pub fn after(&self, which: Which, project: &Project, items: &[(Thing, Option<Value>)]) -> u64
        requires tallied { IsTallied project.now.contents self.now.rows }
        requires distinct { AreDistinct items.now }
        ensures over { (limit : ℕ) → limit < 2 ^ 62 → nat_lt limit result
            ≡ nat_lt limit (weigh (weights_of which) (put project.now.contents items.now)) }
        ensures exact { weigh (weights_of which) (put project.now.contents items.now) < 2 ^ 62 →
            result ≡ weigh (weights_of which) (put project.now.contents items.now) }
    {
        let before = self.have(which);
        let added = put_in(which, items);
        let gone = taken_out(which, project, items);
        before.saturating_add(added).saturating_sub(gone)
    }

    /// Notes a change that keeps to the limits and puts each object into a sheet that stands. It
    /// can't fail and takes no memory.
    pub fn note(&mut self, project: &Project, items: &[(Thing, Option<Value>)])
        requires room { count_names items.now ≤ self.old.spare }
        requires tallied { IsTallied project.now.contents self.old.rows }
        requires distinct { AreDistinct items.now }
        requires placed { All (IsPlacedIn (put project.now.contents items.now)) items.now }
        requires low { (w : Which) →
            weigh (weights_of w) (put project.now.contents items.now) ≤ 67108864 }
        ensures tallied { IsTallied (put project.now.contents items.now) self.new.rows }
    {
        let objects = self.after(Which::Objects, project, items);
        let sheets = self.after(Which::Sheets, project, items);
        let symbols = self.after(Which::Symbols, project, items);
        let text = self.after(Which::Text, project, items);
        self.objects = objects;
        self.sheets = sheets;
        self.symbols = symbols;
        self.text = text;
        open_all(&mut self.homes, items);
        rehome_all(&mut self.homes, project, items);
    }
}
