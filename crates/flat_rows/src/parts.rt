// Listed parts: a refdes of each, and lists of what of the rest they have, each with the place of
// its part.
ghost use Rattle.std.specs.Prelude.{◌≡◌, ◌++◌, ◌∷◌, [], List, IfOk, OnOk, length, map};
ghost use Rattle.net_list.specs.declared.package.Package.{Package};
ghost use Rattle.flat_rows.specs.PartLists.{ArePartsOf};

use crate::lists::put;
use geda_model::{Block, Line};
use net_list::Package;
use std::alloc::{AllocError, Global};
use std::marker::Model;

/// What listed parts have.
#[derive(Debug, Drop)]
pub struct PartLists {
    /// The printed refdes of each part.
    pub refdeses: Vec<Line>,
    /// The devices, each with the place of its part, in order of the places.
    pub devices: Vec<(Block, usize)>,
    /// The values, likewise.
    pub values: Vec<(Block, usize)>,
    /// The footprints, likewise.
    pub footprints: Vec<(Block, usize)>,
}

impl PartLists {
    /// No parts, with room for this many, each with all that a part may have.
    fn with_room(alloc: Global, count: usize) -> Result<PartLists, AllocError>
        ensures { IfOk result (λ lists. ArePartsOf lists []) }
    {
        Ok(PartLists {
            refdeses: Vec::with_capacity(alloc, count)?,
            devices: Vec::with_capacity(alloc, count)?,
            values: Vec::with_capacity(alloc, count)?,
            footprints: Vec::with_capacity(alloc, count)?,
        })
    }

    /// Puts a part behind the others. On want of memory only a part of it may be there.
    fn push(&mut self, part: Package) -> Result<(), AllocError>
        ensures { OnOk result ((parts : List Package) → ArePartsOf self.old parts
            → ArePartsOf self.new (parts ++ part ∷ [])) }
    {
        let Package {
            refdes,
            device,
            value,
            footprint,
        } = part;
        let place = self.refdeses.len();
        put(&mut self.devices, device, place)?;
        put(&mut self.values, value, place)?;
        put(&mut self.footprints, footprint, place)?;
        self.refdeses.push(refdes)?;
        Ok(())
    }

    /// Takes all parts out.
    fn clear(&mut self)
        ensures { ArePartsOf self.new [] }
    {
        self.refdeses.clear();
        self.devices.clear();
        self.values.clear();
        self.footprints.clear();
    }
}

/// Listed parts. Contracts see the list of them.
#[derive(Debug, Drop)]
pub struct PartRows {
    lists: PartLists,
}

impl Model for PartRows {
    ghost use Rattle.std.specs.Prelude.{List};
    ghost use Rattle.net_list.specs.declared.package.Package.{Package};
    ghost use Rattle.flat_rows.specs.PartLists.{ArePartsOf, parts_in};

    ghost Value = { List Package };

    ghost view = { λ p. parts_in p.lists };

    ghost invariant = { λ p. ArePartsOf p.lists (parts_in p.lists) };
}

impl PartRows {
    /// No parts, with room for this many.
    pub(crate) fn with_room(alloc: Global, count: usize) -> Result<PartRows, AllocError>
        ensures { IfOk result (λ parts. parts ≡ []) }
    {
        let lists = PartLists::with_room(alloc, count)?;
        Ok(PartRows { lists })
    }

    /// How many parts there are. It takes no memory.
    pub(crate) fn len(&self) -> usize
        ensures { result ≡ length self.now }
    {
        self.lists.refdeses.len()
    }

    /// Puts a part behind the others. On want of memory all parts are gone.
    pub(crate) fn push(&mut self, part: Package) -> Result<(), AllocError>
        ensures { OnOk result (self.new ≡ self.old ++ part ∷ []) }
    {
        if let Err(error) = self.lists.push(part) {
            self.lists.clear();
            return Err(error);
        }
        Ok(())
    }

    /// The printed refdes of each part. It takes no memory.
    pub fn refdeses(&self) -> &[Line]
        ensures { result.now ≡ map (λ p. p.refdes) self.now }
    {
        &self.lists.refdeses
    }

    /// What the parts have, as lists. It takes no memory.
    pub fn into_lists(self) -> PartLists
        ensures { ArePartsOf result self }
    {
        self.lists
    }
}
