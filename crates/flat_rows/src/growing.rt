// What joins in a project, while its objects are taken in.
ghost use Rattle.std.specs.Prelude.{◌≡◌, ◌++◌, ◌∷◌, [], IfOk, OnOk, length};
ghost use Rattle.flat_rows.specs.Rows.{IsPartOf, conductor_of, named_conductor, plain_conductor};

use crate::flat::FlatRows;
use crate::lists::Lists;
use crate::parts::PartRows;
use crate::rows::{FlatRow, NewConductor, RowMember};
use geda_model::Block;
use net_list::Package;
use std::alloc::{AllocError, Global};
use std::marker::Model;

/// What joins in a project and its listed parts, as far as its objects are taken in.
#[derive(Drop)]
pub struct GrowingRows {
    parts: PartRows,
    drawn: Lists,
    hidden: Lists,
}

impl Model for GrowingRows {
    ghost use Rattle.flat_rows.specs.Conductors.{GrowingData};
    ghost use Rattle.flat_rows.specs.steps.Lists.{AreRows, flat_in};

    ghost Value = { GrowingData };

    ghost view = { λ g. record {
      parts = g.parts;
      drawn = flat_in g.parts g.drawn;
      hidden = flat_in g.parts g.hidden;
    } };

    ghost invariant = { λ g. AreRows g.parts g.drawn × AreRows g.parts g.hidden };
}

impl GrowingRows {
    /// Nothing, with room for a listed part, three drawn conductors and a hidden pin of each of
    /// this many objects.
    pub fn with_room(alloc: Global, objects: usize) -> Result<GrowingRows, AllocError>
        ensures parts { IfOk result (λ g. g.parts ≡ []) }
        ensures drawn { IfOk result (λ g. g.drawn ≡ []) }
        ensures hidden { IfOk result (λ g. g.hidden ≡ []) }
    {
        Ok(GrowingRows {
            parts: PartRows::with_room(alloc, objects)?,
            drawn: Lists::with_room(alloc, objects.saturating_mul(3))?,
            hidden: Lists::with_room(alloc, objects)?,
        })
    }

    /// Puts a listed part behind the others, and gives its place. On want of memory all is gone.
    pub fn add_part(&mut self, part: Package) -> Result<usize, AllocError>
        ensures place { IfOk result (λ place. place ≡ length self.old.parts) }
        ensures parts { OnOk result (self.new.parts ≡ self.old.parts ++ part ∷ []) }
        ensures drawn { OnOk result (self.new.drawn ≡ self.old.drawn) }
        ensures hidden { OnOk result (self.new.hidden ≡ self.old.hidden) }
    {
        let place = self.parts.len();
        if let Err(error) = self.parts.push(part) {
            self.drawn.clear();
            self.hidden.clear();
            return Err(error);
        }
        Ok(place)
    }

    /// Puts a drawn conductor behind the others. On want of memory all drawn ones are gone.
    pub fn push_drawn(&mut self, conductor: NewConductor) -> Result<(), AllocError>
        requires { IsPartOf (length self.old.parts) conductor.member }
        ensures parts { OnOk result (self.new.parts ≡ self.old.parts) }
        ensures drawn { OnOk result
            (self.new.drawn ≡ self.old.drawn ++ conductor_of self.old.parts conductor ∷ []) }
        ensures hidden { OnOk result (self.new.hidden ≡ self.old.hidden) }
    {
        if let Err(error) = self.drawn.push(conductor) {
            self.drawn.clear();
            return Err(error);
        }
        Ok(())
    }

    /// Puts a drawn conductor without names and ports behind the others. On want of memory all
    /// drawn ones are gone.
    pub fn push_plain(&mut self, row: FlatRow, member: Option<RowMember>) -> Result<(), AllocError>
        requires { IsPartOf (length self.old.parts) member }
        ensures parts { OnOk result (self.new.parts ≡ self.old.parts) }
        ensures drawn { OnOk result (self.new.drawn
            ≡ self.old.drawn ++ conductor_of self.old.parts (plain_conductor row member) ∷ []) }
        ensures hidden { OnOk result (self.new.hidden ≡ self.old.hidden) }
    {
        if let Err(error) = self.drawn.push_plain(row, member) {
            self.drawn.clear();
            return Err(error);
        }
        Ok(())
    }

    /// Puts a drawn conductor with global names alone behind the others. On want of memory all
    /// drawn ones are gone.
    pub fn push_named(
        &mut self,
        row: FlatRow,
        member: Option<RowMember>,
        names: &[Block],
    ) -> Result<(), AllocError>
        requires { IsPartOf (length self.old.parts) member }
        ensures parts { OnOk result (self.new.parts ≡ self.old.parts) }
        ensures drawn { OnOk result (self.new.drawn ≡ self.old.drawn
            ++ conductor_of self.old.parts (named_conductor row member names.now) ∷ []) }
        ensures hidden { OnOk result (self.new.hidden ≡ self.old.hidden) }
    {
        if let Err(error) = self.drawn.push_named(row, member, names) {
            self.drawn.clear();
            return Err(error);
        }
        Ok(())
    }

    /// Puts a hidden pin behind the others. On want of memory all hidden ones are gone.
    pub fn push_hidden(&mut self, conductor: NewConductor) -> Result<(), AllocError>
        requires { IsPartOf (length self.old.parts) conductor.member }
        ensures parts { OnOk result (self.new.parts ≡ self.old.parts) }
        ensures drawn { OnOk result (self.new.drawn ≡ self.old.drawn) }
        ensures hidden { OnOk result
            (self.new.hidden ≡ self.old.hidden ++ conductor_of self.old.parts conductor ∷ []) }
    {
        if let Err(error) = self.hidden.push(conductor) {
            self.hidden.clear();
            return Err(error);
        }
        Ok(())
    }

    /// Puts a hidden pin with global names alone behind the others. On want of memory all hidden
    /// ones are gone.
    pub fn push_hidden_named(
        &mut self,
        row: FlatRow,
        member: Option<RowMember>,
        names: &[Block],
    ) -> Result<(), AllocError>
        requires { IsPartOf (length self.old.parts) member }
        ensures parts { OnOk result (self.new.parts ≡ self.old.parts) }
        ensures drawn { OnOk result (self.new.drawn ≡ self.old.drawn) }
        ensures hidden { OnOk result (self.new.hidden ≡ self.old.hidden
            ++ conductor_of self.old.parts (named_conductor row member names.now) ∷ []) }
    {
        if let Err(error) = self.hidden.push_named(row, member, names) {
            self.hidden.clear();
            return Err(error);
        }
        Ok(())
    }

    /// All of it: what is drawn, then the hidden pins.
    pub fn in_order(self) -> Result<FlatRows, AllocError>
        ensures parts { IfOk result (λ flat. flat.parts ≡ self.parts) }
        ensures conductors { IfOk result (λ flat. flat.conductors ≡ self.drawn ++ self.hidden) }
    {
        let GrowingRows {
            parts,
            drawn,
            hidden,
        } = self;
        let mut lists = drawn;
        lists.append(hidden)?;
        Ok(FlatRows { parts, lists })
    }
}
