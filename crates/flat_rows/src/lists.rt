// Rows of conductors, and lists of what few of them have, each with the place of its conductor.
ghost use Rattle.std.specs.Prelude.{◌≡◌, ◌++◌, ◌∷◌, [], List, ℕ, IfOk, OnOk, length};
ghost use Rattle.std.specs.Option.{option_to_list};
ghost use Rattle.flat_rows.specs.Keyed.{keyed_at};
ghost use Rattle.flat_rows.specs.Rows.{named_conductor, plain_conductor};
ghost use Rattle.flat_rows.specs.declared.rows.NewConductor.{NewConductor};
ghost use Rattle.flat_rows.specs.steps.Lists.{AreListsOf, keys_behind};

use crate::conductors::PortPins;
use crate::rows::{FlatRow, NewConductor, RowMember};
use geda_model::{Block, Items};
use std::alloc::{AllocError, Global};

/// Rows, and what few of them have.
#[derive(Debug, Drop)]
pub struct Lists {
    /// What each conductor has.
    pub rows: Vec<FlatRow>,
    /// The global names.
    pub global_names: Vec<(Block, usize)>,
    /// The drawn names.
    pub drawn_names: Vec<(Block, usize)>,
    /// The pins of listed parts.
    pub members: Vec<(RowMember, usize)>,
    /// The pins to which conductors lead down.
    pub downs: Vec<(PortPins, usize)>,
    /// The pins to which conductors lead up.
    pub ups: Vec<(PortPins, usize)>,
}

fn put_names(
    names: &mut Vec<(Block, usize)>,
    more: Items<Block>,
    place: usize,
) -> Result<(), AllocError>
    ensures { OnOk result (names.new.items ≡ names.old.items ++ keyed_at place more) }
{
    for name in more.into_vec() {
        names.push((name, place))?;
    }
    Ok(())
}

fn put_copies(
    names: &mut Vec<(Block, usize)>,
    more: &[Block],
    place: usize,
) -> Result<(), AllocError>
    ensures { OnOk result (names.new.items ≡ names.old.items ++ keyed_at place more.now) }
{
    for name in more {
        names.push((name.clone()?, place))?;
    }
    Ok(())
}

/// Puts a value, if there is one, behind others, with its place.
pub fn put<T: Drop>(
    list: &mut Vec<(T, usize)>,
    value: Option<T>,
    place: usize,
) -> Result<(), AllocError>
    ensures { OnOk result
        (list.new.items ≡ list.old.items ++ keyed_at place (option_to_list value)) }
{
    if let Some(value) = value {
        list.push((value, place))?;
    }
    Ok(())
}

/// Puts keys behind others, of which the places count from this one. No list has so many rows that
/// a place has no room.
fn put_behind<T: Drop>(
    list: &mut Vec<(T, usize)>,
    more: Vec<(T, usize)>,
    first: usize,
) -> Result<(), AllocError>
    ensures { OnOk result (list.new.items ≡ list.old.items ++ keys_behind first more.items) }
{
    for (value, place) in more {
        let place = first.checked_add(place).ok_or(AllocError)?;
        list.push((value, place))?;
    }
    Ok(())
}

impl Lists {
    /// No conductors, with room for this many, each with a member.
    pub fn with_room(alloc: Global, count: usize) -> Result<Lists, AllocError>
        ensures { IfOk result (λ lists. AreListsOf lists []) }
    {
        Ok(Lists {
            rows: Vec::with_capacity(alloc, count)?,
            global_names: Vec::new(alloc),
            drawn_names: Vec::new(alloc),
            members: Vec::with_capacity(alloc, count)?,
            downs: Vec::new(alloc),
            ups: Vec::new(alloc),
        })
    }

    /// Puts a conductor behind the others. On want of memory only a part of it may be there.
    pub fn push(&mut self, conductor: NewConductor) -> Result<(), AllocError>
        ensures { OnOk result ((cs : List NewConductor) → AreListsOf self.old cs
            → AreListsOf self.new (cs ++ conductor ∷ [])) }
    {
        let NewConductor {
            instance,
            key,
            shape,
            global_names,
            drawn_names,
            member,
            leads_down,
            leads_up,
            directive,
        } = conductor;
        let place = self.rows.len();
        put_names(&mut self.global_names, global_names, place)?;
        put_names(&mut self.drawn_names, drawn_names, place)?;
        put(&mut self.members, member, place)?;
        put(&mut self.downs, leads_down, place)?;
        put(&mut self.ups, leads_up, place)?;
        self.rows.push(FlatRow {
            instance,
            key,
            shape,
            directive,
        })?;
        Ok(())
    }

    /// Puts a conductor without names and ports behind the others. On want of memory only a part of
    /// it may be there.
    pub fn push_plain(&mut self, row: FlatRow, member: Option<RowMember>) -> Result<(), AllocError>
        ensures { OnOk result ((cs : List NewConductor) → AreListsOf self.old cs
            → AreListsOf self.new (cs ++ plain_conductor row member ∷ [])) }
    {
        let place = self.rows.len();
        put(&mut self.members, member, place)?;
        self.rows.push(row)?;
        Ok(())
    }

    /// Puts a conductor with global names alone behind the others. On want of memory only a part of
    /// it may be there.
    pub fn push_named(
        &mut self,
        row: FlatRow,
        member: Option<RowMember>,
        names: &[Block],
    ) -> Result<(), AllocError>
        ensures { OnOk result ((cs : List NewConductor) → AreListsOf self.old cs
            → AreListsOf self.new (cs ++ named_conductor row member names.now ∷ [])) }
    {
        let place = self.rows.len();
        put_copies(&mut self.global_names, names, place)?;
        put(&mut self.members, member, place)?;
        self.rows.push(row)?;
        Ok(())
    }

    /// Puts the conductors of other lists behind these. On want of memory only some may be there.
    pub fn append(&mut self, more: Lists) -> Result<(), AllocError>
        ensures { OnOk result ((cs ds : List NewConductor) → AreListsOf self.old cs
            → AreListsOf more ds → AreListsOf self.new (cs ++ ds)) }
    {
        let Lists {
            rows,
            global_names,
            drawn_names,
            members,
            downs,
            ups,
        } = more;
        let first = self.rows.len();
        put_behind(&mut self.global_names, global_names, first)?;
        put_behind(&mut self.drawn_names, drawn_names, first)?;
        put_behind(&mut self.members, members, first)?;
        put_behind(&mut self.downs, downs, first)?;
        put_behind(&mut self.ups, ups, first)?;
        let mut rows = rows;
        self.rows.append(&mut rows)?;
        Ok(())
    }

    /// Takes all conductors out.
    pub fn clear(&mut self)
        ensures { AreListsOf self.new [] }
    {
        self.rows.clear();
        self.global_names.clear();
        self.drawn_names.clear();
        self.members.clear();
        self.downs.clear();
        self.ups.clear();
    }
}
