// What joins in a project, as rows.
ghost use Rattle.std.specs.Prelude.{◌≡◌, ◌<◌, All, length, map};
ghost use Rattle.std.specs.Option.{option_to_list};
ghost use Rattle.flat_rows.specs.Keyed.{keyed_from};
ghost use Rattle.flat_rows.specs.Rows.{member_of, row_of};

use crate::conductors::PortPins;
use crate::lists::Lists;
use crate::parts::PartRows;
use crate::rows::{FlatRow, RowMember};
use geda_model::{Block, Line};
use std::marker::Model;

/// What joins in a project, and its listed parts.
#[derive(Drop)]
pub struct FlatRows {
    pub(crate) parts: PartRows,
    pub(crate) lists: Lists,
}

impl Model for FlatRows {
    ghost use Rattle.flat_rows.specs.Conductors.{FlatData};
    ghost use Rattle.flat_rows.specs.steps.Lists.{AreRows, flat_in};

    ghost Value = { FlatData };

    ghost view = { λ f. record {
      parts = f.parts;
      conductors = flat_in f.parts f.lists;
    } };

    ghost invariant = { λ f. AreRows f.parts f.lists };
}

impl FlatRows {
    /// The printed refdes of each listed part. It takes no memory.
    pub fn refdeses(&self) -> &[Line]
        ensures { result.now ≡ map (λ p. p.refdes) self.now.parts }
    {
        self.parts.refdeses()
    }

    /// The listed parts alone. It takes no memory.
    pub fn into_parts(self) -> PartRows
        ensures { result ≡ self.parts }
    {
        self.parts
    }

    /// What each conductor has, in order. It takes no memory.
    pub fn rows(&self) -> &[FlatRow]
        ensures { result.now ≡ map row_of self.now.conductors }
    {
        &self.lists.rows
    }

    /// The members, each with the place of its conductor, in order of the places. It takes no
    /// memory.
    pub fn members(&self) -> &[(RowMember, usize)]
        ensures members { map (λ m. (member_of self.now.parts m.0, m.1)) result.now
            ≡ keyed_from (λ c. option_to_list c.member) 0 self.now.conductors }
        ensures parts { All (λ m. m.0.part < length self.now.parts) result.now }
    {
        &self.lists.members
    }

    /// The global names, each with the place of its conductor, in order of the places. It takes no
    /// memory.
    pub fn global_names(&self) -> &[(Block, usize)]
        ensures { result.now ≡ keyed_from (λ c. c.global_names) 0 self.now.conductors }
    {
        &self.lists.global_names
    }

    /// The drawn names, each with the place of its conductor, in order of the places. It takes no
    /// memory.
    pub fn drawn_names(&self) -> &[(Block, usize)]
        ensures { result.now ≡ keyed_from (λ c. c.drawn_names) 0 self.now.conductors }
    {
        &self.lists.drawn_names
    }

    /// The pins to which conductors lead down, each with the place of its conductor, in order of
    /// the places. It takes no memory.
    pub fn downs(&self) -> &[(PortPins, usize)]
        ensures { result.now ≡ keyed_from (λ c. option_to_list c.leads_down) 0 self.now.conductors }
    {
        &self.lists.downs
    }

    /// The pins to which conductors lead up, each with the place of its conductor, in order of the
    /// places. It takes no memory.
    pub fn ups(&self) -> &[(PortPins, usize)]
        ensures { result.now ≡ keyed_from (λ c. option_to_list c.leads_up) 0 self.now.conductors }
    {
        &self.lists.ups
    }
}
