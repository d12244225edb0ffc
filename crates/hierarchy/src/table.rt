// The sheets of a project, with the components that have sheets below them.
use geda_model::{Block, Line, Name};
use std::marker::Model;

/// A source value of a component.
#[derive(Drop)]
pub struct Source {
    /// The value.
    pub value: Block,
    /// The place of the sheet that it names, if it names one.
    pub sheet: Option<usize>,
}

/// A hierarchical component: one with sheets below.
#[derive(Drop)]
pub struct HierarchicalComponent {
    /// Its id.
    pub id: u32,
    /// Its refdes, if it has one.
    pub refdes: Option<Line>,
    /// Its distinct source values, in order.
    pub sources: Vec<Source>,
}

impl Model for HierarchicalComponent {
    ghost use Rattle.hierarchy.specs.SheetTable.{HierarchicalData};

    ghost Value = { HierarchicalData };

    ghost view = { λ c. record { id = c.id; refdes = c.refdes; sources = c.sources.items } };
}

/// A sheet: its hierarchical components by id, and what its objects weigh.
#[derive(Drop)]
pub struct TableSheet {
    /// Its name.
    pub name: Name,
    /// Its hierarchical components by id.
    pub components: Vec<HierarchicalComponent>,
    /// The weight.
    pub weight: u128,
}

impl Model for TableSheet {
    ghost use Rattle.hierarchy.specs.SheetTable.{TableSheetData};

    ghost Value = { TableSheetData };

    ghost view = { λ s. record { name = s.name; components = s.components.items; weight = s.weight } };
}
