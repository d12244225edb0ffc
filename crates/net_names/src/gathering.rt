// What is told of each class by its conductors and their names, gathered in one pass over each.
ghost use Rattle.std.specs.Prelude.{◌≡◌, ◌<◌, All, length, replicate, IfOk, option_copied};
ghost use Rattle.net_names.specs.NetClasses.{is_drawn_pin};
ghost use Rattle.net_names.specs.steps.Gathering.{empty_class, grown, is_nameless, keyed_rows};
ghost use Rattle.net_names.specs.steps.Gathering.{label_at, taken_in, with_drawn, with_global};
ghost use Rattle.net_names.specs.steps.Gathering.{with_row};

use crate::names::{LentName, lesser};
use flat_rows::FlatRow;
use geda_geom::Conductor;
use geda_model::Block;
use net_list::NetSort;
use std::alloc::{AllocError, Global};
use std::marker::Model;

/// A class while its conductors and names are gathered.
#[derive(Debug, Drop)]
pub struct GrowingClass<'a> {
    /// Whether it has no conductor.
    pub is_empty: bool,
    /// Whether it is a single drawn pin.
    pub is_single_pin: bool,
    /// Whether it has a global name.
    pub global: bool,
    /// Whether it has a pin of a no-connection directive.
    pub directive: bool,
    /// The least of its names.
    pub least: Option<LentName<'a>>,
}

impl<'a> Model for GrowingClass<'a> {
    ghost use Rattle.net_names.specs.steps.Gathering.{GrowingClassData};

    ghost Value = { GrowingClassData };

    ghost view = { λ g. record {
      is_empty = g.is_empty;
      is_single_pin = g.is_single_pin;
      global = g.global;
      directive = g.directive;
      least = g.least;
    } };
}

fn is_drawn_pin(shape: Option<&Conductor>) -> bool
    ensures { result ≡ is_drawn_pin (option_copied shape.entry) }
{
    match shape {
        None => false,
        Some(shape) => match shape {
            Conductor::Segment { .. } => false,
            Conductor::End { .. } => true,
        },
    }
}

impl<'a> GrowingClass<'a> {
    /// A class without conductors. It takes no memory.
    pub fn new() -> GrowingClass<'a>
        ensures { result ≡ empty_class }
    {
        GrowingClass {
            is_empty: true,
            is_single_pin: false,
            global: false,
            directive: false,
            least: None,
        }
    }

    /// Whether it has no name, and its net is of this sort.
    pub fn is_nameless(&self, sort: NetSort) -> bool
        ensures { result ≡ is_nameless sort self.now }
    {
        if self.least.is_some() {
            return false;
        }
        match sort {
            NetSort::Unconnected => self.is_single_pin,
            NetSort::Named | NetSort::Unnamed => !self.is_single_pin,
        }
    }

    /// Takes in a conductor.
    pub fn take_row(&mut self, row: &FlatRow)
        ensures { self.new ≡ with_row self.old row.now }
    {
        self.is_single_pin = self.is_empty && is_drawn_pin(row.shape.as_ref());
        self.is_empty = false;
        self.directive = self.directive || row.directive;
    }

    /// Takes in a drawn name.
    pub fn take_drawn(&mut self, name: &'a Block)
        ensures { self.new ≡ with_drawn self.old name.now }
    {
        self.least = Some(lesser(self.least.take(), name));
    }

    /// Takes in a global name.
    pub fn take_global(&mut self, name: &'a Block)
        ensures { self.new ≡ with_global self.old name.now }
    {
        self.global = true;
        self.take_drawn(name);
    }
}

fn empty_classes<'a>(alloc: Global, count: usize) -> Result<Vec<GrowingClass<'a>>, AllocError>
    ensures { IfOk result (λ growing. growing.items ≡ replicate count empty_class) }
{
    let mut growing = Vec::with_capacity(alloc, count)?;
    for _place in 0..count {
        growing.push(GrowingClass::new())?;
    }
    Ok(growing)
}

fn take_rows(growing: &mut Vec<GrowingClass<'_>>, rows: &[FlatRow], labels: &[usize])
    requires len { length labels.now ≡ length rows.now }
    requires labels { All (λ label. label < length growing.old.items) labels.now }
    ensures { growing.new.items
        ≡ taken_in (label_at labels.now) with_row growing.old.items (keyed_rows 0 rows.now) }
{
    for at in 0..rows.len() {
        let label = labels[at];
        growing[label].take_row(&rows[at]);
    }
}

fn take_globals<'a>(
    growing: &mut Vec<GrowingClass<'a>>,
    names: &'a [(Block, usize)],
    labels: &[usize],
)
    requires labels { All (λ label. label < length growing.old.items) labels.now }
    requires places { All (λ n. n.1 < length labels.now) names.now }
    ensures { growing.new.items
        ≡ taken_in (label_at labels.now) with_global growing.old.items names.now }
{
    for at in 0..names.len() {
        let label = labels[names[at].1];
        growing[label].take_global(&names[at].0);
    }
}

fn take_drawns<'a>(
    growing: &mut Vec<GrowingClass<'a>>,
    names: &'a [(Block, usize)],
    labels: &[usize],
)
    requires labels { All (λ label. label < length growing.old.items) labels.now }
    requires places { All (λ n. n.1 < length labels.now) names.now }
    ensures { growing.new.items
        ≡ taken_in (label_at labels.now) with_drawn growing.old.items names.now }
{
    for at in 0..names.len() {
        let label = labels[names[at].1];
        growing[label].take_drawn(&names[at].0);
    }
}

/// What is told of the class of each label, in order, by rows, global names and drawn names.
pub fn grown<'a>(
    alloc: Global,
    rows: &[FlatRow],
    global_names: &'a [(Block, usize)],
    drawn_names: &'a [(Block, usize)],
    labels: &[usize],
) -> Result<Vec<GrowingClass<'a>>, AllocError>
    requires len { length labels.now ≡ length rows.now }
    requires labels { All (λ label. label < length rows.now) labels.now }
    requires global { All (λ n. n.1 < length labels.now) global_names.now }
    requires drawn { All (λ n. n.1 < length labels.now) drawn_names.now }
    ensures { IfOk result (λ growing. growing.items
        ≡ grown rows.now global_names.now drawn_names.now labels.now) }
{
    let mut growing = empty_classes(alloc, rows.len())?;
    take_rows(&mut growing, rows, labels);
    take_globals(&mut growing, global_names, labels);
    take_drawns(&mut growing, drawn_names, labels);
    Ok(growing)
}
