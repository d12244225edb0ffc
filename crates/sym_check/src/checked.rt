// What the check asks of a symbol and of its pins.
use geda_model::{Block, Items};

/// A net pin of a symbol.
#[derive(Debug, Drop)]
pub struct CheckedPin {
    /// Its place among the net pins, counted from 0.
    pub place: u32,
    /// Its first `pinnumber`.
    pub number: Option<Block>,
    /// Its first `pinseq`.
    pub seq: Option<Block>,
    /// Whether it has a `pinlabel`.
    pub has_label: bool,
    /// Whether its first `pintype` is one of the ten.
    pub has_kind: bool,
    /// Whether a coordinate of it is no multiple of 100.
    pub is_off_grid: bool,
}

/// A symbol.
#[derive(Debug, Drop)]
pub struct CheckedSymbol {
    /// Whether it has a free `device`.
    pub has_device: bool,
    /// Whether it has a free `refdes`.
    pub has_refdes: bool,
    /// Whether its first free `graphical` has the value 1.
    pub is_graphical: bool,
    /// Its first free `numslots`.
    pub numslots: Option<Block>,
    /// Its free `slotdef`, in file order.
    pub slotdefs: Items<Block>,
    /// Its free `net`, in file order.
    pub nets: Items<Block>,
    /// Its net pins, by place.
    pub pins: Items<CheckedPin>,
}
