// What the check asks of a component.
use crate::drawn_pins::DrawnPins;
use attr_rules::SlotFault;
use geda_model::{Line, Name, Word};
use std::marker::Model;

/// A component in an instance of its sheet, which is neither graphical nor a directive.
#[derive(Debug, Drop)]
pub struct CheckedComponent<'a> {
    /// The name of its sheet.
    pub sheet: &'a Name,
    /// Its id.
    pub id: u32,
    /// The name of its symbol.
    pub basename: &'a Word,
    /// Whether it has a symbol.
    pub has_symbol: bool,
    /// Its printed refdes, where it has a refdes.
    pub refdes: Option<Line>,
    /// Whether it has sheets below.
    pub is_hierarchical: bool,
    /// Whether it is a port of the component above.
    pub is_port: bool,
    /// Whether it has a value of `net`.
    pub has_net: bool,
    /// Whether one of its values of `net`, attached or inherited, is bad.
    pub has_bad_net: bool,
    /// Its `slot`.
    pub slot: Option<&'a str>,
    /// Why that slot gives no pin numbers, where it gives none.
    pub slot_fault: Option<SlotFault>,
    /// The count of its slots, where its `numslots` is 1 to 4 digits.
    pub slots: Option<u32>,
    /// Its drawn net pins, by place.
    pub(crate) pins: DrawnPins<'a>,
}

impl<'a> Model for CheckedComponent<'a> {
    ghost use Rattle.std.specs.Prelude.{option_copied};
    ghost use Rattle.component_checks.specs.CheckedComponents.{CheckedData};

    ghost Value = { CheckedData };

    ghost view = { λ c. record {
      sheet = c.sheet.now;
      id = c.id;
      basename = c.basename.now;
      has_symbol = c.has_symbol;
      refdes = c.refdes;
      is_hierarchical = c.is_hierarchical;
      is_port = c.is_port;
      has_net = c.has_net;
      has_bad_net = c.has_bad_net;
      slot = option_copied c.slot;
      slot_fault = c.slot_fault;
      slots = c.slots;
      pins = c.pins;
    } };
}
