// Attributes, slots, values of `net` and kinds of pins.
use crate::faults::read;
use attr_rules::{
    NetFault, SlotFault, attr_of, attrs_of, net_entries, pin_kind, slot_pins, split_attr,
};
use case_tables::{CaseFault, TableFiles, cell, option_in, text_of};
use geda_model::{Block, Object, Word};
use geda_read::read_object;
use std::alloc::{AllocError, Global};

/// The name and the value of an attribute.
pub fn split(alloc: Global, cells: &[&str]) -> Result<String, CaseFault> {
    let text = text_of(alloc, cell(cells, 0))?;
    match split_attr(text.as_str()) {
        Some((name, value)) => Ok(format!(in alloc; "{name} | {value}")?),
        None => Ok(String::from_str(alloc, "plain")?),
    }
}

/// The kind of a value of `pintype`.
pub fn kind(alloc: Global, cells: &[&str]) -> Result<String, CaseFault> {
    let kind = pin_kind(option_in(cell(cells, 0)));
    Ok(format!(in alloc; "{kind:?}")?)
}

fn joined(alloc: Global, words: &[Word]) -> Result<String, AllocError> {
    let mut out = String::new(alloc);
    for word in words {
        if !out.is_empty() {
            out.push_str(" ")?;
        }
        out.push_str(word.as_str())?;
    }
    Ok(out)
}

/// The pins of a slot: the slot, `numslots`, and each `slotdef`.
pub fn slot(alloc: Global, cells: &[&str]) -> Result<String, CaseFault> {
    let mut slotdefs = Vec::new(alloc);
    for slotdef in cells.iter().skip(2) {
        slotdefs.push(Block::new(alloc, slotdef)?)?;
    }
    let numslots = option_in(cell(cells, 1));
    match slot_pins(alloc, cell(cells, 0), numslots, &slotdefs) {
        Ok(pins) => Ok(joined(alloc, pins.as_slice())?),
        Err(SlotFault::NoMemory) => Err(CaseFault::NoMemory),
        Err(fault) => Ok(format!(in alloc; "{fault:?}")?),
    }
}

/// The name and the pins of a value of `net`.
pub fn net(alloc: Global, cells: &[&str]) -> Result<String, CaseFault> {
    match net_entries(alloc, cell(cells, 0)) {
        Ok(entry) => {
            let pins = joined(alloc, entry.pins.as_slice())?;
            Ok(format!(in alloc; "{} | {pins}", entry.name.as_str())?)
        }
        Err(NetFault::NoMemory) => Err(CaseFault::NoMemory),
        Err(NetFault::BadNet) => Ok(String::from_str(alloc, "BadNet")?),
    }
}

fn object_in(alloc: Global, files: &TableFiles) -> Result<Object, CaseFault> {
    read(read_object(alloc, files.find("object")?))
}

fn values_text(alloc: Global, object: &Object, name: &str) -> Result<String, CaseFault> {
    let mut out = String::new(alloc);
    for value in attrs_of(alloc, object, None, name)?.as_slice() {
        if !out.is_empty() {
            out.push_str(" | ")?;
        }
        out.push_str(value.as_str())?;
    }
    Ok(out)
}

/// The values of a name at the object of the file `object`.
pub fn values(alloc: Global, cells: &[&str], files: &TableFiles) -> Result<String, CaseFault> {
    let object = object_in(alloc, files)?;
    let text = values_text(alloc, &object, cell(cells, 0));
    drop(object);
    text
}

fn value_text(alloc: Global, object: &Object, name: &str) -> Result<String, CaseFault> {
    let value = attr_of(object, None, name).unwrap_or("-");
    Ok(String::from_str(alloc, value)?)
}

/// The first value of a name there, or `-`.
pub fn value(alloc: Global, cells: &[&str], files: &TableFiles) -> Result<String, CaseFault> {
    let object = object_in(alloc, files)?;
    let text = value_text(alloc, &object, cell(cells, 0));
    drop(object);
    text
}
