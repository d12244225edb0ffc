// Pins of components, and what of an object joins.
use crate::faults::read;
use case_tables::{CaseFault, TableFiles, bytes_of, cell};
use geda_geom::Point;
use geda_model::{Block, Object, Symbol};
use geda_read::{read_object, read_symbol};
use pin_place::{PlacedPin, conductors_of, pins_of};
use std::alloc::{AllocError, Global};

fn put_label(out: &mut String, label: &Option<Block>) -> Result<(), AllocError> {
    match label {
        Some(label) => write!(out, " {}", label.as_str()),
        None => out.push_str(" -"),
    }
}

fn put_end(out: &mut String, end: Option<Point>) -> Result<(), AllocError> {
    match end {
        Some(end) => write!(out, " {},{}", end.x, end.y),
        None => out.push_str(" hidden"),
    }
}

fn put_nets(out: &mut String, nets: &[Block]) -> Result<(), AllocError> {
    for net in nets {
        write!(out, " {}", net.as_str())?;
    }
    Ok(())
}

fn put_pin(out: &mut String, pin: &PlacedPin) -> Result<(), AllocError> {
    write!(out, "{} {}", pin.place, pin.number.as_str())?;
    put_end(out, pin.end)?;
    put_label(out, &pin.label)?;
    write!(out, " {:?}", pin.kind)?;
    put_nets(out, pin.nets.as_slice())
}

fn lines_of(alloc: Global, pins: &[PlacedPin]) -> Result<String, AllocError> {
    let mut out = String::new(alloc);
    for pin in pins {
        if !out.is_empty() {
            out.push_str("\n")?;
        }
        put_pin(&mut out, pin)?;
    }
    Ok(out)
}

fn symbol_of(alloc: Global, files: &TableFiles) -> Result<Symbol, CaseFault> {
    read(read_symbol(alloc, files.find("symbol")?))
}

fn object_of(alloc: Global, cells: &[&str]) -> Result<Object, CaseFault> {
    let bytes = bytes_of(alloc, cell(cells, 0))?;
    read(read_object(alloc, bytes.as_slice()))
}

fn pins_text(alloc: Global, object: &Object, symbol: &Symbol) -> Result<String, CaseFault> {
    let pins = pins_of(alloc, object, Some(symbol))?;
    Ok(lines_of(alloc, pins.as_slice())?)
}

fn pins_with(alloc: Global, object: &Object, files: &TableFiles) -> Result<String, CaseFault> {
    let symbol = symbol_of(alloc, files)?;
    let text = pins_text(alloc, object, &symbol);
    drop(symbol);
    text
}

/// The pins of an object with the symbol of the file `symbol`: place, number, end, label, kind and
/// global names.
pub fn pins(alloc: Global, cells: &[&str], files: &TableFiles) -> Result<String, CaseFault> {
    let object = object_of(alloc, cells)?;
    let text = pins_with(alloc, &object, files);
    drop(object);
    text
}

fn conductors_text(alloc: Global, object: &Object, symbol: &Symbol) -> Result<String, CaseFault> {
    let joining = conductors_of(alloc, object, Some(symbol))?;
    Ok(format!(in alloc; "{joining:?}")?)
}

fn conductors_with(
    alloc: Global,
    object: &Object,
    files: &TableFiles,
) -> Result<String, CaseFault> {
    let symbol = symbol_of(alloc, files)?;
    let text = conductors_text(alloc, object, &symbol);
    drop(symbol);
    text
}

/// What joins of an object.
pub fn conductors(alloc: Global, cells: &[&str], files: &TableFiles) -> Result<String, CaseFault> {
    let object = object_of(alloc, cells)?;
    let text = conductors_with(alloc, &object, files);
    drop(object);
    text
}
