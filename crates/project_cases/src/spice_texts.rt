// SPICE texts, and why there is none.
use crate::net_lists::nets_in;
use case_tables::{CaseFault, TableFiles, cell, text_in};
use geda_model::Line;
use net_list::Nets;
use spice_out::{SpiceFault, spice_text};
use std::alloc::Global;

fn told(alloc: Global, kind: &str, refdes: &Line) -> Result<String, CaseFault> {
    Ok(format!(in alloc; "{kind} {}", refdes.as_str())?)
}

fn fault_text(alloc: Global, fault: &SpiceFault) -> Result<String, CaseFault> {
    match fault {
        SpiceFault::NameClash { refdes } => told(alloc, "NameClash", refdes),
        SpiceFault::PinSet { refdes } => told(alloc, "PinSet", refdes),
        SpiceFault::TwoNets { refdes } => told(alloc, "TwoNets", refdes),
        SpiceFault::NoValue { refdes } => told(alloc, "NoValue", refdes),
        SpiceFault::NoMemory => Err(CaseFault::NoMemory),
    }
}

fn lines_of(alloc: Global, text: &str) -> Result<String, CaseFault> {
    let mut out = String::new(alloc);
    for line in text.lines() {
        out.push_str("> ")?;
        out.push_str(line)?;
        out.push('\n')?;
    }
    Ok(out)
}

fn lines_by(alloc: Global, nets: &Nets) -> Result<String, CaseFault> {
    match spice_text(alloc, nets) {
        Ok(text) => lines_of(alloc, text_in(alloc, text.as_slice())?.as_str()),
        Err(fault) => {
            let fault = fault_text(alloc, &fault)?;
            Ok(format!(in alloc; "! {}\n", fault.as_str())?)
        }
    }
}

/// The lines of the SPICE text of a sheet's net list, or its fault.
pub fn lines(alloc: Global, sheet: &str, files: &TableFiles) -> Result<String, CaseFault> {
    let nets = nets_in(alloc, sheet, files)?;
    lines_by(alloc, &nets)
}

/// The fault of the SPICE text of a sheet's net list, `none` where it has none.
pub fn fault(alloc: Global, cells: &[&str], files: &TableFiles) -> Result<String, CaseFault> {
    let nets = nets_in(alloc, cell(cells, 0), files)?;
    match spice_text(alloc, &nets) {
        Ok(_) => Ok(String::from_str(alloc, "none")?),
        Err(fault) => fault_text(alloc, &fault),
    }
}
