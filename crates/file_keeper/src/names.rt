// The names of the files of a store (docs/FORMATS.md, "Stores").
use std::alloc::{AllocError, Global};

/// The path of the row file of a serial.
pub fn row_path(alloc: Global, store: &str, serial: u32) -> Result<String, AllocError> {
    format!(in alloc; "{store}/{serial:010}.json")
}

/// The path of what a server writes a row to, where this number is its own.
pub fn next_path(alloc: Global, store: &str, own: u64) -> Result<String, AllocError> {
    format!(in alloc; "{store}/next.{own:016x}")
}

/// The serial that the file of this name has, if it is that of a row: ten digits and `.json`.
pub fn serial_named(name: &str) -> Option<u32> {
    let digits = name.strip_suffix(".json")?;
    if digits.len() != 10 || !digits.as_bytes().iter().all(|byte| byte.is_ascii_digit()) {
        return None;
    }
    digits.parse().ok()
}

/// A server writes a row to a file of this name: `next.` and sixteen digits, or `next`, which is
/// that of older programs.
pub fn is_next(name: &str) -> bool {
    match name.strip_prefix("next.") {
        Some(own) => own.len() == 16 && own.as_bytes().iter().all(|byte| byte.is_ascii_hexdigit()),
        None => name == "next",
    }
}
