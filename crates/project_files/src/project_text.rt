// How many objects a project has, and whether it has room for all else.
ghost use Rattle.std.specs.Prelude.{◌≡◌, ◌≤◌, ◌-◌, ◌^◌, length, min};
ghost use Rattle.std.specs.List.{filter_map, sum_by};
ghost use Rattle.project_files.specs.Opening.{found_symbol, has_too_many_objects, is_over_full};
ghost use Rattle.project_files.specs.Opening.{object_bytes, project_text};
ghost use Rattle.project_files.specs.steps.Counting.{asked_bytes, found_bytes, object_count};
ghost use Rattle.project_files.specs.steps.Counting.{sheet_bytes};

use crate::bounds::object_bound;
use crate::gathered::GatheredFiles;
use geda_model::{MOST_PROJECT_TEXT, MOST_SHEETS, MOST_SYMBOLS, Name, Object, Sheet, Symbol};
use geda_write::{object_size, symbol_size};

// The objects of all sheets of a project.
const MOST_PROJECT_OBJECTS: usize = 400000;

/// The objects of all sheets.
pub(crate) fn object_count(sheets: &[Sheet]) -> usize
    ensures { result ≡ min (sum_by object_count sheets.now) (2 ^ 64 - 1) }
{
    let mut count: usize = 0;
    for sheet in sheets {
        count = count.saturating_add(sheet.objects.as_slice().len());
    }
    count
}

fn bytes_of_objects(objects: &[Object]) -> u64
    ensures { result ≡ min (sum_by object_bytes objects.now) (2 ^ 64 - 1) }
{
    let mut bytes: u64 = 0;
    for object in objects {
        bytes = bytes.saturating_add(object_size(object));
    }
    bytes
}

fn bound_of_objects(objects: &[Object]) -> u64
    ensures { min (sum_by object_bytes objects.now) (2 ^ 64 - 1) ≤ result }
{
    let mut bytes: u64 = 0;
    for object in objects {
        bytes = bytes.saturating_add(object_bound(object));
    }
    bytes
}

fn bytes_of_sheets(sheets: &[Sheet]) -> u64
    ensures { result ≡ min (sum_by sheet_bytes sheets.now) (2 ^ 64 - 1) }
{
    let mut bytes: u64 = 0;
    for sheet in sheets {
        bytes = bytes.saturating_add(bytes_of_objects(sheet.objects.as_slice()));
    }
    bytes
}

fn bound_of_sheets(sheets: &[Sheet]) -> u64
    ensures { min (sum_by sheet_bytes sheets.now) (2 ^ 64 - 1) ≤ result }
{
    let mut bytes: u64 = 0;
    for sheet in sheets {
        bytes = bytes.saturating_add(bound_of_objects(sheet.objects.as_slice()));
    }
    bytes
}

fn bytes_of_symbol(symbol: &Option<Symbol>) -> u64
    ensures { result ≡ min (found_bytes symbol.now) (2 ^ 64 - 1) }
{
    match symbol {
        Some(symbol) => symbol_size(symbol),
        None => 0,
    }
}

/// The bytes of the texts of symbols that were found.
pub(crate) fn bytes_of_symbols(symbols: &[(Name, Option<Symbol>)]) -> u64
    ensures { result ≡ min (sum_by asked_bytes symbols.now) (2 ^ 64 - 1) }
{
    let mut bytes: u64 = 0;
    for (_name, symbol) in symbols {
        bytes = bytes.saturating_add(bytes_of_symbol(symbol));
    }
    bytes
}

/// The symbols that were found.
pub(crate) fn symbol_count(symbols: &[(Name, Option<Symbol>)]) -> usize
    ensures { result ≡ length (filter_map found_symbol symbols.now) }
{
    let mut count: usize = 0;
    for (_name, symbol) in symbols {
        if symbol.is_some() {
            count += 1;
        }
    }
    count
}

fn project_text(gathered: &GatheredFiles) -> u64
    ensures { result ≡ min (project_text gathered.now) (2 ^ 64 - 1) }
{
    bytes_of_sheets(&gathered.sheets).saturating_add(bytes_of_symbols(&gathered.symbols))
}

// At least as much, without counting each object.
fn text_bound(gathered: &GatheredFiles) -> u64
    ensures { min (project_text gathered.now) (2 ^ 64 - 1) ≤ result }
{
    bound_of_sheets(&gathered.sheets).saturating_add(bytes_of_symbols(&gathered.symbols))
}

/// Whether what is gathered has more objects than a project may have (docs/FORMATS.md, "Limits").
/// It takes no memory.
pub fn has_too_many_objects(gathered: &GatheredFiles) -> bool
    ensures { result ≡ has_too_many_objects gathered.now }
{
    object_count(&gathered.sheets) > MOST_PROJECT_OBJECTS
}

/// Whether it has more sheets or symbols, or more text, than a project may have. It takes no
/// memory.
pub fn is_over_full(gathered: &GatheredFiles) -> bool
    ensures { result ≡ is_over_full gathered.now }
{
    if gathered.sheets.len() > MOST_SHEETS {
        return true;
    }
    if symbol_count(&gathered.symbols) > MOST_SYMBOLS {
        return true;
    }
    // Only a project near the limit is counted byte by byte.
    if text_bound(gathered) <= MOST_PROJECT_TEXT as u64 {
        return false;
    }
    project_text(gathered) > MOST_PROJECT_TEXT as u64
}
