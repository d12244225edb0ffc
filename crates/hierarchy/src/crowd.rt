// When there are too many ways.
ghost use Rattle.std.specs.Prelude.{◌≡◌, ◌<◌, ◌≤◌, ◌↔◌, ◌⊎◌, IsTrue, Any, sum_by};
ghost use Rattle.hierarchy.specs.SheetTable.{sheet_at};
ghost use Rattle.hierarchy.specs.Crowded.{AreTooMany, IsDeep, weight_of};

use crate::table::TableSheet;
use crate::way::Way;

/// The ways that a project may have, and with them its instances.
pub const MOST_WAYS: usize = 4096;

/// The steps down that a way may have.
pub const MOST_STEPS: usize = 16;

/// What the objects of all instances may weigh together: one each, and one for each part.
const MOST_WEIGHT: u128 = 4_000_000;

fn weight_at(sheets: &[TableSheet], place: usize) -> u128
    ensures { result ≡ (sheet_at sheets.now place).weight }
{
    match sheets.get(place) {
        None => 0,
        Some(sheet) => sheet.weight,
    }
}

fn are_heavy(sheets: &[TableSheet], ways: &[Way]) -> bool
    ensures { IsTrue result ↔ 4000000 < sum_by (weight_of sheets.now) ways.now }
{
    let mut total: u128 = 0;
    for way in ways {
        let weight = weight_at(sheets, way.last_sheet());
        if weight > MOST_WEIGHT - total {
            return true;
        }
        total += weight;
    }
    false
}

fn is_deep(way: &Way) -> bool
    ensures { IsTrue result ↔ IsDeep way.now }
{
    way.steps.len() > MOST_STEPS
}

fn have_deep(ways: &[Way]) -> bool
    ensures { IsTrue result ↔ Any IsDeep ways.now }
{
    ways.iter().any(is_deep)
}

fn are_deep_or_heavy(sheets: &[TableSheet], ways: &[Way]) -> bool
    ensures { IsTrue result
        ↔ (Any IsDeep ways.now ⊎ (4000000 < sum_by (weight_of sheets.now) ways.now)) }
{
    have_deep(ways) || are_heavy(sheets, ways)
}

/// Whether there are over 4,096 ways, one of over 16 steps, or a weight of over 4,000,000.
pub fn are_too_many(sheets: &[TableSheet], ways: &[Way]) -> bool
    ensures { IsTrue result ↔ AreTooMany sheets.now ways.now }
{
    ways.len() > MOST_WAYS || are_deep_or_heavy(sheets, ways)
}
