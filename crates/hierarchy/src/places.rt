// The places of sheets among the names in order.
ghost use Rattle.std.specs.Prelude.{◌≡◌};
ghost use Rattle.std.specs.List.Sorted.{IsStrictlySortedBy};
ghost use Rattle.std.specs.Ordering.{nat_cmp};
ghost use Rattle.std.specs.Cmp.Lexicographic.{slice_cmp};
ghost use Rattle.std.specs.List.{slice_get};
ghost use Rattle.hierarchy.specs.SheetTable.{place_of};
ghost use Rattle.hierarchy.specs.steps.SheetRows.{is_name};

use geda_model::Name;

/// The place of the sheet that a value names.
pub fn place_of(names: &[Name], value: &str) -> Option<usize>
    requires { IsStrictlySortedBy (slice_cmp nat_cmp) names.now }
    ensures { result ≡ place_of names.now value.now }
{
    names.binary_search_by(|name| name.as_str().cmp(value)).ok()
}

fn is_name_at(names: &[Name], place: usize, value: &str) -> bool
    ensures { result ≡ is_name value.now (slice_get names.now place) }
{
    match names.get(place) {
        Some(name) => name.as_str() == value,
        None => false,
    }
}

/// The same, looked for first at a place where it may be.
pub fn place_near(names: &[Name], near: usize, value: &str) -> Option<usize>
    requires { IsStrictlySortedBy (slice_cmp nat_cmp) names.now }
    ensures { result ≡ place_of names.now value.now }
{
    if is_name_at(names, near, value) {
        return Some(near);
    }
    place_of(names, value)
}
