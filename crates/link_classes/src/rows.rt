// The rows of keys that have groups, in order of the keys.
ghost use Rattle.std.specs.Prelude.{◌≡◌, ◌↔◌, IsTrue, MatchOption, None};
ghost use Rattle.std.specs.List.Sorted.{IsStrictlySortedBy};
ghost use Rattle.std.specs.Map.{keys_of};
ghost use Rattle.geda_geom.specs.Keys.{by_key};
ghost use Rattle.link_classes.specs.InstanceGroups.{groups_by};
ghost use Rattle.link_classes.specs.steps.GroupRows.{IsRow, key_number};

use geda_geom::Key;

/// A key as one number, of which the id is the lower half.
fn as_number(key: Key) -> u64
    ensures { result ≡ key_number key }
{
    u64::from(key.place) * 4_294_967_296 + u64::from(key.id)
}

/// Whether two keys are one, by one comparison for both parts.
pub(crate) fn are_one(a: Key, b: Key) -> bool
    ensures { IsTrue result ↔ (a ≡ b) }
{
    as_number(a) == as_number(b)
}

/// The row of a key, if it has one, by a search.
#[cold]
#[inline(never)]
fn searched_row(rows: &[(Key, Key)], key: &Key) -> Option<usize>
    requires rising { IsStrictlySortedBy by_key (keys_of rows.now) }
    ensures { MatchOption result (groups_by rows.now key.now ≡ None) (IsRow rows.now key.now) }
{
    match rows.binary_search_by_key(key, |row| row.0) {
        Ok(at) => Some(at),
        Err(_) => None,
    }
}

/// The row of a key, if it has one. It is looked for at one place first, and then by a search.
pub(crate) fn key_row(rows: &[(Key, Key)], guess: usize, key: &Key) -> Option<usize>
    requires rising { IsStrictlySortedBy by_key (keys_of rows.now) }
    ensures { MatchOption result (groups_by rows.now key.now ≡ None) (IsRow rows.now key.now) }
{
    if let Some(row) = rows.get(guess) {
        if are_one(row.0, *key) {
            return Some(guess);
        }
    }
    searched_row(rows, key)
}
