// The target of a message, and what its query says.
ghost use Rattle.std.specs.Prelude.{◌≡◌, IfOk};
ghost use Rattle.web_requests.specs.Paths.{path_of_target, query_of_target};
ghost use Rattle.web_requests.specs.Queries.{least_in_query, number_said};
ghost use Rattle.web_requests.specs.steps.Reading.{said_with};

use std::alloc::{AllocError, Global};
use web_heads::short_number;

/// What a query says of `min`.
#[derive(Clone, Copy, Debug, PartialEq, Eq)]
pub enum Least {
    /// Nothing.
    Absent,
    /// One number.
    At(u64),
    /// What is no number, or more than one value.
    Bad,
}

/// The target up to its first `?`, and what is behind it.
pub fn split_target(target: &str) -> (&str, &str)
    ensures path { result.0.now ≡ path_of_target target.now }
    ensures query { result.1.now ≡ query_of_target target.now }
{
    match target.split_once('?') {
        Some((path, query)) => (path, query),
        None => (target, ""),
    }
}

/// The number that a value of `min` is.
fn number_in(value: &[u8]) -> Least
    ensures { result ≡ number_said value.now }
{
    match short_number(value) {
        Some(number) => Least::At(number),
        None => Least::Bad,
    }
}

/// What is said once one more pair is read.
fn with_pair(least: Least, name: &str, value: &str) -> Least
    ensures { result ≡ said_with least name.now value.now }
{
    if name != "min" {
        return least;
    }
    match least {
        Least::Absent => number_in(value.as_bytes()),
        Least::At(_) | Least::Bad => Least::Bad,
    }
}

/// What a query says of `min`.
pub fn least_in(alloc: Global, query: &[u8]) -> Result<Least, AllocError>
    ensures { IfOk result (λ least. least ≡ least_in_query query.now) }
{
    let mut least = Least::Absent;
    for pair in form_urlencoded::parse(alloc, query) {
        let (name, value) = pair?;
        least = with_pair(least, name.as_str(), value.as_str());
    }
    Ok(least)
}
