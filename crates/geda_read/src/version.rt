// The version line.
ghost use Rattle.std.specs.Prelude.{◌≡◌, ◌<◌, ◌⊎◌, IfSome};
ghost use Rattle.geda_grammar.specs.steps.Files.{format_of, version_of};
ghost use Rattle.geda_read.specs.steps.Version.{date_of};

use crate::kinds::is_version;
use geda_model::Head;
use geda_text::{are_digits, fields, whole};

/// The date that a field says: eight digits. It takes no memory.
#[tactic(auto, unfolding(crate::specs::steps::Version::date_of), using(crate::proofs::Dates::whole_date, crate::proofs::Dates::small_date))]
fn date(field: &[u8]) -> Option<u32>
    ensures date { result ≡ date_of field.now }
    ensures small { IfSome result (λ n. n < 100000000) }
{
    if field.len() != 8 {
        return None;
    }
    if !are_digits(field) {
        return None;
    }
    match whole(field) {
        Some(number) => u32::try_from(number).ok(),
        None => None,
    }
}

fn format(field: &[u8]) -> Option<u8>
    ensures format { result ≡ format_of field.now }
    ensures known { IfSome result (λ n. (n ≡ 1) ⊎ (n ≡ 2)) }
{
    match field {
        b"1" => Some(1),
        b"2" => Some(2),
        _ => None,
    }
}

/// What a version line says. `None` exactly for any other line. It takes no memory.
#[tactic(auto, unfolding(crate::specs::steps::Version::date_of))]
pub fn version(line: &[u8]) -> Option<Head>
    ensures { result ≡ version_of line.now }
{
    let mut words = fields(line);
    let first = words.next()?;
    let date_field = words.next()?;
    let format_field = words.next()?;
    if words.next().is_some() {
        return None;
    }
    if !is_version(first) {
        return None;
    }
    let date = date(date_field)?;
    let format = format(format_field)?;
    Some(Head { date, format })
}
