// The texts in use, and the numbers that are given out.
ghost use Rattle.std.specs.Prelude.{[], ◌≡◌, ◌-◌, ◌<◌, ◌^◌, IfOk, OnOk};
ghost use Rattle.std.specs.HashMap.{get_by_text};
ghost use Rattle.std.specs.HashSet.{contains_text};
ghost use Rattle.std.specs.Option.{unwrap_or};
ghost use Rattle.std.specs.String.{string_bytes};
ghost use Rattle.refdes_renum.specs.Numbers.{first_free, greatest_u64, stem_with_number};
ghost use Rattle.refdes_renum.specs.steps.UsedTexts.{AddsText, SetsNext, Tracks, given_number};

use std::alloc::{AllocError, Global};
use std::collections::{HashMap, HashSet};

/// The texts in use, and for each stem a number below which all are taken.
#[derive(Drop)]
pub(crate) struct UsedTexts {
    pub(crate) used: HashSet<String>,
    pub(crate) next: HashMap<String, u64>,
}

fn numbered(alloc: Global, stem: &str, number: u64) -> Result<String, AllocError>
    ensures { IfOk result (λ text. string_bytes text ≡ stem_with_number stem.now number) }
{
    format!(in alloc; "{stem}{number}")
}

/// The first number from one on whose text is not in use, and that text.
fn first_free(
    alloc: Global,
    used: &HashSet<String>,
    stem: &str,
    from: u64,
) -> Result<(u64, String), AllocError>
    ensures number { IfOk result (λ r. r.0 ≡ first_free
        (λ n. contains_text used.now (stem_with_number stem.now n)) from (greatest_u64 - from)) }
    ensures text { IfOk result (λ r. string_bytes r.1 ≡ stem_with_number stem.now r.0) }
{
    let mut number = from;
    let mut text = numbered(alloc, stem, number)?;
    while number < u64::MAX && used.contains(text.as_str()) {
        number += 1;
        text = numbered(alloc, stem, number)?;
    }
    Ok((number, text))
}

fn add_text(alloc: Global, used: &mut HashSet<String>, text: &str) -> Result<(), AllocError>
    ensures { OnOk result (AddsText text.now (contains_text used.old) (contains_text used.new)) }
{
    let text = String::from_str(alloc, text)?;
    used.insert(text)?;
    Ok(())
}

/// The number from which on one is looked for under a stem.
fn next_of(next: &HashMap<String, u64>, stem: &str) -> u64
    ensures { result ≡ unwrap_or (get_by_text next.now stem.now) 1 }
{
    match next.get(stem) {
        Some(number) => *number,
        None => 1,
    }
}

fn set_next(
    alloc: Global,
    next: &mut HashMap<String, u64>,
    stem: &str,
    number: u64,
) -> Result<(), AllocError>
    ensures { OnOk result
        (SetsNext stem.now number (get_by_text next.old) (get_by_text next.new)) }
{
    let stem = String::from_str(alloc, stem)?;
    next.insert(stem, number)?;
    Ok(())
}

impl UsedTexts {
    /// No text is in use. It takes no memory.
    pub(crate) fn new(alloc: Global) -> UsedTexts
        ensures { Tracks [] (contains_text result.used) (get_by_text result.next) }
    {
        UsedTexts {
            used: HashSet::new(alloc),
            next: HashMap::new(alloc),
        }
    }

    /// Takes a text into use.
    pub(crate) fn take(&mut self, alloc: Global, text: &str) -> Result<(), AllocError>
        ensures used { OnOk result
            (AddsText text.now (contains_text self.old.used) (contains_text self.new.used)) }
        ensures next { OnOk result (self.new.next ≡ self.old.next) }
    {
        add_text(alloc, &mut self.used, text)
    }

    /// The text of the first number that is free under a stem, which is in use from then on.
    pub(crate) fn give(&mut self, alloc: Global, stem: &str) -> Result<String, AllocError>
        ensures text { IfOk result (λ text. string_bytes text ≡ stem_with_number stem.now
            (given_number (contains_text self.old.used) (get_by_text self.old.next) stem.now)) }
        ensures small { IfOk result (λ _. given_number (contains_text self.old.used)
            (get_by_text self.old.next) stem.now < 2 ^ 64) }
        ensures used { IfOk result (λ text. AddsText (string_bytes text)
            (contains_text self.old.used) (contains_text self.new.used)) }
        ensures next { OnOk result (SetsNext stem.now
            (given_number (contains_text self.old.used) (get_by_text self.old.next) stem.now)
            (get_by_text self.old.next) (get_by_text self.new.next)) }
    {
        let from = next_of(&self.next, stem);
        let (number, text) = first_free(alloc, &self.used, stem, from)?;
        add_text(alloc, &mut self.used, text.as_str())?;
        set_next(alloc, &mut self.next, stem, number)?;
        Ok(text)
    }
}
