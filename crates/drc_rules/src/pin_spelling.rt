// The words of pins, spelled one after another in one text.
ghost use Rattle.std.specs.Prelude.{◌≡◌, ◌++◌, ◌∷◌, IfOk, OnOk, nat_lt};
ghost use Rattle.std.specs.List.{list_all};
ghost use Rattle.std.specs.String.{string_bytes};
ghost use Rattle.printed_texts.specs.PrintedTexts.{pin_words};

use geda_model::Line;
use hierarchy::line_of;
use printed_texts::pin_words;
use std::alloc::{AllocError, Global};

// Each byte is above all that print in a word as another one.
fn stays_in_word(text: &str) -> bool
    ensures { result ≡ list_all (λ b. nat_lt 32 b) text.now }
{
    text.as_bytes().iter().all(|byte| *byte > b' ')
}

#[tactic(auto, using(printed_texts::proofs::WordLemmas::mark_assoc))]
fn spell(spelling: &mut String, refdes: &str, number: &str) -> Result<(), AllocError>
    ensures { OnOk result (string_bytes spelling.new ≡ refdes.now ++ 45 ∷ number.now) }
{
    spelling.clear();
    spelling.push_str(refdes)?;
    spelling.push_str("-")?;
    spelling.push_str(number)?;
    Ok(())
}

/// The words of a pin: refdes, `-`, number. Most are spelled in this text, which keeps its room for
/// the next pin.
pub fn spelled_pin(
    alloc: Global,
    spelling: &mut String,
    refdes: &str,
    number: &str,
) -> Result<Line, AllocError>
    ensures { IfOk result (λ line. line ≡ pin_words refdes.now number.now) }
{
    if !stays_in_word(refdes) {
        return pin_words(alloc, refdes, number);
    }
    if !stays_in_word(number) {
        return pin_words(alloc, refdes, number);
    }
    spell(spelling, refdes, number)?;
    let line = line_of(alloc, spelling.as_str())?;
    Ok(line)
}
