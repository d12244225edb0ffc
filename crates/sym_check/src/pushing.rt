// One more finding.
ghost use Rattle.std.specs.Prelude.{◌≡◌, ◌++◌, ◌∷◌, [], IfOk, OnOk};
ghost use Rattle.std.specs.Fmt.{decimal};
ghost use Rattle.printed_texts.specs.PrintedTexts.{word};
ghost use Rattle.text_tallies.specs.Levels.{found_if};
ghost use Rattle.sym_check.specs.Findings.{symbol_error, symbol_warning};

use crate::finding::SymFinding;
use geda_model::Line;
use printed_texts::{Words, name_words};
use std::alloc::{AllocError, Global};

/// Adds an error of a rule.
pub fn push_error(found: &mut Vec<SymFinding>, code: u8, words: Line) -> Result<(), AllocError>
    ensures { OnOk result (found.new.items ≡ found.old.items ++ symbol_error code words ∷ []) }
{
    let error = true;
    found.push(SymFinding { code, error, words })?;
    Ok(())
}

fn push_warning(found: &mut Vec<SymFinding>, code: u8, words: Line) -> Result<(), AllocError>
    ensures { OnOk result (found.new.items ≡ found.old.items ++ symbol_warning code words ∷ []) }
{
    let error = false;
    found.push(SymFinding { code, error, words })?;
    Ok(())
}

/// Adds a warning without words, where a rule is broken.
pub fn warn_if(
    alloc: Global,
    found: &mut Vec<SymFinding>,
    is_broken: bool,
    code: u8,
) -> Result<(), AllocError>
    ensures { OnOk result
        (found.new.items ≡ found.old.items ++ found_if is_broken (symbol_warning code [])) }
{
    if is_broken {
        push_warning(found, code, Words::new(alloc).line(alloc)?)?;
    }
    Ok(())
}

/// A number as a line.
#[tactic(auto, using(printed_texts::proofs::DigitLemmas::number_again))]
pub fn number_line(alloc: Global, number: u32) -> Result<Line, AllocError>
    ensures { IfOk result (λ line. line ≡ decimal number) }
{
    let text = format!(in alloc; "{number}")?;
    name_words(alloc, text.as_str())
}

/// Adds an error on a number, where a rule is broken.
pub fn error_at(
    alloc: Global,
    found: &mut Vec<SymFinding>,
    is_broken: bool,
    code: u8,
    number: u32,
) -> Result<(), AllocError>
    ensures { OnOk result (found.new.items
        ≡ found.old.items ++ found_if is_broken (symbol_error code (decimal number))) }
{
    if is_broken {
        push_error(found, code, number_line(alloc, number)?)?;
    }
    Ok(())
}

/// Adds a warning on a number, where a rule is broken.
pub fn warn_at(
    alloc: Global,
    found: &mut Vec<SymFinding>,
    is_broken: bool,
    code: u8,
    number: u32,
) -> Result<(), AllocError>
    ensures { OnOk result (found.new.items
        ≡ found.old.items ++ found_if is_broken (symbol_warning code (decimal number))) }
{
    if is_broken {
        push_warning(found, code, number_line(alloc, number)?)?;
    }
    Ok(())
}

/// Adds an error on a text, where a rule is broken.
pub fn error_on(
    alloc: Global,
    found: &mut Vec<SymFinding>,
    is_broken: bool,
    code: u8,
    text: &str,
) -> Result<(), AllocError>
    ensures { OnOk result (found.new.items
        ≡ found.old.items ++ found_if is_broken (symbol_error code (word text.now))) }
{
    if is_broken {
        push_error(found, code, name_words(alloc, text)?)?;
    }
    Ok(())
}
