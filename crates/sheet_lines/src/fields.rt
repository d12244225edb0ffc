// The fields of a line: each function takes the next one.
ghost use Rattle.std.specs.Prelude.{◌≡◌, ◌≤◌, ◌<◌, IfOk, pos, unsigned_abs};
ghost use Rattle.geda_model.specs.Ranges.{IsAngle};
ghost use Rattle.geda_grammar.specs.Classes as spec;
ghost use Rattle.geda_grammar.specs.declared.field_class.Class.TheVariants as classes;
ghost use Rattle.sheet_lines.specs.steps.Results.{Gives};
ghost use Rattle.geda_model.specs.Limits.{most_lines};
ghost use Rattle.geda_grammar.specs.Rows.{is_embedding};
ghost use Rattle.sheet_lines.specs.steps.Fields.{name_at, no_more, number_at};
ghost use Rattle.sheet_lines.specs.steps.Fields.{spelled_basename, whole_at, word_at, word_in};

use crate::fault::LineFault;
use geda_grammar::ReadKind;
use geda_model::{MOST_LINES, MOST_WORD_BYTES, Word};
use geda_text::{Fields, text_of};
use std::alloc::Global;

/// The next field. It takes no memory.
///
/// `FieldCount` exactly where none is left.
fn field<'a>(rest: &mut Fields<'a>) -> Result<&'a [u8], LineFault>
    ensures { Gives (λ word. (word.now, rest.new)) result (word_at rest.old) }
{
    rest.next().ok_or(LineFault::Refused(ReadKind::FieldCount))
}

/// The next field as a number. It takes no memory.
#[inline(always)]
#[tactic(auto, unfolding(crate::specs::steps::Fields::whole_at))]
fn any_number(rest: &mut Fields) -> Result<i32, LineFault>
    ensures { Gives (λ z. (z, rest.new)) result (whole_at rest.old) }
{
    let number = rest
        .next_whole()
        .ok_or(LineFault::Refused(ReadKind::FieldCount))?;
    number.ok_or(LineFault::Refused(ReadKind::BadNumber))
}

/// The next field as a number that is at most so far from 0. It takes no memory.
#[inline(always)]
#[tactic(auto, unfolding(crate::specs::steps::Fields::number_at))]
pub fn number(rest: &mut Fields, most: u32) -> Result<i32, LineFault>
    ensures given { Gives (λ z. (spec.Number z, rest.new)) result
        (number_at (classes.Within most) rest.old) }
    ensures range { IfOk result (λ z. unsigned_abs z ≤ most) }
{
    let number = any_number(rest)?;
    if number.unsigned_abs() > most {
        return Err(LineFault::Refused(ReadKind::OutOfRange));
    }
    Ok(number)
}

/// The next field as a number from 0 to so many. It takes no memory.
#[inline(always)]
#[tactic(auto, unfolding(crate::specs::steps::Fields::number_at))]
pub fn natural(rest: &mut Fields, most: u32) -> Result<u32, LineFault>
    ensures given { Gives (λ n. (spec.Number (pos n), rest.new)) result
        (number_at (classes.UpTo most) rest.old) }
    ensures range { IfOk result (λ n. n ≤ most) }
{
    let number = any_number(rest)?;
    if number < 0 {
        return Err(LineFault::Refused(ReadKind::OutOfRange));
    }
    let number = number as u32;
    if number > most {
        return Err(LineFault::Refused(ReadKind::OutOfRange));
    }
    Ok(number)
}

/// The next field as the number of lines that follow, 1 to 10,000. It takes no memory.
#[inline(always)]
#[tactic(auto, unfolding(crate::specs::steps::Fields::number_at))]
pub fn line_count(rest: &mut Fields) -> Result<u32, LineFault>
    ensures given { Gives (λ n. (spec.Number (pos n), rest.new)) result
        (number_at classes.Lines rest.old) }
    ensures range { IfOk result (λ n. (0 < n) × (n ≤ most_lines)) }
{
    let number = any_number(rest)?;
    if number <= 0 {
        return Err(LineFault::Refused(ReadKind::OutOfRange));
    }
    let number = number as u32;
    if number as usize > MOST_LINES {
        return Err(LineFault::Refused(ReadKind::OutOfRange));
    }
    Ok(number)
}

/// The next field as 0, 90, 180 or 270. It takes no memory.
#[inline(always)]
#[tactic(auto, unfolding(crate::specs::steps::Fields::number_at))]
pub fn angle(rest: &mut Fields) -> Result<u16, LineFault>
    ensures given { Gives (λ n. (spec.Number (pos n), rest.new)) result
        (number_at classes.Angle rest.old) }
    ensures range { IfOk result IsAngle }
{
    match any_number(rest)? {
        angle @ (0 | 90 | 180 | 270) => Ok(angle as u16),
        _ => Err(LineFault::Refused(ReadKind::BadAngle)),
    }
}

/// The word that bytes are.
///
/// `OutOfRange` exactly where they are none.
#[tactic(auto, using(crate::proofs::Names::word_is_read, crate::proofs::Names::no_word, crate::proofs::Names::not_utf8))]
fn word(alloc: Global, bytes: &[u8]) -> Result<Word, LineFault>
    ensures { Gives (λ w. w) result (word_in bytes.now) }
{
    let text = text_of(bytes).ok_or(LineFault::Refused(ReadKind::OutOfRange))?;
    Ok(Word::new(alloc, text)?)
}

/// The word that a field is: whether it begins with `EMBEDDED`, and what stands behind that.
///
/// `OutOfRange` exactly where the field is no word of at most 200 bytes.
fn basename_in(alloc: Global, field: &[u8]) -> Result<(bool, Word), LineFault>
    ensures given { Gives (λ b. spelled_basename b.0 b.1) result (word_in field.now) }
    ensures embedded { IfOk result (λ b. is_embedding (spelled_basename b.0 b.1) ≡ b.0) }
{
    if field.len() > MOST_WORD_BYTES {
        return Err(LineFault::Refused(ReadKind::OutOfRange));
    }
    match field.strip_prefix(b"EMBEDDED") {
        Some(basename) => Ok((true, word(alloc, basename)?)),
        None => Ok((false, word(alloc, field)?)),
    }
}

/// The next field as a word of at most 200 bytes: whether it begins with `EMBEDDED`, and the
/// basename, which stands behind that.
#[tactic(auto, unfolding(crate::specs::steps::Fields::name_at))]
pub fn basename(alloc: Global, rest: &mut Fields) -> Result<(bool, Word), LineFault>
    ensures given { Gives (λ b. (spec.Word (spelled_basename b.0 b.1), rest.new)) result
        (name_at rest.old) }
    ensures embedded { IfOk result (λ b. is_embedding (spelled_basename b.0 b.1) ≡ b.0) }
{
    let field = field(rest)?;
    basename_in(alloc, field)
}

/// Nothing, where no field is left. It takes no memory.
pub fn no_more(rest: &mut Fields) -> Result<(), LineFault>
    ensures { Gives (λ u. u) result (no_more rest.old) }
{
    match rest.next() {
        None => Ok(()),
        Some(_) => Err(LineFault::Refused(ReadKind::FieldCount)),
    }
}
