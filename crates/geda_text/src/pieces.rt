ghost use Rattle.std.specs.Prelude.{◌≡◌, ◌+◌, ◌<◌, ◌≤◌, ◌∷◌, length, position, false, true, IfSome, MatchOption};
ghost use Rattle.std.specs.Char.{is_ascii_digit};
ghost use Rattle.std.specs.Iterator.{YieldsFirstRef, item_count};
ghost use Rattle.geda_text.specs.Lines.{is_blank, fields_of, next_whole, other_fields};
ghost use Rattle.geda_text.specs.steps.Words.{BeginsWith, BeginsWithDigits, StartsWord};

use crate::number::whole;
use std::marker::Model;

fn is_blank(byte: u8) -> bool
    ensures { result ≡ is_blank byte }
{
    byte == b' ' || byte == b'\t'
}

fn blank_at(bytes: &[u8]) -> Option<usize>
    ensures { result ≡ position is_blank bytes.now }
{
    bytes.iter().position(|byte| is_blank(*byte))
}

fn without_blanks(line: &[u8]) -> &[u8]
    ensures same { fields_of result.now ≡ fields_of line.now }
    ensures first { StartsWord result.now }
{
    let mut rest = line;
    while let Some((first, after)) = rest.split_first() {
        if !is_blank(*first) {
            break;
        }
        rest = after;
    }
    rest
}

/// The first field, and the bytes behind the blank that ends it.
fn cut_field(bytes: &[u8]) -> (&[u8], &[u8])
    requires some { 0 < length bytes.now }
    requires first { StartsWord bytes.now }
    ensures { fields_of bytes.now ≡ result.0.now ∷ fields_of result.1.now }
{
    match blank_at(bytes) {
        Some(end) => (&bytes[..end], &bytes[end + 1..]),
        None => (bytes, &[]),
    }
}

/// The number that a digit spells, in 32 bits from the first: fewer steps than in 8.
#[inline(always)]
fn digit_of(byte: u8) -> Option<u32>
    ensures { MatchOption result (is_ascii_digit byte ≡ false)
        (λ digit. (is_ascii_digit byte ≡ true) × (digit + 48 ≡ byte)) }
{
    let digit = u32::from(byte).wrapping_sub(u32::from(b'0'));
    if digit > 9 {
        return None;
    }
    Some(digit)
}

/// The number that one digit spells, where it stands first and before a space or the end, and the
/// bytes behind that space. Most fields are one digit.
#[inline(always)]
fn cut_digit(bytes: &[u8]) -> Option<(u32, &[u8])>
    ensures { IfSome result (λ r. BeginsWithDigits bytes.now r.0 r.1.now) }
{
    let (first, after) = bytes.split_first()?;
    let Some((second, others)) = after.split_first() else {
        let digit = digit_of(*first)?;
        return Some((digit, &[]));
    };
    if *second != b' ' {
        return None;
    }
    let digit = digit_of(*first)?;
    Some((digit, others))
}

/// The number that 1 to 9 digits spell, where they stand first and before a blank or the end, and
/// the bytes behind that blank.
#[inline(always)]
fn cut_digits(bytes: &[u8]) -> Option<(u32, &[u8])>
    ensures { IfSome result (λ r. BeginsWithDigits bytes.now r.0 r.1.now) }
{
    if let Some(cut) = cut_digit(bytes) {
        return Some(cut);
    }
    let mut value: u32 = 0;
    let mut count = 0;
    while count < bytes.len() {
        let Some(digit) = digit_of(bytes[count]) else {
            break;
        };
        if count == 9 {
            return None;
        }
        value = value * 10 + digit;
        count += 1;
    }
    if count == 0 {
        return None;
    }
    if count == bytes.len() {
        return Some((value, &[]));
    }
    if !is_blank(bytes[count]) {
        return None;
    }
    Some((value, &bytes[count + 1..]))
}

/// The number that a field spells, where the field stands first, and the bytes behind the blank
/// that ends it. Where it spells none the answer is `None`.
fn cut_whole(bytes: &[u8]) -> Option<(i32, &[u8])>
    ensures { IfSome result (λ r. BeginsWith bytes.now r.0 r.1.now) }
{
    if let [b'-', digits @ ..] = bytes {
        let (number, after) = cut_digits(digits)?;
        return Some((-(number as i32), after));
    }
    let (number, after) = cut_digits(bytes)?;
    Some((number as i32, after))
}

/// The fields of a line that are still to come, each of at least one byte and without blanks.
#[derive(Drop)]
pub struct Fields<'a> {
    rest: &'a [u8],
}

impl<'a> Model for Fields<'a> {
    ghost use Rattle.std.specs.Prelude.{List, ℕ};
    ghost use Rattle.geda_text.specs.Lines.{fields_of};

    ghost Value = { List (List ℕ) };

    ghost view = { λ l. fields_of l.rest.now };
}

impl<'a> Fields<'a> {
    #[tactic(auto, using(crate::proofs::CuttingFields::few))]
    pub(crate) fn of(line: &'a [u8]) -> Fields<'a>
        ensures given { result ≡ fields_of line.now }
        ensures few { length result ≤ length line.now + 1 }
    {
        Fields { rest: line }
    }

    /// The number that the next field spells, where that field stands first. Else nothing changes.
    #[inline(never)]
    fn take_whole(&mut self) -> Option<i32>
        ensures { MatchOption result (self.new ≡ self.old)
            (λ z. (next_whole self.old ≡ Some (Some z)) × (self.new ≡ other_fields self.old)) }
    {
        let (number, after) = cut_whole(self.rest)?;
        self.rest = after;
        Some(number)
    }

    /// The same of any next field.
    #[inline(never)]
    fn next_of_any(&mut self) -> Option<Option<i32>>
        ensures given { result ≡ next_whole self.old }
        ensures rest { self.new ≡ other_fields self.old }
    {
        let field = self.next()?;
        Some(whole(field))
    }

    /// The same, as a function of its own: what calls it fills no room for an answer that it does
    /// not ask for.
    #[inline(always)]
    fn next_as_whole(&mut self) -> Option<Option<i32>>
        ensures given { result ≡ next_whole self.old }
        ensures rest { self.new ≡ other_fields self.old }
    {
        self.next_of_any()
    }

    /// The number that the next field spells, as `whole` reads it. It takes no memory.
    ///
    /// `None` exactly where no field is left, `Some(None)` exactly where the next one is no number.
    #[inline(always)]
    pub fn next_whole(&mut self) -> Option<Option<i32>>
        ensures given { result ≡ next_whole self.old }
        ensures rest { self.new ≡ other_fields self.old }
    {
        if let Some(number) = self.take_whole() {
            return Some(Some(number));
        }
        self.next_as_whole()
    }
}

impl<'a> Iterator for Fields<'a> {
    type Item = &'a [u8];

    ghost next_gives = { YieldsFirstRef (λ s. s) };

    ghost remaining = { item_count (λ s. s) };

    fn next(&mut self) -> Option<&'a [u8]> {
        let rest = without_blanks(self.rest);
        if rest.is_empty() {
            return None;
        }
        let (field, rest) = cut_field(rest);
        self.rest = rest;
        Some(field)
    }
}
