ghost use Rattle.std.specs.Prelude.{◌≡◌, ◌+◌, ◌<◌, ◌≤◌, [], ◌∷◌, length, position, MatchOption, IfSome};
ghost use Rattle.geda_defs.specs.Lines.{is_line_feed};
ghost use Rattle.geda_text.specs.Lines.{lines_of, without_crs, IsCutLine};
ghost use Rattle.geda_text.specs.steps.Pieces.{HasNoLineFeed};

use memchr::memchr;
use std::marker::Model;

fn line_feed_at(bytes: &[u8]) -> Option<usize>
    ensures { result ≡ position is_line_feed bytes.now }
{
    memchr(b'\n', bytes)
}

/// The first line with the CRs at its end, and the bytes behind its line feed.
fn cut_line(bytes: &[u8]) -> (&[u8], &[u8])
    requires { 0 < length bytes.now }
    ensures cut { lines_of bytes.now ≡ without_crs result.0.now ∷ lines_of result.1.now }
    ensures one { HasNoLineFeed result.0.now }
    ensures shorter { length result.1.now < length bytes.now }
{
    match line_feed_at(bytes) {
        Some(end) => (&bytes[..end], &bytes[end + 1..]),
        None => (bytes, &[]),
    }
}

fn without_crs(line: &[u8]) -> &[u8]
    ensures { result.now ≡ without_crs line.now }
{
    let mut rest = line;
    while let Some((last, before)) = rest.split_last() {
        if *last != b'\r' {
            break;
        }
        rest = before;
    }
    rest
}

/// Cuts the bytes of a file into lines: at each LF, without the LF and the CRs at the line's end. A
/// last piece without LF is a line if it is not empty.
#[derive(Drop)]
pub struct Cutter<'a> {
    rest: &'a [u8],
    number: u32,
}

impl<'a> Model for Cutter<'a> {
    ghost use Rattle.std.specs.Prelude.{◌+◌, ◌≤◌, length};
    ghost use Rattle.geda_text.specs.Lines.{CutterData, lines_of};

    ghost Value = { CutterData };

    ghost view = { λ c. record { lines = lines_of c.rest.now; number = c.number } };

    ghost invariant = { λ c. c.number + length c.rest.now ≤ 4294967295 };
}

impl<'a> Cutter<'a> {
    /// The lines of a file of at most 4,294,967,295 bytes. It takes no memory.
    pub fn new(bytes: &'a [u8]) -> Cutter<'a>
        requires { length bytes.now ≤ 4294967295 }
        ensures lines { result.lines ≡ lines_of bytes.now }
        ensures number { result.number ≡ 0 }
    {
        Cutter {
            rest: bytes,
            number: 0,
        }
    }

    /// The next line. `None` exactly where no line is left. It takes no memory.
    pub fn next(&mut self) -> Option<&'a [u8]>
        ensures lines { MatchOption result ((self.old.lines ≡ []) × (self.new ≡ self.old))
            (λ line. self.old.lines ≡ line.now ∷ self.new.lines) }
        ensures number { IfSome result (λ _. self.new.number ≡ self.old.number + 1) }
        ensures cut { IfSome result (λ line. IsCutLine line.now) }
    {
        if self.rest.is_empty() {
            return None;
        }
        let (line, rest) = cut_line(self.rest);
        self.rest = rest;
        self.number += 1;
        Some(without_crs(line))
    }

    /// The number of the last line that was given, from 1; 0 before the first. It takes no memory.
    pub fn line(&self) -> u32
        ensures { result ≡ self.now.number }
    {
        self.number
    }
}
