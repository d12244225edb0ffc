// Words and lines: texts that stand in one line of a file.
ghost use Rattle.std.specs.Prelude.{◌≡◌, ◌↔◌, ◌≤◌, All, IfOk, OnOk, IsErrOf, IsTrue, length};
ghost use Rattle.geda_model.specs.Names.{IsLine, IsLineByte, IsWord, IsWordByte};

use crate::limits::MOST_WORD_BYTES;
use crate::name::NameFault;
use crate::short_text::ShortText;
use std::alloc::{AllocError, Global};
use std::cmp::Ordering;
use std::marker::Model;

/// UTF-8 text without LF. Lines are ordered by their bytes.
#[derive(Debug, Drop)]
pub struct Line {
    text: ShortText,
}

impl Model for Line {
    ghost use Rattle.std.specs.Prelude.{List, ℕ};
    ghost use Rattle.geda_model.specs.Names.{IsLine};

    ghost Value = { List ℕ };

    ghost view = { λ w. w.text };

    ghost invariant = { λ w. IsLine w.text };
}

fn are_line_bytes(bytes: &[u8]) -> bool
    ensures { IsTrue result ↔ All IsLineByte bytes.now }
{
    bytes.iter().all(|byte| *byte != b'\n')
}

fn is_line(text: &str) -> bool
    ensures { IsTrue result ↔ IsLine text.now }
{
    are_line_bytes(text.as_bytes())
}

impl Line {
    /// The line that a text is.
    ///
    /// `NotAName` exactly where the text has an LF.
    pub fn new(alloc: Global, text: &str) -> Result<Line, NameFault>
        ensures same { IfOk result (λ line. line ≡ text.now) }
        ensures line { OnOk result (IsLine text.now) }
        ensures refused { IsErrOf result NameFault.NotAName → ¬ IsLine text.now }
    {
        if !is_line(text) {
            return Err(NameFault::NotAName);
        }
        let text = ShortText::new(alloc, text)?;
        Ok(Line { text })
    }

    /// The text of the line. It takes no memory.
    pub fn as_str(&self) -> &str
        ensures text { result.now ≡ self.now }
        ensures line { IsLine self.now }
    {
        self.text.as_str()
    }
}

impl Clone for Line {
    ghost use Rattle.std.specs.Prelude.{◌≡◌};

    ghost is_clone = { λ x y. y ≡ x };

    fn clone(&self) -> Result<Line, AllocError> {
        let text = self.text.clone()?;
        Ok(Line { text })
    }
}

impl PartialEq for Line {
    ghost use Rattle.std.specs.Str.{bytes_eq};
    ghost use Rattle.std.proofs.Common.{rules};
    ghost use Rattle.std.specs.Cmp.Rules.{comparing};

    ghost eq = { bytes_eq };

    ghost laws = { Prim.search (comparing, rules) };

    fn eq(&self, other: &Line) -> bool {
        self.as_str() == other.as_str()
    }
}

impl Eq for Line {
    ghost use Rattle.std.proofs.Common.{rules};
    ghost use Rattle.std.specs.Cmp.Rules.{comparing};

    ghost laws = { Prim.search (comparing, rules) };
}

impl PartialOrd for Line {
    ghost use Rattle.std.specs.Prelude.{Some};
    ghost use Rattle.std.proofs.Common.{rules};
    ghost use Rattle.std.specs.Cmp.{partial_order_from_own_ties};
    ghost use Rattle.std.specs.Cmp.Rules.{comparing};
    ghost use Rattle.std.specs.Cmp.Lexicographic.{slice_cmp};
    ghost use Rattle.std.specs.Ordering.{nat_cmp, as_partial_cmp};

    ghost partial_cmp = { as_partial_cmp (slice_cmp nat_cmp) };

    ghost laws = { partial_order_from_own_ties (Prim.search (comparing, rules)) (Prim.search (comparing, rules)) };

    fn partial_cmp(&self, other: &Line) -> Option<Ordering> {
        Some(self.cmp(other))
    }
}

impl Ord for Line {
    ghost use Rattle.std.proofs.Common.{rules};
    ghost use Rattle.std.specs.Cmp.Rules.{comparing};
    ghost use Rattle.std.specs.Cmp.Lexicographic.{slice_cmp};
    ghost use Rattle.std.specs.Ordering.{nat_cmp};

    ghost cmp = { slice_cmp nat_cmp };

    ghost total = { Prim.search (comparing, rules) };

    ghost matches_partial_cmp = { Prim.search (comparing, rules) };

    ghost matches_eq = { Prim.search (comparing, rules) };

    fn cmp(&self, other: &Line) -> Ordering {
        self.as_str().cmp(other.as_str())
    }
}

/// UTF-8 text of 0 to 200 bytes without space, tab and control bytes (0 to 31 and 127). Words are
/// ordered by their bytes.
#[derive(Debug, Drop)]
pub struct Word {
    text: ShortText,
}

impl Model for Word {
    ghost use Rattle.std.specs.Prelude.{List, ℕ};
    ghost use Rattle.geda_model.specs.Names.{IsWord};

    ghost Value = { List ℕ };

    ghost view = { λ w. w.text };

    ghost invariant = { λ w. IsWord w.text };
}

fn are_word_bytes(bytes: &[u8]) -> bool
    ensures { IsTrue result ↔ All IsWordByte bytes.now }
{
    bytes.iter().all(|byte| *byte > 32 && *byte != 127)
}

fn is_word(text: &str) -> bool
    ensures { IsTrue result ↔ IsWord text.now }
{
    if text.len() > MOST_WORD_BYTES {
        return false;
    }
    are_word_bytes(text.as_bytes())
}

impl Word {
    /// The word that a text is.
    ///
    /// `NotAName` exactly where the text is over 200 bytes, or has a space, a tab or a control
    /// byte.
    pub fn new(alloc: Global, text: &str) -> Result<Word, NameFault>
        ensures same { IfOk result (λ word. word ≡ text.now) }
        ensures word { OnOk result (IsWord text.now) }
        ensures refused { IsErrOf result NameFault.NotAName → ¬ IsWord text.now }
    {
        if !is_word(text) {
            return Err(NameFault::NotAName);
        }
        let text = ShortText::new(alloc, text)?;
        Ok(Word { text })
    }

    /// The text of the word. It takes no memory.
    pub fn as_str(&self) -> &str
        ensures text { result.now ≡ self.now }
        ensures word { IsWord self.now }
    {
        self.text.as_str()
    }
}

impl Clone for Word {
    ghost use Rattle.std.specs.Prelude.{◌≡◌};

    ghost is_clone = { λ x y. y ≡ x };

    fn clone(&self) -> Result<Word, AllocError> {
        let text = self.text.clone()?;
        Ok(Word { text })
    }
}

impl PartialEq for Word {
    ghost use Rattle.std.specs.Str.{bytes_eq};
    ghost use Rattle.std.proofs.Common.{rules};
    ghost use Rattle.std.specs.Cmp.Rules.{comparing};

    ghost eq = { bytes_eq };

    ghost laws = { Prim.search (comparing, rules) };

    fn eq(&self, other: &Word) -> bool {
        self.as_str() == other.as_str()
    }
}

impl Eq for Word {
    ghost use Rattle.std.proofs.Common.{rules};
    ghost use Rattle.std.specs.Cmp.Rules.{comparing};

    ghost laws = { Prim.search (comparing, rules) };
}

impl PartialOrd for Word {
    ghost use Rattle.std.specs.Prelude.{Some};
    ghost use Rattle.std.proofs.Common.{rules};
    ghost use Rattle.std.specs.Cmp.{partial_order_from_own_ties};
    ghost use Rattle.std.specs.Cmp.Rules.{comparing};
    ghost use Rattle.std.specs.Cmp.Lexicographic.{slice_cmp};
    ghost use Rattle.std.specs.Ordering.{nat_cmp, as_partial_cmp};

    ghost partial_cmp = { as_partial_cmp (slice_cmp nat_cmp) };

    ghost laws = { partial_order_from_own_ties (Prim.search (comparing, rules)) (Prim.search (comparing, rules)) };

    fn partial_cmp(&self, other: &Word) -> Option<Ordering> {
        Some(self.cmp(other))
    }
}

impl Ord for Word {
    ghost use Rattle.std.proofs.Common.{rules};
    ghost use Rattle.std.specs.Cmp.Rules.{comparing};
    ghost use Rattle.std.specs.Cmp.Lexicographic.{slice_cmp};
    ghost use Rattle.std.specs.Ordering.{nat_cmp};

    ghost cmp = { slice_cmp nat_cmp };

    ghost total = { Prim.search (comparing, rules) };

    ghost matches_partial_cmp = { Prim.search (comparing, rules) };

    ghost matches_eq = { Prim.search (comparing, rules) };

    fn cmp(&self, other: &Word) -> Ordering {
        self.as_str().cmp(other.as_str())
    }
}
