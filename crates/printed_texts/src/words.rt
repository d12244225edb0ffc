// Lines that are written word by word.
ghost use Rattle.std.specs.Prelude.{◌≡◌, ◌≢◌, ◌<◌, ◌++◌, ◌∷◌, [], IfOk, decimal};
ghost use Rattle.geda_model.specs.Names.{IsLine};
ghost use Rattle.printed_texts.specs.PrintedTexts.{numbered_words, pin_words, two_words, word};

use crate::texts::put_word;
use geda_model::{Line, NameFault};
use std::alloc::{AllocError, Global};
use std::marker::Model;

fn line_of(alloc: Global, text: &str) -> Result<Line, AllocError>
    requires { IsLine text.now }
    ensures { IfOk result (λ line. line ≡ text.now) }
{
    match Line::new(alloc, text) {
        Ok(line) => Ok(line),
        Err(NameFault::NoMemory) => Err(AllocError),
        Err(NameFault::NotAName) => unreachable!(),
    }
}

/// A line that is written word by word.
#[derive(Drop)]
pub struct Words {
    bytes: Vec<u8>,
}

impl Model for Words {
    ghost use Rattle.std.specs.Prelude.{List, ℕ};
    ghost use Rattle.geda_model.specs.Names.{IsLine};

    ghost Value = { List ℕ };

    ghost view = { λ w. w.bytes.items };

    ghost invariant = { λ w. IsLine w.bytes.items };
}

impl Words {
    /// Without words. It takes no memory.
    #[tactic(auto, using(crate::proofs::WordLemmas::empty_line))]
    pub fn new(alloc: Global) -> Words
        ensures { result ≡ [] }
    {
        Words {
            bytes: Vec::new(alloc),
        }
    }

    /// These, and a text in which each space, tab, CR and LF becomes `_`.
    #[tactic(auto, using(crate::proofs::WordLemmas::line_and_word))]
    pub fn word(self, text: &str) -> Result<Words, AllocError>
        ensures { IfOk result (λ words. words ≡ self ++ word text.now) }
    {
        let Words { mut bytes } = self;
        put_word(&mut bytes, text.as_bytes())?;
        Ok(Words { bytes })
    }

    /// These, and a mark.
    #[tactic(auto, using(crate::proofs::WordLemmas::line_and_mark))]
    pub fn mark(self, mark: u8) -> Result<Words, AllocError>
        requires ascii { mark < 128 }
        requires no_feed { mark ≢ 10 }
        ensures { IfOk result (λ words. words ≡ self ++ mark ∷ []) }
    {
        let Words { mut bytes } = self;
        bytes.push(mark)?;
        Ok(Words { bytes })
    }

    /// These, a space, and a number.
    #[tactic(auto, using(crate::proofs::WordLemmas::mark_assoc, crate::proofs::DigitLemmas::number_again))]
    pub fn next_number(self, alloc: Global, number: u32) -> Result<Words, AllocError>
        ensures { IfOk result (λ words. words ≡ self ++ 32 ∷ decimal number) }
    {
        let text = format!(in alloc; "{number}")?;
        self.mark(b' ')?.word(text.as_str())
    }

    /// The line that they are.
    pub fn line(self, alloc: Global) -> Result<Line, AllocError>
        ensures { IfOk result (λ line. line ≡ self) }
    {
        match str::from_utf8(self.bytes.as_slice()) {
            Ok(text) => line_of(alloc, text),
            Err(_) => unreachable!(),
        }
    }
}

/// A name by itself.
pub fn name_words(alloc: Global, name: &str) -> Result<Line, AllocError>
    ensures { IfOk result (λ line. line ≡ word name.now) }
{
    Words::new(alloc).word(name)?.line(alloc)
}

/// A pin: refdes, `-`, number.
#[tactic(auto, using(crate::proofs::WordLemmas::mark_assoc))]
pub fn pin_words(alloc: Global, refdes: &str, number: &str) -> Result<Line, AllocError>
    ensures { IfOk result (λ line. line ≡ pin_words refdes.now number.now) }
{
    let words = Words::new(alloc).word(refdes)?.mark(b'-')?.word(number)?;
    words.line(alloc)
}

/// Two names, parted by a space.
#[tactic(auto, using(crate::proofs::WordLemmas::mark_assoc))]
pub fn pair_words(alloc: Global, first: &str, second: &str) -> Result<Line, AllocError>
    ensures { IfOk result (λ line. line ≡ two_words (word first.now) (word second.now)) }
{
    let words = Words::new(alloc).word(first)?.mark(b' ')?.word(second)?;
    words.line(alloc)
}

/// A name and a number, parted by a space.
pub fn numbered_words(alloc: Global, name: &str, number: u32) -> Result<Line, AllocError>
    ensures { IfOk result (λ line. line ≡ numbered_words name.now number) }
{
    let words = Words::new(alloc).word(name)?;
    words.next_number(alloc, number)?.line(alloc)
}
