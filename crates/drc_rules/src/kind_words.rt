// The words of a conflict.
ghost use Rattle.std.specs.Prelude.{◌≡◌, ◌++◌, ◌∷◌, IfOk};
ghost use Rattle.drc_rules.specs.OnNets.{conflict_words, kind_word};

use attr_rules::PinKind;
use geda_model::Line;
use printed_texts::Words;
use std::alloc::{AllocError, Global};

fn kind_word(kind: PinKind) -> &'static str
    ensures { result.now ≡ kind_word kind }
{
    match kind {
        PinKind::Unknown => "unknown",
        PinKind::In => "in",
        PinKind::Out => "out",
        PinKind::Io => "io",
        PinKind::Oc => "oc",
        PinKind::Oe => "oe",
        PinKind::Pas => "pas",
        PinKind::Tp => "tp",
        PinKind::Tri => "tri",
        PinKind::Clk => "clk",
        PinKind::Pwr => "pwr",
        PinKind::Unconnected => "unconnected",
    }
}

#[tactic(auto, using(printed_texts::proofs::WordLemmas::mark_assoc, crate::proofs::KindLemmas::kind_again))]
fn with_kind(words: Words, kind: PinKind) -> Result<Words, AllocError>
    ensures { IfOk result (λ more. more ≡ words ++ 32 ∷ kind_word kind) }
{
    words.mark(b' ')?.word(kind_word(kind))
}

/// The name of a net and two kinds, parted by spaces.
#[tactic(auto, using(printed_texts::proofs::WordLemmas::words_assoc))]
pub fn conflict_words(
    alloc: Global,
    name: &str,
    first: PinKind,
    second: PinKind,
) -> Result<Line, AllocError>
    ensures { IfOk result (λ line. line ≡ conflict_words name.now first second) }
{
    let words = with_kind(Words::new(alloc).word(name)?, first)?;
    with_kind(words, second)?.line(alloc)
}
