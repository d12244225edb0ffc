// The texts before numbers.
ghost use Rattle.std.specs.Prelude.{◌≡◌};
ghost use Rattle.refdes_renum.specs.Numbers.{ends_in_mark, stem_of};

/// Whether a text ends in `?`.
pub(crate) fn ends_open(text: &[u8]) -> bool
    ensures { result ≡ ends_in_mark text.now }
{
    if text.is_empty() {
        return false;
    }
    text[text.len() - 1] == b'?'
}

/// The text without all `?` at its end.
#[tactic(auto, using(crate::proofs::StemLemmas::stem_shorter, crate::proofs::StemLemmas::stem_ends))]
pub(crate) fn stem_of(text: &str) -> &str
    ensures { result.now ≡ stem_of text.now }
{
    let mut rest = text;
    while ends_open(rest.as_bytes()) {
        rest = &rest[..rest.len() - 1];
    }
    rest
}
