// Names that print as they are.
ghost use Rattle.std.specs.Prelude.{◌≡◌, map};
ghost use Rattle.std.specs.List.{list_all};
ghost use Rattle.text_tallies.specs.steps.PlainNames.{is_plain, is_plain_byte};

#[tactic(auto, using(crate::proofs::PlainLemmas::plain_above))]
fn is_plain_byte(byte: u8) -> bool
    ensures { result ≡ is_plain_byte byte }
{
    // Most bytes are above all that are not plain.
    if byte > b' ' {
        return true;
    }
    !(byte == b' ' || byte == b'\t' || byte == b'\n' || byte == b'\r')
}

fn is_plain(name: &str) -> bool
    ensures { result ≡ is_plain name.now }
{
    name.as_bytes().iter().all(|byte| is_plain_byte(*byte))
}

/// Whether all names have no space, tab, CR or LF. It takes no memory.
pub fn are_plain(names: &[&str]) -> bool
    ensures { result ≡ list_all is_plain (map (λ n. n.now) names.now) }
{
    for name in names {
        if !is_plain(name) {
            return false;
        }
    }
    true
}
