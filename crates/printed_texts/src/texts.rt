// Single texts, byte by byte.
ghost use Rattle.std.specs.Prelude.{◌≡◌, ◌++◌, OnOk, nat_lt};
ghost use Rattle.std.specs.List.{list_all};
ghost use Rattle.printed_texts.specs.PrintedTexts.{flat, flat_byte, is_break, word, word_byte};

use std::alloc::AllocError;

fn is_break(byte: u8) -> bool
    ensures { result ≡ is_break byte }
{
    byte == b'\t' || byte == b'\n' || byte == b'\r'
}

fn word_byte(byte: u8) -> u8
    ensures { result ≡ word_byte byte }
{
    if byte == b' ' || is_break(byte) {
        b'_'
    } else {
        byte
    }
}

fn flat_byte(byte: u8) -> u8
    ensures { result ≡ flat_byte byte }
{
    if is_break(byte) { b' ' } else { byte }
}

// Each byte is above all that print in a word as another one.
fn stays_in_word(text: &[u8]) -> bool
    ensures { result ≡ list_all (λ b. nat_lt 32 b) text.now }
{
    text.iter().all(|byte| *byte > b' ')
}

/// Writes a text in which each space, tab, CR and LF becomes `_` (docs/FORMATS.md, "List text").
pub fn put_word(out: &mut Vec<u8>, text: &[u8]) -> Result<(), AllocError>
    ensures { OnOk result (out.new.items ≡ out.old.items ++ word text.now) }
{
    // Most texts have none of these, and go out as one piece.
    if stays_in_word(text) {
        return out.extend_from_slice(text);
    }
    for byte in text {
        out.push(word_byte(*byte))?;
    }
    Ok(())
}

/// Writes a text in which each tab, CR and LF becomes a space.
pub fn put_flat(out: &mut Vec<u8>, text: &[u8]) -> Result<(), AllocError>
    ensures { OnOk result (out.new.items ≡ out.old.items ++ flat text.now) }
{
    for byte in text {
        out.push(flat_byte(*byte))?;
    }
    Ok(())
}
