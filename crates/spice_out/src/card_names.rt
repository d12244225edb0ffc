// What a printed refdes says of a card.
ghost use Rattle.std.specs.Prelude.{◌≡◌, ◌++◌, ◌∷◌, [], IfOk, OnOk, map};
ghost use Rattle.std.specs.List.{flat_map};
ghost use Rattle.spice_out.specs.Cards.{card_letter, card_name, folded, name_byte, pieces};
ghost use Rattle.spice_out.specs.Cards.{pin_count, pins_of_letter};
ghost use Rattle.spice_out.specs.steps.CardNames.{letter_in, seen};

use std::alloc::{AllocError, Global};

fn pieces(alloc: Global, refdes: &str) -> Result<Vec<&[u8]>, AllocError>
    ensures { IfOk result (λ found. seen found.items ≡ pieces refdes.now) }
{
    refdes.as_bytes().split(|byte| *byte == b'/').collect(alloc)
}

fn first_upper(piece: &[u8]) -> Option<u8>
    ensures { result ≡ letter_in piece.now }
{
    match piece {
        [] => None,
        [first, ..] => Some(first.to_ascii_uppercase()),
    }
}

/// The letter of a card: the first byte of the last piece, in upper case.
fn letter_of(alloc: Global, refdes: &str) -> Result<Option<u8>, AllocError>
    ensures { IfOk result (λ letter. letter ≡ card_letter refdes.now) }
{
    let pieces = pieces(alloc, refdes)?;
    match pieces.as_slice() {
        [] => Ok(None),
        [.., last] => Ok(first_upper(last)),
    }
}

fn pins_of_letter(many: usize, letter: u8) -> Option<usize>
    ensures { result ≡ pins_of_letter many letter }
{
    match letter {
        b'R' | b'C' | b'L' | b'V' | b'I' | b'D' => Some(2),
        b'Q' => Some(3),
        b'M' => Some(4),
        b'X' => Some(many),
        _ => None,
    }
}

/// How many pins the card of a package has that has so many pins itself. `None` exactly where there
/// is no card.
pub fn pin_count(alloc: Global, refdes: &str, many: usize) -> Result<Option<usize>, AllocError>
    ensures { IfOk result (λ count. count ≡ pin_count refdes.now many) }
{
    match letter_of(alloc, refdes)? {
        Some(letter) => Ok(pins_of_letter(many, letter)),
        None => Ok(None),
    }
}

fn name_byte(byte: u8) -> u8
    ensures { result ≡ name_byte byte }
{
    if byte.is_ascii_alphanumeric() {
        byte
    } else {
        b'_'
    }
}

fn put_piece(name: &mut Vec<u8>, piece: &[u8]) -> Result<(), AllocError>
    ensures { OnOk result (name.new.items ≡ name.old.items ++ map name_byte piece.now) }
{
    for byte in piece {
        name.push(name_byte(*byte))?;
    }
    Ok(())
}

fn put_earlier(name: &mut Vec<u8>, pieces: &[&[u8]]) -> Result<(), AllocError>
    ensures { OnOk result (name.new.items ≡ name.old.items
        ++ flat_map (λ piece. 95 ∷ map name_byte piece) (seen pieces.now)) }
{
    for piece in pieces {
        name.push(b'_')?;
        put_piece(name, piece)?;
    }
    Ok(())
}

/// The name of the card of a refdes.
pub fn card_name(alloc: Global, refdes: &str) -> Result<Vec<u8>, AllocError>
    ensures { IfOk result (λ name. name.items ≡ card_name refdes.now) }
{
    let pieces = pieces(alloc, refdes)?;
    let mut name = Vec::new(alloc);
    if let Some((last, earlier)) = pieces.split_last() {
        put_piece(&mut name, last)?;
        put_earlier(&mut name, earlier)?;
    }
    Ok(name)
}

/// A name without regard to ASCII case.
pub fn folded(alloc: Global, name: &[u8]) -> Result<Vec<u8>, AllocError>
    ensures { IfOk result (λ text. text.items ≡ folded name.now) }
{
    let mut text = Vec::with_capacity(alloc, name.len())?;
    for byte in name {
        text.push(byte.to_ascii_lowercase())?;
    }
    Ok(text)
}
