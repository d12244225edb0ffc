// The sum of a row, in blanks behind it.
ghost use Rattle.std.specs.Prelude.{◌≡◌, ◌++◌, IfOk, MatchOption, List, ℕ, ◌<◌};
ghost use Rattle.std.specs.List.{list_all};
ghost use Rattle.geda_text.specs.Lines.{is_blank};
ghost use Rattle.file_keeper.specs.RowSums.{IsRowPart, bit_blank, byte_blanks, sum_of};

use md5::{Digest, Md5};
use std::alloc::{AllocError, Global};

/// How many blanks a sum has.
const SUM_LENGTH: usize = 32;

/// The blank of the bit of this weight.
#[tactic(auto, using(crate::proofs::SumLemmas::bit_is))]
fn bit_blank(byte: u8, weight: u8) -> u8
    requires { 0 < weight }
    ensures { result ≡ bit_blank byte weight }
{
    if byte / weight % 2 == 1 { b'\t' } else { b' ' }
}

/// The blanks of a byte, its highest bit first.
fn byte_blanks(byte: u8) -> [u8; 8]
    ensures { result ≡ byte_blanks byte }
{
    [
        bit_blank(byte, 128),
        bit_blank(byte, 64),
        bit_blank(byte, 32),
        bit_blank(byte, 16),
        bit_blank(byte, 8),
        bit_blank(byte, 4),
        bit_blank(byte, 2),
        bit_blank(byte, 1),
    ]
}

/// The sum of a row: 32 blanks, which JSON passes over. They are the first 32 bits of its MD5, the
/// highest first, a tab for each that is set and a space for each other one.
#[tactic(auto, using(crate::proofs::SumLemmas::sum_is))]
pub fn sum_of(alloc: Global, row: &[u8]) -> Result<Vec<u8>, AllocError>
    ensures { IfOk result (λ sum. sum.items ≡ sum_of row.now) }
{
    let digest = Md5::digest(row);
    let mut sum = Vec::with_capacity(alloc, SUM_LENGTH)?;
    sum.extend_from_slice(&byte_blanks(digest[0]))?;
    sum.extend_from_slice(&byte_blanks(digest[1]))?;
    sum.extend_from_slice(&byte_blanks(digest[2]))?;
    sum.extend_from_slice(&byte_blanks(digest[3]))?;
    Ok(sum)
}

fn are_blanks(bytes: &[u8]) -> bool
    ensures { result ≡ list_all is_blank bytes.now }
{
    bytes.iter().all(|byte| *byte == b' ' || *byte == b'\t')
}

/// The row of a text: what stands before its sum, or all of it where it ends in no 32 blanks. `None`
/// exactly where they are the sum of another row.
pub fn row_part(alloc: Global, text: &[u8]) -> Result<Option<&[u8]>, AllocError>
    ensures { IfOk result (λ found. MatchOption found
        ((row : List ℕ) → ¬ (IsRowPart text.now row)) (λ row. IsRowPart text.now row.now)) }
{
    let Some((row, blanks)) = text.split_last_chunk::<32>() else {
        return Ok(Some(text));
    };
    if !are_blanks(blanks) {
        return Ok(Some(text));
    }
    if sum_of(alloc, row)?.as_slice() == blanks.as_slice() {
        Ok(Some(row))
    } else {
        Ok(None)
    }
}
