// The keys of a board.
ghost use Rattle.std.specs.Prelude.{◌≡◌, IfOk};
ghost use Rattle.std.specs.String.{string_bytes};
ghost use Rattle.etcd_text.specs.Keys as keys;

use base64::engine::general_purpose::STANDARD;
use std::alloc::{AllocError, Global};

/// The key of who may write.
pub fn owner_key(alloc: Global, board: &str) -> Result<String, AllocError>
    ensures { IfOk result (λ t. string_bytes t ≡ keys.in_base64 (keys.owner_key board.now)) }
{
    let key = format!(in alloc; "{board}/owner")?;
    STANDARD.encode(alloc, key.as_bytes())
}

/// A number in ten digits.
fn ten_digits(alloc: Global, number: u32) -> Result<String, AllocError>
    ensures { IfOk result (λ t. string_bytes t ≡ keys.ten_digits number) }
{
    format!(in alloc; "{number:010}")
}

/// The key of a row.
pub fn row_key(alloc: Global, board: &str, serial: u32) -> Result<String, AllocError>
    ensures { IfOk result (λ t. string_bytes t ≡ keys.in_base64 (keys.row_key board.now serial)) }
{
    let digits = ten_digits(alloc, serial)?;
    let key = format!(in alloc; "{board}/row/{digits}")?;
    STANDARD.encode(alloc, key.as_bytes())
}

/// The key behind those of all rows.
pub fn rows_end(alloc: Global, board: &str) -> Result<String, AllocError>
    ensures { IfOk result (λ t. string_bytes t ≡ keys.in_base64 (keys.rows_end board.now)) }
{
    let key = format!(in alloc; "{board}/row/:")?;
    STANDARD.encode(alloc, key.as_bytes())
}
