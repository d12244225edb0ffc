// How long the canonical texts are.
ghost use Rattle.std.specs.Prelude.{◌≡◌, ◌-◌, ◌^◌, length, min};
ghost use Rattle.geda_grammar.specs.Canonical.{object_text, symbol_text};

use crate::objects::{put_object, put_parts};
use crate::output::Count;
use geda_model::{Object, Symbol};

// The bytes of a version line.
const HEAD_BYTES: u64 = 13;

/// The bytes of an object's canonical text, and 18,446,744,073,709,551,615 where they are more. It
/// takes no memory.
pub fn object_size(object: &Object) -> u64
    ensures size { result ≡ min (length (object_text object.now)) (2 ^ 64 - 1) }
{
    let mut count = Count { bytes: 0 };
    match put_object(&mut count, object) {
        Ok(()) => count.bytes(),
        Err(never) => match never {},
    }
}

/// The bytes of a symbol's canonical text, its version line among them, and
/// 18,446,744,073,709,551,615 where they are more. It takes no memory.
pub fn symbol_size(symbol: &Symbol) -> u64
    ensures size { result ≡ min (length (symbol_text symbol.now)) (2 ^ 64 - 1) }
{
    let mut count = Count { bytes: HEAD_BYTES };
    match put_parts(&mut count, symbol.parts.as_slice()) {
        Ok(()) => count.bytes(),
        Err(never) => match never {},
    }
}
