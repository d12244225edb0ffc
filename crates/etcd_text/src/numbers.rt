// Numbers of 64 bits, as strings of digits.
ghost use Rattle.std.specs.Prelude.{◌≡◌};
ghost use Rattle.etcd_text.specs.Numbers as numbers;

/// Before its last digit a number has at most 18 digits.
const MOST: u64 = 1_000_000_000_000_000_000;

fn is_decimal(byte: u8) -> bool
    ensures { result ≡ numbers.is_decimal byte }
{
    byte >= b'0' && byte <= b'9'
}

/// The number of digits.
#[tactic(auto, unfolding(crate::specs::Numbers::digits_from))]
fn digits(bytes: &[u8]) -> Option<u64>
    ensures { result ≡ numbers.digits_from 0 bytes.now }
{
    let mut value = 0u64;
    let mut rest = bytes;
    while let [byte, after @ ..] = rest {
        if !is_decimal(*byte) {
            return None;
        }
        if value >= MOST {
            return None;
        }
        value = value * 10 + u64::from(*byte - b'0');
        rest = after;
    }
    Some(value)
}

/// The number that digits are; none of any other bytes, and of none at all. It takes no memory.
pub fn string_number(bytes: &[u8]) -> Option<u64>
    ensures { result ≡ numbers.string_number bytes.now }
{
    match bytes {
        [] => None,
        [..] => digits(bytes),
    }
}
