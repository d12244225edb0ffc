// Numbers of a few digits.
ghost use Rattle.std.specs.Prelude.{◌≡◌, ◌≤◌, MatchOption, length, true, false};
ghost use Rattle.std.specs.List.{list_all};
ghost use Rattle.std.specs.Char.{is_ascii_digit};
ghost use Rattle.std.specs.Str.Parse.{digits_value};
ghost use Rattle.web_heads.specs.Digits.{is_short_number};

/// Whether all of these are digits.
pub fn are_digits(bytes: &[u8]) -> bool
    ensures { result ≡ list_all is_ascii_digit bytes.now }
{
    bytes.iter().all(|byte| byte.is_ascii_digit())
}

/// Whether these are 1 to 10 digits.
fn is_short_number(bytes: &[u8]) -> bool
    ensures { result ≡ is_short_number bytes.now }
{
    if bytes.len() < 1 {
        return false;
    }
    if bytes.len() > 10 {
        return false;
    }
    are_digits(bytes)
}

/// The number that digits give.
fn value_of(digits: &[u8]) -> u64
    requires short { length digits.now ≤ 10 }
    requires digits { list_all is_ascii_digit digits.now ≡ true }
    ensures { result ≡ digits_value 10 digits.now }
{
    let mut value: u64 = 0;
    for byte in digits {
        value = value * 10 + u64::from(*byte - b'0');
    }
    value
}

/// The number that 1 to 10 digits are; none of any other bytes. It takes no memory.
#[tactic(auto, using(crate::proofs::DigitLemmas::is_short, crate::proofs::DigitLemmas::has_digits))]
pub fn short_number(bytes: &[u8]) -> Option<u64>
    ensures { MatchOption result
        (is_short_number bytes.now ≡ false)
        (λ n. (is_short_number bytes.now ≡ true) × (n ≡ digits_value 10 bytes.now)) }
{
    if !is_short_number(bytes) {
        return None;
    }
    Some(value_of(bytes))
}
