// Numbers, as fields spell them.
ghost use Rattle.std.specs.Prelude.{◌≡◌, ◌<◌, length, true, IfSome};
ghost use Rattle.std.specs.List.{list_all};
ghost use Rattle.std.specs.Char.{is_ascii_digit};
ghost use Rattle.std.specs.Str.Parse.{digits_value};
ghost use Rattle.geda_text.specs.Lines.{digits_of, whole_of};

/// Whether all bytes are ASCII digits. It takes no memory.
pub fn are_digits(field: &[u8]) -> bool
    ensures { result ≡ list_all is_ascii_digit field.now }
{
    field.iter().all(|byte| byte.is_ascii_digit())
}

/// The number that 1 to 9 digits spell. `None` exactly for any other field. It takes no memory.
#[tactic(auto, unfolding(crate::specs::Lines::digits_of))]
pub fn natural(field: &[u8]) -> Option<u32>
    ensures value { result ≡ digits_of field.now }
    ensures small { IfSome result (λ n. n < 1000000000) }
{
    if field.is_empty() || field.len() > 9 {
        return None;
    }
    let mut value: u32 = 0;
    for byte in field {
        if !byte.is_ascii_digit() {
            return None;
        }
        value = value * 10 + u32::from(*byte - b'0');
    }
    Some(value)
}

/// The number that a field spells: an optional minus sign, and 1 to 9 digits. `None` exactly for
/// any other field. It takes no memory.
#[tactic(auto, unfolding(crate::specs::Lines::whole_of))]
pub fn whole(field: &[u8]) -> Option<i32>
    ensures { result ≡ whole_of field.now }
{
    match field {
        [b'-', rest @ ..] => {
            let number = natural(rest)?;
            Some(-(number as i32))
        }
        _ => {
            let number = natural(field)?;
            Some(number as i32)
        }
    }
}
