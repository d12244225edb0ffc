// Numbers, written from the last to the first into bytes whose end is known.
ghost use Rattle.std.specs.Prelude.{◌≡◌, ◌+◌, ◌*◌, ◌≤◌, ◌∷◌, ◌++◌, length, drop};
ghost use Rattle.std.specs.Fmt.{signed_decimal};
ghost use Rattle.geda_write.specs.steps.Texts.{numbers_text};

use itoa::write_digits;

// Writes a number so that it ends at `end`, and returns where it starts.
#[inline(always)]
fn write_signed(number: i32, bytes: &mut [u8], end: usize) -> usize
    requires { (11 ≤ end) × (end ≤ length bytes.old) }
    ensures start { (end ≤ result + 11) × (result ≤ end) }
    ensures written { drop result bytes.new ≡ signed_decimal number ++ drop end bytes.old }
{
    let start = write_digits(u64::from(number.unsigned_abs()), bytes, end);
    if number >= 0 {
        return start;
    }
    bytes[start - 1] = b'-';
    start - 1
}

// The same behind a space.
#[inline(always)]
fn write_number(number: i32, bytes: &mut [u8], end: usize) -> usize
    requires { (12 ≤ end) × (end ≤ length bytes.old) }
    ensures start { (end ≤ result + 12) × (result ≤ end) }
    ensures written { drop result bytes.new ≡ (32 ∷ signed_decimal number) ++ drop end bytes.old }
{
    let start = write_signed(number, bytes, end);
    bytes[start - 1] = b' ';
    start - 1
}

// Writes numbers, each behind a space, so that they end at `end`, and returns where they start.
pub(crate) fn write_numbers(numbers: &[i32], bytes: &mut [u8], end: usize) -> usize
    requires { (length numbers.now * 12 ≤ end) × (end ≤ length bytes.old) }
    ensures start { (end ≤ result + length numbers.now * 12) × (result ≤ end) }
    ensures written { drop result bytes.new ≡ numbers_text numbers.now ++ drop end bytes.old }
{
    let mut start = end;
    let mut left = numbers.len();
    while left > 0 {
        left -= 1;
        start = write_number(numbers[left], bytes, start);
    }
    start
}
