// The numbers that words write.
ghost use Rattle.std.specs.Prelude.{◌≡◌, if◌then◌else◌, nat_le, None, Some};
ghost use Rattle.command_words.specs.Commands.{is_number, number_of};

use geda_text::are_digits;

/// The greatest number of steps of the work.
pub const MOST_STEPS: u32 = 100_000;

fn is_number(word: &[u8]) -> bool
    ensures { result ≡ is_number word.now }
{
    if word.is_empty() || word.len() > 10 {
        return false;
    }
    are_digits(word)
}

fn at_most(most: u32, number: u32) -> Option<u32>
    ensures { result ≡ if nat_le number most then Some number else None }
{
    if number <= most { Some(number) } else { None }
}

/// The number that a word of 1 to 10 digits writes, if it is at most so great.
pub fn number_of(most: u32, word: &str) -> Option<u32>
    ensures { result ≡ number_of most word.now }
{
    if !is_number(word.as_bytes()) {
        return None;
    }
    match word.parse::<u32>() {
        Ok(number) => at_most(most, number),
        Err(_) => None,
    }
}
