//! The numbers among the words.

ghost use Rattle.std.specs.Prelude.{◌≡◌};
ghost use Rattle.std.specs.List.{list_all};
ghost use Rattle.std.specs.Char.{is_ascii_digit};
ghost use Rattle.command_words.specs.Numbers.{is_numeral, number_of, number_within};

fn is_all_digits(text: &str) -> bool
    ensures { result ≡ list_all is_ascii_digit text.now }
{
    text.bytes().all(|byte| byte.is_ascii_digit())
}

/// Whether a text is 1 to 20 decimal digits.
pub(crate) fn is_numeral(text: &str) -> bool
    ensures { result ≡ is_numeral text.now }
{
    text.len() <= 20 && !text.is_empty() && is_all_digits(text)
}

/// The number that a text spells with 1 to 20 decimal digits, if it is below 2^64.
pub(crate) fn number(text: &str) -> Option<u64>
    ensures { result ≡ number_of text.now }
{
    match is_numeral(text) {
        true => text.parse().ok(),
        false => None,
    }
}

/// The number that a text spells, if it lies from `least` to `greatest`.
pub(crate) fn number_within(text: &str, least: u32, greatest: u32) -> Option<u32>
    ensures { result ≡ number_within least greatest text.now }
{
    number(text)
        .filter(|number| u64::from(least) <= *number && *number <= u64::from(greatest))
        .map(|number| number as u32)
}
