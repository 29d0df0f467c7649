//! The numbers of a line.

ghost use Rattle.std.specs.Prelude.{◌≡◌, true, length, take, drop, MatchOption, IfOk};
ghost use Rattle.std.specs.List.{list_all, prefix_len};
ghost use Rattle.std.specs.Char.{is_ascii_digit};
ghost use Rattle.plan_text.specs.Numbers.{has_leading_zero, value_of, BeginsWithNumber, BeginsWithNumbers, NoNumber, NoNumbers};

use graph_model::List;
use std::alloc::{AllocError, Global};
use std::str;

/// How many digits stand at the front.
fn count_digits(text: &[u8]) -> usize
    ensures { result ≡ length (take (prefix_len is_ascii_digit text.now) text.now) }
{
    text.iter().take_while(|byte| byte.is_ascii_digit()).count()
}

/// The digits at the front, and what stands after them.
fn digits_first(text: &[u8]) -> (&[u8], &[u8])
    ensures digits { result.0.now ≡ take (prefix_len is_ascii_digit text.now) text.now }
    ensures rest { result.1.now ≡ drop (prefix_len is_ascii_digit text.now) text.now }
{
    text.split_at(count_digits(text))
}

/// Whether a zero stands before another digit.
fn is_zero_led(digits: &[u8]) -> bool
    ensures { result ≡ has_leading_zero digits.now }
{
    digits.len() > 1 && digits[0] == b'0'
}

/// The number that digits without a leading zero write, below 2^64.
fn value(digits: &[u8]) -> Option<u64>
    requires { list_all is_ascii_digit digits.now ≡ true }
    ensures { result ≡ value_of digits.now }
{
    if is_zero_led(digits) {
        return None;
    }
    match str::from_utf8(digits) {
        Ok(text) => text.parse().ok(),
        Err(_) => None,
    }
}

/// The number at the front, and what stands after it.
fn number(text: &[u8]) -> Option<(u64, &[u8])>
    ensures { MatchOption result (NoNumber text.now) (λ p. BeginsWithNumber text.now p.0 p.1.now) }
{
    let (digits, rest) = digits_first(text);
    match value(digits) {
        Some(number) => Some((number, rest)),
        None => None,
    }
}

/// The numbers of a line, each after a space, and what stands after the line's end.
pub(crate) fn numbers(alloc: Global, text: &[u8]) -> Result<Option<(List<u64>, &[u8])>, AllocError>
    ensures { IfOk result (λ o. MatchOption o (NoNumbers text.now) (λ p. BeginsWithNumbers text.now p.0 p.1.now)) }
{
    let mut found = List::new(alloc);
    let mut rest = text;
    while let Some((first, after)) = rest.split_first() {
        if *first == b'\n' {
            return Ok(Some((found, after)));
        }
        if *first != b' ' {
            return Ok(None);
        }
        let Some((number, next)) = number(after) else {
            return Ok(None);
        };
        found.push(number)?;
        rest = next;
    }
    Ok(None)
}
