ghost use Rattle.std.specs.Prelude.{◌≡◌, ◌<◌, ◌^◌, ◌+◌, ◌*◌, ◌-◌, ◌++◌, ◌==◌, ◌≤◌, IsTrue, length, Some};
ghost use Rattle.std.specs.Option.{SomeIff};
ghost use Rattle.std.specs.List.{list_all, position_or_len};
ghost use Rattle.std.specs.Char.{is_ascii_digit};
ghost use Rattle.value_core.specs.Digits as spec;
ghost use Rattle.value_core.specs.Numbers.{scaled_of};
ghost use Rattle.value_core.specs.Below.{below};
ghost use Rattle.value_core.specs.After.{number_after};

use crate::slices::after;

/// The digits that are kept after the point: numbers are multiples of 10^-18.
const PLACES: usize = 18;

/// Whether the text begins with `-`.
pub(crate) fn has_minus(text: &[u8]) -> bool
    ensures { result ≡ spec.has_minus text.now }
{
    match text {
        [b'-', ..] => true,
        _ => false,
    }
}

/// The text after its sign, where it has one.
pub(crate) fn unsigned(text: &[u8]) -> &[u8]
    ensures { result.now ≡ spec.unsigned text.now }
{
    match text {
        [b'+' | b'-', rest @ ..] => rest,
        _ => text,
    }
}

/// The place of the first point, or the length where there is none.
fn place_of_point(text: &[u8]) -> usize
    ensures { result ≡ position_or_len (λ c. c == spec.point) text.now }
{
    for (at, c) in text.iter().enumerate() {
        if *c == b'.' {
            return at;
        }
    }
    text.len()
}

/// What stands before and after the first point; nothing stands after where there is none.
pub(crate) fn split_at_point(text: &[u8]) -> (&[u8], &[u8])
    ensures front { result.0.now ≡ spec.front_of text.now }
    ensures back { result.1.now ≡ spec.back_of text.now }
{
    let at = place_of_point(text);
    if at < text.len() {
        (&text[..at], after(text, at + 1))
    } else {
        (text, after(text, text.len()))
    }
}

fn all_digits(text: &[u8]) -> bool
    ensures { result ≡ list_all is_ascii_digit text.now }
{
    text.iter().all(|c| c.is_ascii_digit())
}

/// Whether these are digits, at least one, before and after a point.
pub(crate) fn are_digits(front: &[u8], back: &[u8]) -> bool
    ensures { result ≡ spec.are_digits front.now back.now }
{
    (!front.is_empty() || !back.is_empty()) && all_digits(front) && all_digits(back)
}

fn all_zeros(text: &[u8]) -> bool
    ensures { result ≡ list_all (λ c. c == spec.zero_digit) text.now }
{
    text.iter().all(|c| *c == b'0')
}

fn with_digit(number: u128, digit: u8) -> Option<u128>
    ensures { SomeIff result (number * 10 + (digit - 48) < 2 ^ 128) (number * 10 + (digit - 48)) }
{
    number
        .checked_mul(10)?
        .checked_add(u128::from(digit.saturating_sub(b'0')))
}

/// The number that is written by `start` and then the digits; None from 2^128 on.
fn number_after(start: u128, digits: &[u8]) -> Option<u128>
    ensures { SomeIff result (number_after start digits.now < 2 ^ 128) (number_after start digits.now) }
{
    let mut number = start;
    for digit in digits {
        match with_digit(number, *digit) {
            Some(more) => number = more,
            None => return None,
        }
    }
    Some(number)
}

/// The number that the digits write; None from 2^128 on.
pub(crate) fn whole_of(digits: &[u8]) -> Option<u128>
    ensures { SomeIff result (spec.whole_of digits.now < 2 ^ 128) (spec.whole_of digits.now) }
{
    number_after(0, digits)
}

/// The number that the digits of both write, one after the other; None from 2^128 on.
fn number_of_both(front: &[u8], back: &[u8]) -> Option<u128>
    ensures { SomeIff result (spec.whole_of (front.now ++ back.now) < 2 ^ 128) (spec.whole_of (front.now ++ back.now)) }
{
    match whole_of(front) {
        Some(start) => number_after(start, back),
        None => None,
    }
}

fn scaled_by(front: &[u8], kept: &[u8]) -> Option<u128>
    requires { length kept.now ≤ 18 }
    ensures { result ≡ below (2 ^ 128) (Some (spec.whole_of (front.now ++ kept.now) * 10 ^ (18 - length kept.now))) }
{
    match number_of_both(front, kept) {
        Some(whole) => whole.checked_mul(10u128.pow((PLACES - kept.len()) as u32)),
        None => None,
    }
}

/// The number that digits before and after a point write, times 10^18. None where that is not
/// whole, and from 2^128 on.
pub(crate) fn scaled(front: &[u8], back: &[u8]) -> Option<u128>
    requires { IsTrue (spec.are_digits front.now back.now) }
    ensures { result ≡ below (2 ^ 128) (scaled_of front.now back.now) }
{
    let kept = back.len().min(PLACES);
    if all_zeros(after(back, kept)) {
        scaled_by(front, &back[..kept])
    } else {
        None
    }
}
