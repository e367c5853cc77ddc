ghost use Rattle.std.specs.Prelude.{◌≡◌, ◌<◌, ◌≤◌};
ghost use Rattle.terminals.specs.Rules as rule;
ghost use Rattle.terminals.specs.Terminals as terminal;

use crate::class::class_of;

/// The number of an escape with one more hexadecimal digit; all numbers past the last code point
/// count as one.
pub fn with_digit(number: u32, digit: u8) -> u32
    ensures { result ≡ rule.with_digit number digit }
{
    (16 * u64::from(number) + u64::from(digit)).min(0x110000) as u32
}

/// Whether the number is a Unicode scalar value: a code point that is no surrogate.
pub fn is_scalar(number: u32) -> bool
    ensures { result ≡ terminal.is_scalar number }
{
    number < 0x110000 && !(0xd800 <= number && number < 0xe000)
}

/// Whether an escape in an IRIREF may give the number: a character that could stand there itself.
pub fn is_iri_code(number: u32) -> bool
    ensures { result ≡ terminal.is_iri_code number }
{
    is_scalar(number) && class_of(number).is_iri()
}
