ghost use Rattle.std.specs.Prelude.{◌≡◌};
ghost use Rattle.std.specs.Ordering.{int_cmp};
ghost use Rattle.value_core.specs.Digits.{signed};
ghost use Rattle.value_core.specs.Numbers as spec;

use std::cmp::Ordering;

/// A number as a multiple of 10^-18.
#[derive(Clone, Copy, Debug, PartialEq, Eq)]
pub struct Number {
    /// The value times 10^18.
    pub scaled: i128,
    /// Whether its type is an integer type. A computed number is of `xsd:integer` then, and else of
    /// `xsd:decimal`.
    pub whole: bool,
}

/// The order of two numbers by value.
pub fn compare(a: Number, b: Number) -> Ordering
    ensures { result ≡ int_cmp a.scaled b.scaled }
{
    a.scaled.cmp(&b.scaled)
}

/// The sum. It is of an integer type exactly where both numbers are. None where it leaves `i128`.
pub fn add(a: Number, b: Number) -> Option<Number>
    ensures { result ≡ spec.sum_of a b }
{
    let scaled = a.scaled.checked_add(b.scaled)?;
    Some(Number {
        scaled,
        whole: a.whole && b.whole,
    })
}

/// The difference. It is of an integer type exactly where both numbers are. None where it leaves
/// `i128`.
pub fn sub(a: Number, b: Number) -> Option<Number>
    ensures { result ≡ spec.difference_of a b }
{
    let scaled = a.scaled.checked_sub(b.scaled)?;
    Some(Number {
        scaled,
        whole: a.whole && b.whole,
    })
}

/// The integer with that sign, where `i128` holds it.
pub(crate) fn with_sign(negative: bool, magnitude: u128) -> Option<i128>
    ensures { result ≡ spec.held (signed negative magnitude) }
{
    if negative {
        0i128.checked_sub_unsigned(magnitude)
    } else {
        0i128.checked_add_unsigned(magnitude)
    }
}
