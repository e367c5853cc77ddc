ghost use Rattle.std.specs.Prelude.{◌≡◌, IsTrue};
ghost use Rattle.value_core.specs.Datatypes.{is_within};
ghost use Rattle.value_core.specs.Digits.{are_digits, integer_of};
ghost use Rattle.value_core.specs.Numbers as spec;

use crate::datatypes::{Datatype, datatype_of};
use crate::digits::{are_digits, has_minus, scaled, split_at_point, unsigned, whole_of};
use crate::numbers::{Number, with_sign};

fn integer_of(text: &[u8]) -> Option<i128>
    ensures { result ≡ spec.held (integer_of text.now) }
{
    let magnitude = whole_of(unsigned(text))?;
    with_sign(has_minus(text), magnitude)
}

fn is_within(low: Option<i128>, high: Option<i128>, text: &[u8]) -> bool
    ensures { result ≡ is_within low high (integer_of text.now) }
{
    match integer_of(text) {
        Some(value) => {
            low.is_none_or(|low| low <= value) && high.is_none_or(|high| value <= high)
        }
        None if has_minus(text) => low.is_none(),
        None => high.is_none(),
    }
}

fn is_integer(low: Option<i128>, high: Option<i128>, text: &[u8]) -> bool
    ensures { result ≡ spec.is_integer low high text.now }
{
    are_digits(unsigned(text), &[]) && is_within(low, high, text)
}

fn is_decimal(text: &[u8]) -> bool
    ensures { result ≡ spec.is_decimal text.now }
{
    let (front, back) = split_at_point(unsigned(text));
    are_digits(front, back)
}

fn number_from(whole: bool, negative: bool, front: &[u8], back: &[u8]) -> Option<Number>
    requires { IsTrue (are_digits front.now back.now) }
    ensures { result ≡ spec.number_from whole negative front.now back.now }
{
    let scaled = with_sign(negative, scaled(front, back)?)?;
    Some(Number { scaled, whole })
}

fn integer_number(low: Option<i128>, high: Option<i128>, text: &[u8]) -> Option<Number>
    ensures { result ≡ spec.integer_number low high text.now }
{
    if is_integer(low, high, text) {
        number_from(true, has_minus(text), unsigned(text), &[])
    } else {
        None
    }
}

fn decimal_number(text: &[u8]) -> Option<Number>
    ensures { result ≡ spec.decimal_number text.now }
{
    let (front, back) = split_at_point(unsigned(text));
    if are_digits(front, back) {
        number_from(false, has_minus(text), front, back)
    } else {
        None
    }
}

fn truth_of(text: &str) -> Option<bool>
    ensures { result ≡ spec.truth_of text.now }
{
    if text == "true" || text == "1" {
        Some(true)
    } else if text == "false" || text == "0" {
        Some(false)
    } else {
        None
    }
}

/// The number that a form stands for at a datatype. None where the datatype is not numeric, the
/// form is not valid for it, or 10^18 times the number is not whole or leaves `i128`.
#[tactic(auto, unfolding(crate::specs::Numbers::number_of))]
pub fn number_of(lexical: &str, datatype: &str) -> Option<Number>
    ensures { result ≡ spec.number_of lexical.now datatype.now }
{
    match datatype_of(datatype) {
        Datatype::Integer { low, high } => integer_number(low, high, lexical.as_bytes()),
        Datatype::Decimal => decimal_number(lexical.as_bytes()),
        Datatype::Boolean | Datatype::Other => None,
    }
}

/// The truth value that a form stands for at a datatype. None where that is not `xsd:boolean`, or
/// the form is not valid for it.
#[tactic(auto, unfolding(crate::specs::Numbers::boolean_of))]
pub fn boolean_of(lexical: &str, datatype: &str) -> Option<bool>
    ensures { result ≡ spec.boolean_of lexical.now datatype.now }
{
    match datatype_of(datatype) {
        Datatype::Boolean => truth_of(lexical),
        _ => None,
    }
}

/// Whether a form is valid for a datatype that is numeric or `xsd:boolean`. False at any other.
#[tactic(auto, unfolding(crate::specs::Numbers::is_well_formed))]
pub fn well_formed(lexical: &str, datatype: &str) -> bool
    ensures { result ≡ spec.is_well_formed lexical.now datatype.now }
{
    match datatype_of(datatype) {
        Datatype::Integer { low, high } => is_integer(low, high, lexical.as_bytes()),
        Datatype::Decimal => is_decimal(lexical.as_bytes()),
        Datatype::Boolean => truth_of(lexical).is_some(),
        Datatype::Other => false,
    }
}

/// Whether the datatype is one whose forms are judged: an integer type, `xsd:decimal` or
/// `xsd:boolean`.
#[tactic(auto, unfolding(crate::specs::Numbers::has_value_space))]
pub fn has_value_space(datatype: &str) -> bool
    ensures { result ≡ spec.has_value_space datatype.now }
{
    !matches!(datatype_of(datatype), Datatype::Other)
}
