ghost use Rattle.std.specs.Prelude.{◌≡◌, ◌++◌, ◌+◌, ◌/◌, ◌%◌, ◌^◌, ◌<◌, ◌==◌, ◌∷◌, [], not, IfOk, OnOk};
ghost use Rattle.std.specs.String.{string_bytes};
ghost use Rattle.expr_eval.specs.Value as spec;
ghost use Rattle.expr_eval.specs.Written.{number_text, number_term, after_point, last_digits};

use crate::truth::STRING_TYPE;
use rdf_terms::{Memory, Term, TextBuf};
use std::alloc::Global;
use value_core::Number;

const BOOLEAN_TYPE: &str = "http://www.w3.org/2001/XMLSchema#boolean";

const INTEGER_TYPE: &str = "http://www.w3.org/2001/XMLSchema#integer";

const DECIMAL_TYPE: &str = "http://www.w3.org/2001/XMLSchema#decimal";

/// What one is, scaled.
const UNIT: u128 = 1_000_000_000_000_000_000;

/// A truth value as a literal.
pub(crate) fn boolean_term(alloc: Global, truth: bool) -> Result<Term, Memory>
    ensures { IfOk result (λ t. t ≡ spec.boolean_term truth) }
{
    let datatype = TextBuf::from_str(alloc, BOOLEAN_TYPE)?;
    let lexical = TextBuf::from_str(alloc, if truth { "true" } else { "false" })?;
    Ok(Term::literal(lexical, datatype, None))
}

/// A text as a simple literal.
pub(crate) fn string_term(alloc: Global, lexical: TextBuf) -> Result<Term, Memory>
    ensures { IfOk result (λ t. t ≡ spec.string_term lexical) }
{
    let datatype = TextBuf::from_str(alloc, STRING_TYPE)?;
    Ok(Term::literal(lexical, datatype, None))
}

fn push_digit(text: &mut String, parts: u128, place: u32) -> Result<(), Memory>
    requires { place < 18 }
    ensures { OnOk result
        (string_bytes text.new ≡ string_bytes text.old ++ (48 + parts / 10 ^ place % 10) ∷ []) }
{
    let digit = parts / 10u128.pow(place) % 10;
    text.push((b'0' + digit as u8) as char)?;
    Ok(())
}

fn is_left(parts: u128, places: u32) -> bool
    requires { places < 18 }
    ensures { result ≡ not (parts % 10 ^ places == 0) }
{
    parts % 10u128.pow(places) != 0
}

/// Writes the digits after the point: as many as are needed, but at least one.
fn push_fraction(text: &mut String, parts: u128) -> Result<(), Memory>
    ensures { OnOk result
        (string_bytes text.new ≡ string_bytes text.old ++ after_point (last_digits 18 parts)) }
{
    push_digit(text, parts, 17)?;
    let mut places = 17;
    while is_left(parts, places) {
        places -= 1;
        push_digit(text, parts, places)?;
    }
    Ok(())
}

fn number_text(alloc: Global, number: Number) -> Result<String, Memory>
    ensures { IfOk result (λ text. string_bytes text ≡ number_text number) }
{
    let parts = number.scaled.unsigned_abs();
    let front = parts / UNIT;
    let mut text = if number.scaled < 0 {
        format!(in alloc; "-{front}")?
    } else {
        format!(in alloc; "{front}")?
    };
    if !number.whole {
        text.push('.')?;
        push_fraction(&mut text, parts)?;
    }
    Ok(text)
}

/// A number as a literal: of `xsd:integer` where its type is an integer type, else of
/// `xsd:decimal`.
pub(crate) fn number_term(alloc: Global, number: Number) -> Result<Term, Memory>
    ensures { IfOk result (λ t. t ≡ number_term number) }
{
    let lexical = TextBuf::from_string(number_text(alloc, number)?)?;
    let datatype = TextBuf::from_str(
        alloc,
        if number.whole {
            INTEGER_TYPE
        } else {
            DECIMAL_TYPE
        },
    )?;
    Ok(Term::literal(lexical, datatype, None))
}
