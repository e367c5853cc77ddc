ghost use Rattle.std.specs.Prelude.{◌≡◌, bytes_eq, is_some};
ghost use Rattle.std.specs.Option.{option_copied};
ghost use Rattle.expr_eval.specs.Names.{string_type};
ghost use Rattle.expr_eval.specs.Truth as spec;

use crate::CompareOp;
use rdf_terms::{Term, is_same_term};
use std::cmp::Ordering;
use value_core::{Number, boolean_of, compare, has_value_space, number_of, well_formed};

/// The datatype of simple literals.
pub(crate) const STRING_TYPE: &str = "http://www.w3.org/2001/XMLSchema#string";

/// Whether the datatype is `xsd:string`.
pub(crate) fn is_string_type(datatype: &str) -> bool
    ensures { result ≡ bytes_eq datatype.now string_type }
{
    datatype == STRING_TYPE
}

/// The number that a term stands for, where it has one.
pub(crate) fn number_in(term: &Term) -> Option<Number>
    ensures { result ≡ spec.number_in term.now }
{
    match term {
        Term::Literal {
            datatype,
            lexical,
            ..
        } => number_of(lexical.as_str(), datatype.as_str()),
        _ => None,
    }
}

fn boolean_in(term: &Term) -> Option<bool>
    ensures { result ≡ spec.boolean_in term.now }
{
    match term {
        Term::Literal {
            datatype,
            lexical,
            ..
        } => boolean_of(lexical.as_str(), datatype.as_str()),
        _ => None,
    }
}

fn string_in(term: &Term) -> Option<&str>
    ensures { option_copied result ≡ spec.string_in term.now }
{
    match term {
        Term::Literal {
            datatype,
            lexical,
            ..
        } if is_string_type(datatype.as_str()) => Some(lexical.as_str()),
        _ => None,
    }
}

fn is_literal(term: &Term) -> bool
    ensures { result ≡ spec.is_literal term.now }
{
    matches!(term, Term::Literal { .. })
}

/// The effective boolean value of a term (SPARQL 1.1, section 17.2.2); None is the type error.
pub fn ebv(term: &Term) -> Option<bool>
    ensures { result ≡ spec.truth_of_term term.now }
{
    let Term::Literal {
        datatype,
        tag,
        lexical,
    } = term
    else {
        return None;
    };
    let (datatype, lexical) = (datatype.as_str(), lexical.as_str());
    if let Some(truth) = boolean_of(lexical, datatype) {
        Some(truth)
    } else if is_string_type(datatype) || tag.is_some() {
        Some(!lexical.is_empty())
    } else if let Some(number) = number_of(lexical, datatype) {
        Some(number.scaled != 0)
    } else if has_value_space(datatype) && !well_formed(lexical, datatype) {
        Some(false)
    } else {
        None
    }
}

fn equal_otherwise(a: &Term, b: &Term) -> Option<bool>
    ensures { result ≡ spec.equal_otherwise a.now b.now }
{
    if is_same_term(a, b) {
        Some(true)
    } else if string_in(a).is_some() && string_in(b).is_some() {
        Some(false)
    } else if is_literal(a) && is_literal(b) {
        None
    } else {
        Some(false)
    }
}

/// Whether `a = b`; None is the type error. Numbers and booleans go by value. Two other literals
/// that differ are not comparable, unless both are of `xsd:string`.
pub fn equal(a: &Term, b: &Term) -> Option<bool>
    ensures { result ≡ spec.equal_of a.now b.now }
{
    if let (Some(m), Some(n)) = (number_in(a), number_in(b)) {
        return Some(m.scaled == n.scaled);
    }
    if let (Some(p), Some(q)) = (boolean_in(a), boolean_in(b)) {
        return Some(p == q);
    }
    equal_otherwise(a, b)
}

/// Whether `a < b`; None is the type error. Numbers go by value, strings by code point, and false
/// comes before true.
pub fn less(a: &Term, b: &Term) -> Option<bool>
    ensures { result ≡ spec.less_of a.now b.now }
{
    if let (Some(m), Some(n)) = (number_in(a), number_in(b)) {
        return Some(compare(m, n) == Ordering::Less);
    }
    if let (Some(s), Some(t)) = (string_in(a), string_in(b)) {
        return Some(s < t);
    }
    if let (Some(p), Some(q)) = (boolean_in(a), boolean_in(b)) {
        return Some(!p && q);
    }
    None
}

/// Whether the comparison holds; None is the type error.
pub(crate) fn compared(op: CompareOp, a: &Term, b: &Term) -> Option<bool>
    ensures { result ≡ spec.compared op a.now b.now }
{
    match op {
        CompareOp::Equal => equal(a, b),
        CompareOp::NotEqual => equal(a, b).map(|equal| !equal),
        CompareOp::Less => less(a, b),
        CompareOp::LessEqual => less(b, a).map(|less| !less),
        CompareOp::Greater => less(b, a),
        CompareOp::GreaterEqual => less(a, b).map(|less| !less),
    }
}
