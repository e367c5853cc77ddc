//! Terms.

ghost use Rattle.std.specs.Prelude.{◌≡◌, ◌++◌, IfOk};
ghost use Rattle.algebra_translation.specs.Translation as spec;

use expr_eval::Sign;
use rdf_terms::{Memory, Term, TextBuf};
use std::alloc::Global;

const STRING_TYPE: &str = "http://www.w3.org/2001/XMLSchema#string";

const BOOLEAN_TYPE: &str = "http://www.w3.org/2001/XMLSchema#boolean";

const LANG_STRING_TYPE: &str = "http://www.w3.org/1999/02/22-rdf-syntax-ns#langString";

const TYPE_IRI: &str = "http://www.w3.org/1999/02/22-rdf-syntax-ns#type";

/// The predicate that the verb `a` stands for.
pub fn type_iri(alloc: Global) -> Result<Term, Memory>
    ensures { IfOk result (λ t. t ≡ spec.type_iri) }
{
    Ok(Term::Iri(TextBuf::from_str(alloc, TYPE_IRI)?))
}

/// A string without a tag or a datatype.
pub fn plain_text(alloc: Global, text: &TextBuf) -> Result<Term, Memory>
    ensures { IfOk result (λ t. t ≡ spec.plain_text text.now) }
{
    let datatype = TextBuf::from_str(alloc, STRING_TYPE)?;
    Ok(Term::literal(text.copy()?, datatype, None))
}

/// A string with a language tag.
pub fn tagged_text(alloc: Global, text: &TextBuf, tag: &TextBuf) -> Result<Term, Memory>
    ensures { IfOk result (λ t. t ≡ spec.tagged_text text.now tag.now) }
{
    let datatype = TextBuf::from_str(alloc, LANG_STRING_TYPE)?;
    Ok(Term::literal(text.copy()?, datatype, Some(tag.copy()?)))
}

/// A string with a datatype.
pub fn typed_text(text: &TextBuf, datatype: &TextBuf) -> Result<Term, Memory>
    ensures { IfOk result (λ t. t ≡ spec.typed_text text.now datatype.now) }
{
    Ok(Term::literal(text.copy()?, datatype.copy()?, None))
}

/// A number.
pub fn number(datatype: &TextBuf, lexical: &TextBuf) -> Result<Term, Memory>
    ensures { IfOk result (λ t. t ≡ spec.number datatype.now lexical.now) }
{
    typed_text(lexical, datatype)
}

fn sign_text(sign: Sign) -> &'static str
    ensures { result.now ≡ spec.sign_text sign }
{
    match sign {
        Sign::Plus => "+",
        Sign::Minus => "-",
    }
}

/// A number with its sign.
pub fn signed_number(
    alloc: Global,
    sign: Sign,
    datatype: &TextBuf,
    lexical: &TextBuf,
) -> Result<Term, Memory>
    ensures { IfOk result (λ t. t ≡ spec.signed_number sign datatype.now lexical.now) }
{
    let mut text = String::from_str(alloc, sign_text(sign))?;
    text.push_str(lexical.as_str())?;
    Ok(Term::literal(TextBuf::from_string(text)?, datatype.copy()?, None))
}

/// A truth value.
pub fn boolean(alloc: Global, truth: bool) -> Result<Term, Memory>
    ensures { IfOk result (λ t. t ≡ spec.boolean truth) }
{
    let datatype = TextBuf::from_str(alloc, BOOLEAN_TYPE)?;
    let lexical = TextBuf::from_str(alloc, if truth { "true" } else { "false" })?;
    Ok(Term::literal(lexical, datatype, None))
}

/// The condition of an optional group without filters.
pub fn true_term(alloc: Global) -> Result<Term, Memory>
    ensures { IfOk result (λ t. t ≡ spec.true_term) }
{
    boolean(alloc, true)
}
