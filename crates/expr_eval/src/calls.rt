ghost use Rattle.std.specs.Prelude.{◌≡◌, [], IfOk, unwrap_or, Some};
ghost use Rattle.expr_eval.specs.Views.{operand_term, held_value};
ghost use Rattle.expr_eval.specs.Value.{called as value_called};
ghost use Rattle.expr_eval.specs.declared.expr.Function.TheVariants.{Str, Lang, Datatype};

use crate::Function;
use crate::making::string_term;
use crate::operand::{Held, Operand};
use rdf_terms::{Memory, Term, TextBuf};
use std::alloc::Global;

fn tag_or_empty(alloc: Global, tag: &Option<TextBuf>) -> Result<TextBuf, Memory>
    ensures { IfOk result (λ t. t ≡ unwrap_or tag.now []) }
{
    match tag {
        Some(text) => text.copy(),
        None => TextBuf::from_str(alloc, ""),
    }
}

fn str_of(alloc: Global, term: &Term) -> Result<Option<Term>, Memory>
    ensures { IfOk result (λ t. t ≡ value_called Str term.now) }
{
    match term {
        Term::Blank { .. } => Ok(None),
        Term::Iri(text) => Ok(Some(string_term(alloc, text.copy()?)?)),
        Term::Literal { lexical, .. } => Ok(Some(string_term(alloc, lexical.copy()?)?)),
    }
}

fn lang_of(alloc: Global, term: &Term) -> Result<Option<Term>, Memory>
    ensures { IfOk result (λ t. t ≡ value_called Lang term.now) }
{
    match term {
        Term::Literal { tag, .. } => Ok(Some(string_term(alloc, tag_or_empty(alloc, tag)?)?)),
        _ => Ok(None),
    }
}

fn datatype_of(term: &Term) -> Result<Option<Term>, Memory>
    ensures { IfOk result (λ t. t ≡ value_called Datatype term.now) }
{
    match term {
        Term::Literal { datatype, .. } => Ok(Some(Term::Iri(datatype.copy()?))),
        _ => Ok(None),
    }
}

fn made<'a>(term: Option<Term>) -> Option<Held<'a>>
    ensures { held_value result ≡ term }
{
    match term {
        Some(term) => Some(Held::Whole(Operand::Made(term))),
        None => None,
    }
}

/// What the function comes to at a term, or the type error.
pub(crate) fn called<'a>(
    alloc: Global,
    function: Function,
    operand: Operand,
) -> Result<Option<Held<'a>>, Memory>
    ensures { IfOk result
        (λ v. held_value v ≡ value_called function (operand_term operand.entry)) }
{
    let term = operand.term();
    match function {
        Function::Str => Ok(made(str_of(alloc, term)?)),
        Function::Lang => Ok(made(lang_of(alloc, term)?)),
        Function::Datatype => Ok(made(datatype_of(term)?)),
        Function::IsIri => Ok(Some(Held::Truth(matches!(term, Term::Iri(_))))),
        Function::IsBlank => Ok(Some(Held::Truth(matches!(term, Term::Blank { .. })))),
        Function::IsLiteral => Ok(Some(Held::Truth(matches!(term, Term::Literal { .. })))),
    }
}
