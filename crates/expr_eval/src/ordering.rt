ghost use Rattle.std.specs.Prelude.{◌≡◌, Some};
ghost use Rattle.std.specs.Option.{option_copied};
ghost use Rattle.std.specs.Ordering.{int_cmp};
ghost use Rattle.expr_eval.specs.Order as spec;

use crate::truth::is_string_type;
use rdf_terms::{Term, TextBuf};
use std::cmp::Ordering;
use value_core::{Number, boolean_of, compare, number_of};

/// What a literal is ordered by first.
#[derive(Clone, Copy, Debug)]
pub(crate) enum Kind {
    Number(Number),
    Boolean(bool),
    Text,
    Other,
}

#[tactic(auto, unfolding(crate::specs::Order::kind_of))]
fn kind_of(lexical: &str, datatype: &str) -> Kind
    ensures { result ≡ spec.kind_of lexical.now datatype.now }
{
    if let Some(number) = number_of(lexical, datatype) {
        Kind::Number(number)
    } else if let Some(truth) = boolean_of(lexical, datatype) {
        Kind::Boolean(truth)
    } else if is_string_type(datatype) {
        Kind::Text
    } else {
        Kind::Other
    }
}

/// The order of what stands in a solution, None where nothing does: unbound, blank nodes, IRIs,
/// numbers by value, booleans, strings, other literals. It is total, and only equal terms tie.
pub fn order(a: Option<&Term>, b: Option<&Term>) -> Ordering
    ensures { result ≡ spec.term_order (option_copied a.entry) (option_copied b.entry) }
{
    match (a, b) {
        (None, None) => Ordering::Equal,
        (None, Some(_)) => Ordering::Less,
        (Some(_), None) => Ordering::Greater,
        (Some(a), Some(b)) => order_terms(a, b),
    }
}

/// A literal's parts.
#[derive(Clone, Copy)]
struct Literal<'a> {
    datatype: &'a TextBuf,
    tag: &'a Option<TextBuf>,
    lexical: &'a TextBuf,
}

fn order_truths(a: bool, b: bool) -> Ordering
    ensures { result ≡ int_cmp (spec.truth_value a) (spec.truth_value b) }
{
    a.cmp(&b)
}

/// The order of literals of one kind and value, but for the last kind.
fn order_by_form(a: Literal, b: Literal) -> Ordering
    ensures { result ≡ spec.form_cmp
        a.entry.datatype.now a.entry.tag.now a.entry.lexical.now
        b.entry.datatype.now b.entry.tag.now b.entry.lexical.now }
{
    a.lexical
        .cmp(b.lexical)
        .then(a.datatype.cmp(b.datatype))
        .then(a.tag.cmp(b.tag))
}

fn order_by_datatype(a: Literal, b: Literal) -> Ordering
    ensures { result ≡ spec.datatype_cmp
        a.entry.datatype.now a.entry.tag.now a.entry.lexical.now
        b.entry.datatype.now b.entry.tag.now b.entry.lexical.now }
{
    a.datatype
        .cmp(b.datatype)
        .then(a.tag.cmp(b.tag))
        .then(a.lexical.cmp(b.lexical))
}

fn order_literals(a: Literal, b: Literal) -> Ordering
    ensures { result ≡ spec.term_order
        (Some (Term.Literal a.entry.datatype.now a.entry.tag.now a.entry.lexical.now))
        (Some (Term.Literal b.entry.datatype.now b.entry.tag.now b.entry.lexical.now)) }
{
    let first = kind_of(a.lexical.as_str(), a.datatype.as_str());
    let second = kind_of(b.lexical.as_str(), b.datatype.as_str());
    match (first, second) {
        (Kind::Number(m), Kind::Number(n)) => compare(m, n).then(order_by_form(a, b)),
        (Kind::Number(_), _) => Ordering::Less,
        (_, Kind::Number(_)) => Ordering::Greater,
        (Kind::Boolean(p), Kind::Boolean(q)) => order_truths(p, q).then(order_by_form(a, b)),
        (Kind::Boolean(_), _) => Ordering::Less,
        (_, Kind::Boolean(_)) => Ordering::Greater,
        (Kind::Text, Kind::Text) => order_by_form(a, b),
        (Kind::Text, Kind::Other) => Ordering::Less,
        (Kind::Other, Kind::Text) => Ordering::Greater,
        (Kind::Other, Kind::Other) => order_by_datatype(a, b),
    }
}

fn order_terms(a: &Term, b: &Term) -> Ordering
    ensures { result ≡ spec.term_order (Some a.now) (Some b.now) }
{
    match (a, b) {
        (Term::Blank { doc, n }, Term::Blank { doc: other, n: m }) => doc.cmp(other).then(n.cmp(m)),
        (Term::Blank { .. }, _) => Ordering::Less,
        (_, Term::Blank { .. }) => Ordering::Greater,
        (Term::Iri(s), Term::Iri(t)) => s.cmp(t),
        (Term::Iri(_), _) => Ordering::Less,
        (_, Term::Iri(_)) => Ordering::Greater,
        (
            Term::Literal {
                datatype,
                tag,
                lexical,
            },
            Term::Literal {
                datatype: other_datatype,
                tag: other_tag,
                lexical: other_lexical,
            },
        ) => order_literals(
            Literal {
                datatype,
                tag,
                lexical,
            },
            Literal {
                datatype: other_datatype,
                tag: other_tag,
                lexical: other_lexical,
            },
        ),
    }
}
