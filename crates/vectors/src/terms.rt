use crate::cases::{no_case, plain, shown, texts};
use expr_eval::{ebv, equal, less, order};
use json_results::row_text;
use rdf_terms::{Memory, Term, TextBuf, write_term};
use std::alloc::Global;
use std::cmp::Ordering;
use value_core::{Number, add, boolean_of, number_of, sub, well_formed};

fn tag_of(alloc: Global, tag: &str) -> Result<Option<TextBuf>, Memory> {
    if tag.is_empty() {
        return Ok(None);
    }
    Ok(Some(TextBuf::from_str(alloc, tag)?))
}

fn iri(alloc: Global, text: &str) -> Result<Option<Term>, Memory> {
    let text = TextBuf::from_str(alloc, text)?;
    Ok(Some(Term::Iri(text)))
}

fn blank(alloc: Global, doc: &str, number: &str) -> Result<Option<Term>, Memory> {
    let Ok(n) = number.parse::<u64>() else {
        return Ok(None);
    };
    let doc = TextBuf::from_str(alloc, doc)?;
    Ok(Some(Term::Blank { doc, n }))
}

fn tagged(
    lexical: TextBuf,
    datatype: TextBuf,
    tag: Result<Option<TextBuf>, Memory>,
) -> Result<Option<Term>, Memory> {
    let tag = tag?;
    Ok(Some(Term::literal(lexical, datatype, tag)))
}

fn literal(
    alloc: Global,
    lexical: &str,
    datatype: &str,
    tag: &str,
) -> Result<Option<Term>, Memory> {
    let lexical = TextBuf::from_str(alloc, lexical)?;
    let datatype = TextBuf::from_str(alloc, datatype)?;
    tagged(lexical, datatype, tag_of(alloc, tag))
}

/// A term of four fields: its kind, its text, and what a kind has beside it.
pub fn term_of(
    alloc: Global,
    kind: &str,
    text: &str,
    more: &str,
    tag: &str,
) -> Result<Option<Term>, Memory> {
    match kind {
        "iri" => iri(alloc, text),
        "blank" => blank(alloc, text, more),
        "literal" => literal(alloc, text, more, tag),
        _ => Ok(None),
    }
}

fn form(alloc: Global, term: &Term) -> Result<String, Memory> {
    let written = write_term(alloc, term)?;
    shown(alloc, written.as_str())
}

fn row_digits(alloc: Global, names: &[TextBuf], cells: &[Option<Term>]) -> Result<String, Memory> {
    let row = row_text(alloc, names, cells, true)?;
    Ok(hex::encode(alloc, row.as_slice())?)
}

fn row(alloc: Global, term: Term) -> Result<String, Memory> {
    let name = TextBuf::from_str(alloc, "v")?;
    row_digits(alloc, &[name], &[Some(term)])
}

fn both_forms(alloc: Global, term: Term) -> Result<String, Memory> {
    let form = form(alloc, &term)?;
    let row = row(alloc, term)?;
    Ok(format!(in alloc; "{form} x{row}")?)
}

fn forms_of(alloc: Global, term: Result<Option<Term>, Memory>) -> Result<String, Memory> {
    match term? {
        Some(term) => both_forms(alloc, term),
        None => no_case(alloc),
    }
}

/// A term's N-Triples form, and its row in the results.
pub fn forms(alloc: Global, line: &str) -> Result<String, Memory> {
    let Some(fields) = texts(alloc, line)? else {
        return no_case(alloc);
    };
    match fields.as_slice() {
        [kind, text, more, tag] => forms_of(alloc, term_of(alloc, kind, text, more, tag)),
        _ => no_case(alloc),
    }
}

fn truth_text(truth: Option<bool>) -> &'static str {
    match truth {
        Some(true) => "true",
        Some(false) => "false",
        None => "none",
    }
}

fn order_text(order: Ordering) -> &'static str {
    match order {
        Ordering::Less => "less",
        Ordering::Equal => "equal",
        Ordering::Greater => "greater",
    }
}

fn number_text(alloc: Global, number: Option<Number>) -> Result<String, Memory> {
    match number {
        Some(number) => {
            let (scaled, whole) = (number.scaled, truth_text(Some(number.whole)));
            Ok(format!(in alloc; "{scaled} {whole}")?)
        }
        None => plain(alloc, "none"),
    }
}

fn number_of_term(term: &Term) -> Option<Number> {
    match term {
        Term::Literal {
            datatype,
            lexical,
            ..
        } => number_of(lexical.as_str(), datatype.as_str()),
        _ => None,
    }
}

fn form_text(alloc: Global, datatype: &str, lexical: &str) -> Result<String, Memory> {
    let formed = truth_text(Some(well_formed(lexical, datatype)));
    let boolean = truth_text(boolean_of(lexical, datatype));
    let number = number_text(alloc, number_of(lexical, datatype))?;
    Ok(format!(in alloc; "{formed} {boolean} {number}")?)
}

fn literal_text(alloc: Global, term: &Term) -> Result<String, Memory> {
    match term {
        Term::Literal {
            datatype,
            lexical,
            ..
        } => form_text(alloc, datatype.as_str(), lexical.as_str()),
        _ => plain(alloc, "no literal"),
    }
}

/// Of a datatype and a lexical form whether it is valid, its truth value and its number.
pub fn literal_forms(alloc: Global, line: &str) -> Result<String, Memory> {
    let Some(fields) = texts(alloc, line)? else {
        return no_case(alloc);
    };
    match fields.as_slice() {
        [datatype, lexical] => form_text(alloc, datatype, lexical),
        _ => no_case(alloc),
    }
}

fn both_sums(alloc: Global, x: Number, y: Number) -> Result<String, Memory> {
    let sum = number_text(alloc, add(x, y))?;
    let difference = number_text(alloc, sub(x, y))?;
    Ok(format!(in alloc; "{sum}, {difference}")?)
}

fn sums_text(alloc: Global, a: &Term, b: &Term) -> Result<String, Memory> {
    match (number_of_term(a), number_of_term(b)) {
        (Some(x), Some(y)) => both_sums(alloc, x, y),
        _ => plain(alloc, "no numbers"),
    }
}

fn pair_text(alloc: Global, a: &Term, b: &Term) -> Result<String, Memory> {
    let truth = truth_text(ebv(a));
    let same = truth_text(equal(a, b));
    let smaller = truth_text(less(a, b));
    let ordered = order_text(order(Some(a), Some(b)));
    let literal = literal_text(alloc, a)?;
    let sums = sums_text(alloc, a, b)?;
    Ok(format!(in alloc; "{truth} {same} {smaller} {ordered}; {literal}; {sums}")?)
}

fn values_of(
    alloc: Global,
    a: Result<Option<Term>, Memory>,
    b: Result<Option<Term>, Memory>,
) -> Result<String, Memory> {
    match (&a, &b) {
        (Ok(Some(a)), Ok(Some(b))) => pair_text(alloc, a, b),
        (Ok(_), Ok(_)) => no_case(alloc),
        _ => Err(Memory),
    }
}

/// What two terms come to: truth, comparisons, order; the first one's value; sum and difference.
pub fn values(alloc: Global, line: &str) -> Result<String, Memory> {
    let Some(fields) = texts(alloc, line)? else {
        return no_case(alloc);
    };
    match fields.as_slice() {
        [kind, text, more, tag, kind_b, text_b, more_b, tag_b] => values_of(
            alloc,
            term_of(alloc, kind, text, more, tag),
            term_of(alloc, kind_b, text_b, more_b, tag_b),
        ),
        _ => no_case(alloc),
    }
}
