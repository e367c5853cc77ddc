use expr_eval::Env;
use rdf_terms::{Memory, Term, TextBuf};
use std::alloc::Global;

const INTEGER: &str = "http://www.w3.org/2001/XMLSchema#integer";

const LANG_STRING: &str = "http://www.w3.org/1999/02/22-rdf-syntax-ns#langString";

/// A number, variable 0, and a tagged literal, variable 1.
#[derive(Drop)]
pub(crate) struct Row {
    number: Term,
    label: Term,
}

impl Env for Row {
    ghost use Rattle.std.specs.Prelude.{Some, None, cond, ◌==◌};

    ghost bindings = { λ row var. cond (var == 0) (Some row.number) (cond (var == 1) (Some row.label) None) };

    fn get(&self, var: u16) -> Option<&Term> {
        if var == 0 {
            Some(&self.number)
        } else if var == 1 {
            Some(&self.label)
        } else {
            None
        }
    }
}

fn number_of(alloc: Global, number: u32) -> Result<Term, Memory> {
    let lexical = TextBuf::from_string(format!(in alloc; "{number}")?)?;
    let datatype = TextBuf::from_str(alloc, INTEGER)?;
    Ok(Term::literal(lexical, datatype, None))
}

fn tag_of(number: u32) -> &'static str {
    if number % 2 == 0 { "en" } else { "fr" }
}

fn tagged(alloc: Global, lexical: TextBuf, tag: &str) -> Result<Term, Memory> {
    let datatype = TextBuf::from_str(alloc, LANG_STRING)?;
    let tag = TextBuf::from_str(alloc, tag)?;
    Ok(Term::literal(lexical, datatype, Some(tag)))
}

fn label_of(alloc: Global, number: u32) -> Result<Term, Memory> {
    let lexical = TextBuf::from_string(format!(in alloc; "label {number}")?)?;
    tagged(alloc, lexical, tag_of(number))
}

fn new_row(alloc: Global, number: u32) -> Result<Row, Memory> {
    let label = label_of(alloc, number)?;
    let number = number_of(alloc, number)?;
    Ok(Row { number, label })
}

/// Rows with the numbers from 0 on; the labels of the even ones are English.
pub(crate) fn rows(alloc: Global, count: u32) -> Result<Vec<Row>, Memory> {
    let mut rows = Vec::new(alloc);
    for number in 0..count {
        rows.push(new_row(alloc, number)?)?;
    }
    Ok(rows)
}
