use crate::algebra_case::{Case, Fault, read_case};
use crate::cases::{append, no_case, plain, shown};
use algebra_core::{Query, evaluate_query, is_monotone, patterns};
use rdf_terms::{Memory, Term, write_term};
use rows_core::{Row, Spot, TriplePattern};
use std::alloc::Global;

/// Whether the query is monotone, its patterns, and the number of its solutions with the solutions:
/// in order where it has keys, else sorted as texts. The module `algebra_case` has the form of a case.
pub fn answer(alloc: Global, line: &str) -> Result<String, Memory> {
    match read_case(alloc, line) {
        Ok(case) => case_text(alloc, &case),
        Err(Fault::NoCase) => no_case(alloc),
        Err(Fault::Memory) => Err(Memory),
    }
}

fn case_text(alloc: Global, case: &Case) -> Result<String, Memory> {
    let monotone = is_monotone(&case.query);
    let listed = patterns_text(alloc, &case.query)?;
    let solutions = solutions_text(alloc, case)?;
    Ok(format!(in alloc; "{monotone} [{listed}] {solutions}")?)
}

fn patterns_text(alloc: Global, query: &Query) -> Result<String, Memory> {
    let patterns = patterns(alloc, query)?;
    let texts = pattern_texts(alloc, patterns.as_slice())?;
    parted(alloc, texts.as_slice())
}

fn pattern_texts(alloc: Global, patterns: &[TriplePattern]) -> Result<Vec<String>, Memory> {
    let mut texts = Vec::new(alloc);
    for pattern in patterns {
        texts.push(pattern_text(alloc, pattern)?)?;
    }
    Ok(texts)
}

fn pattern_text(alloc: Global, pattern: &TriplePattern) -> Result<String, Memory> {
    let mut out = spot_text(alloc, &pattern.s)?;
    append(&mut out, " ", spot_text(alloc, &pattern.p))?;
    append(&mut out, " ", spot_text(alloc, &pattern.o))?;
    Ok(out)
}

fn spot_text(alloc: Global, spot: &Spot) -> Result<String, Memory> {
    match spot {
        Spot::Term(term) => term_text(alloc, term),
        Spot::Var(var) => Ok(format!(in alloc; "?{var}")?),
    }
}

fn term_text(alloc: Global, term: &Term) -> Result<String, Memory> {
    let form = write_term(alloc, term)?;
    shown(alloc, form.as_str())
}

fn solutions_text(alloc: Global, case: &Case) -> Result<String, Memory> {
    let texts = solution_texts(alloc, case)?;
    let count = texts.len();
    let rows = parted(alloc, texts.as_slice())?;
    Ok(format!(in alloc; "{count} [{rows}]")?)
}

fn solution_texts(alloc: Global, case: &Case) -> Result<Vec<String>, Memory> {
    let rows = evaluate_query(alloc, &case.query, case.triples.as_slice())?;
    let mut texts = row_texts(alloc, rows.as_slice())?;
    if case.query.order.is_empty() {
        texts.sort()?;
    }
    Ok(texts)
}

fn row_texts(alloc: Global, rows: &[Row]) -> Result<Vec<String>, Memory> {
    let mut texts = Vec::new(alloc);
    for row in rows {
        texts.push(row_text(alloc, row)?)?;
    }
    Ok(texts)
}

fn row_text(alloc: Global, row: &Row) -> Result<String, Memory> {
    let mut text = String::new(alloc);
    for cell in row.cells() {
        append(&mut text, " ", cell_text(alloc, cell))?;
    }
    Ok(text)
}

fn cell_text(alloc: Global, cell: &Option<Term>) -> Result<String, Memory> {
    match cell {
        Some(term) => term_text(alloc, term),
        None => plain(alloc, "-"),
    }
}

/// The texts, parted by a semicolon and a space.
fn parted(alloc: Global, texts: &[String]) -> Result<String, Memory> {
    let mut all = String::new(alloc);
    for i in 0..texts.len() {
        if i > 0 {
            all.push_str("; ")?;
        }
        all.push_str(texts[i].as_str())?;
    }
    Ok(all)
}
