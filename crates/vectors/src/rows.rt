//! Cases of result texts: the text of a query, and rows behind it, parted by bars.
//!
//! The query is a field. A row is `first` or `next` and its cells, parted by semicolons; a cell is `-`, or the four fields
//! of a term as the module `terms` has them. An answer has the head, the text of each row, and the tail.

use crate::cases::{append, no_case, text, texts};
use crate::terms::term_of;
use algebra_core::Query;
use json_results::{head, row_text, tail};
use rdf_terms::{ByteBuf, Memory, Term, TextBuf};
use sparql_parser::{QueryFault, read_query};
use std::alloc::Global;

/// The texts of the head, of each row, and of the tail.
pub fn answer(alloc: Global, line: &str) -> Result<String, Memory> {
    let (query, rows) = match line.split_once('|') {
        Some(parts) => parts,
        None => (line, ""),
    };
    match text(alloc, query)? {
        Some(query) => answer_to(alloc, query.as_str(), rows),
        None => no_case(alloc),
    }
}

fn answer_to(alloc: Global, query: &str, rows: &str) -> Result<String, Memory> {
    match read_query(alloc, query) {
        Ok(query) => result_text(alloc, &query, rows),
        Err(QueryFault::Memory) => Err(Memory),
        Err(_) => no_case(alloc),
    }
}

fn result_text(alloc: Global, query: &Query, rows: &str) -> Result<String, Memory> {
    let names = selected_names(alloc, query)?;
    named_text(alloc, names.as_slice(), rows)
}

fn selected_names(alloc: Global, query: &Query) -> Result<Vec<TextBuf>, Memory> {
    let mut names = Vec::new(alloc);
    for place in query.select.as_slice() {
        if let Some(name) = query.names.as_slice().get(*place as usize) {
            names.push(name.copy()?)?;
        }
    }
    Ok(names)
}

fn named_text(alloc: Global, names: &[TextBuf], rows: &str) -> Result<String, Memory> {
    let mut out = digits(alloc, head(alloc, names))?;
    if !rows.is_empty() {
        append(&mut out, " ", rows_text(alloc, names, rows))?;
    }
    append(&mut out, " ", tail_digits(alloc))?;
    Ok(out)
}

fn digits(alloc: Global, text: Result<ByteBuf, Memory>) -> Result<String, Memory> {
    let text = text?;
    let digits = hex::encode(alloc, text.as_slice())?;
    Ok(format!(in alloc; "x{digits}")?)
}

fn tail_digits(alloc: Global) -> Result<String, Memory> {
    digits(alloc, ByteBuf::from_slice(alloc, tail()))
}

fn rows_text(alloc: Global, names: &[TextBuf], rows: &str) -> Result<String, Memory> {
    let mut out = String::new(alloc);
    for row in rows.split('|') {
        append(&mut out, " ", row_digits(alloc, names, row))?;
    }
    Ok(out)
}

fn row_digits(alloc: Global, names: &[TextBuf], row: &str) -> Result<String, Memory> {
    let (place, cells) = match row.split_once(';') {
        Some(parts) => parts,
        None => (row, ""),
    };
    let cells = cells_of(alloc, cells)?;
    digits(
        alloc,
        row_text(alloc, names, cells.as_slice(), place == "first"),
    )
}

fn cells_of(alloc: Global, cells: &str) -> Result<Vec<Option<Term>>, Memory> {
    let mut all = Vec::new(alloc);
    for cell in cells.split(';') {
        all.push(cell_of(alloc, cell)?)?;
    }
    Ok(all)
}

// Unbound where the cell is no term.
fn cell_of(alloc: Global, cell: &str) -> Result<Option<Term>, Memory> {
    let Some(fields) = texts(alloc, cell)? else {
        return Ok(None);
    };
    match fields.as_slice() {
        [kind, text, more, tag] => term_of(alloc, kind, text, more, tag),
        _ => Ok(None),
    }
}
