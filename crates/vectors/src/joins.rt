//! Cases of joins that grow.
//!
//! A case is the width and then steps, parted by semicolons. A step is `left` or `right` with the cells of the row that is fed,
//! each a field or `-` where it is unbound, or `shorten` with the numbers of rows that stay. A cell's text stands for a term:
//! terms are told apart by it alone. An answer has for each step the rows that it gave, each in parentheses, and the lengths.

use crate::cases::{no_case, shown, text};
use rdf_terms::{Memory, Term, TextBuf};
use rows_core::Row;
use std::alloc::Global;
use symmetric_join::Node;

fn term_of(alloc: Global, field: &str) -> Result<Option<Term>, Memory> {
    match text(alloc, field)? {
        Some(text) => Ok(Some(Term::Iri(TextBuf::from_string(text)?))),
        None => Ok(None),
    }
}

fn row_of(alloc: Global, width: u16, text: &str) -> Result<Row, Memory> {
    let mut cells = Vec::new(alloc);
    if width > 0 {
        for field in text.split(' ') {
            cells.push(term_of(alloc, field)?)?;
        }
    }
    Ok(Row::from_vec(cells))
}

fn push_cell(alloc: Global, cell: &Option<Term>, out: &mut String) -> Result<(), Memory> {
    match cell {
        Some(Term::Iri(text)) => out.push_str(shown(alloc, text.as_str())?.as_str())?,
        _ => out.push_str("-")?,
    }
    Ok(())
}

fn push_row(alloc: Global, row: &Row, out: &mut String) -> Result<(), Memory> {
    out.push_str("(")?;
    for (i, cell) in row.cells().iter().enumerate() {
        if i > 0 {
            out.push_str(" ")?;
        }
        push_cell(alloc, cell, out)?;
    }
    out.push_str(")")?;
    Ok(())
}

fn push_rows(
    alloc: Global,
    rows: Result<Vec<Row>, Memory>,
    out: &mut String,
) -> Result<(), Memory> {
    for row in &rows? {
        push_row(alloc, row, out)?;
    }
    Ok(())
}

fn push_lens(alloc: Global, node: &Node, out: &mut String) -> Result<(), Memory> {
    let (lefts, rights) = node.lens();
    out.push_str(format!(in alloc; "{lefts} {rights};")?.as_str())?;
    Ok(())
}

fn shorten(node: &mut Node, text: &str) {
    if let Some((lefts, rights)) = text.split_once(' ') {
        if let (Ok(lefts), Ok(rights)) = (lefts.parse::<usize>(), rights.parse::<usize>()) {
            node.shorten(lefts, rights);
        }
    }
}

fn feed_left(
    alloc: Global,
    width: u16,
    node: &mut Node,
    cells: &str,
    out: &mut String,
) -> Result<(), Memory> {
    let row = row_of(alloc, width, cells)?;
    push_rows(alloc, node.feed_left(row), out)
}

fn feed_right(
    alloc: Global,
    width: u16,
    node: &mut Node,
    cells: &str,
    out: &mut String,
) -> Result<(), Memory> {
    let row = row_of(alloc, width, cells)?;
    push_rows(alloc, node.feed_right(row), out)
}

fn take_step(
    alloc: Global,
    width: u16,
    node: &mut Node,
    step: &str,
    out: &mut String,
) -> Result<(), Memory> {
    let (word, rest) = match step.split_once(' ') {
        Some(parts) => parts,
        None => (step, ""),
    };
    match word {
        "left" => feed_left(alloc, width, node, rest, out),
        "right" => feed_right(alloc, width, node, rest, out),
        _ => {
            shorten(node, rest);
            Ok(())
        }
    }
}

fn take_steps(alloc: Global, width: u16, steps: &str) -> Result<String, Memory> {
    let mut node = Node::new(alloc, width)?;
    let mut out = String::new(alloc);
    for step in steps.split(';') {
        take_step(alloc, width, &mut node, step, &mut out)?;
        push_lens(alloc, &node, &mut out)?;
    }
    Ok(out)
}

/// What each step of a node gives.
pub fn answer(alloc: Global, line: &str) -> Result<String, Memory> {
    let Some((width, steps)) = line.split_once(';') else {
        return no_case(alloc);
    };
    match width.parse::<u16>() {
        Ok(width) => take_steps(alloc, width, steps),
        Err(_) => no_case(alloc),
    }
}
