//! Feeds a join that grows, a left and a right in turn. The first word says how: `make` makes the rows alone, `feed` feeds them
//! too. The second says which: `matched` gives each row one match on the other side, `one_key` gives all lefts one key, which no
//! right has. The third is the number of rows on each side. The answer is the number of rows made, or of rows that came out.
use crate::fault::Fault;
use rdf_terms::{Memory, Term, TextBuf};
use rows_core::Row;
use std::alloc::Global;
use symmetric_join::Node;

// The rows of the two sides, as many on each.
#[derive(Drop)]
struct Sides {
    lefts: Vec<Row>,
    rights: Vec<Row>,
}

fn iri(alloc: Global, head: &str, n: u64) -> Result<Term, Memory> {
    let text = format!(in alloc; "http://a.test/{head}/{n}")?;
    Ok(Term::Iri(TextBuf::from_string(text)?))
}

fn push_iri(
    alloc: Global,
    head: &str,
    n: u64,
    cells: &mut Vec<Option<Term>>,
) -> Result<(), Memory> {
    cells.push(Some(iri(alloc, head, n)?))?;
    Ok(())
}

// Binds the first variable and the key.
fn left_row(alloc: Global, n: u64, key: u64) -> Result<Row, Memory> {
    let mut cells = Vec::new(alloc);
    push_iri(alloc, "left", n, &mut cells)?;
    push_iri(alloc, "key", key, &mut cells)?;
    cells.push(None)?;
    Ok(Row::from_vec(cells))
}

// Binds the key and the last variable.
fn right_row(alloc: Global, n: u64, key: u64) -> Result<Row, Memory> {
    let mut cells = Vec::new(alloc);
    cells.push(None)?;
    push_iri(alloc, "key", key, &mut cells)?;
    push_iri(alloc, "right", n, &mut cells)?;
    Ok(Row::from_vec(cells))
}

fn matched(alloc: Global, count: u64) -> Result<Sides, Memory> {
    let mut lefts = Vec::new(alloc);
    let mut rights = Vec::new(alloc);
    for n in 0..count {
        lefts.push(left_row(alloc, n, n)?)?;
        rights.push(right_row(alloc, n, n)?)?;
    }
    Ok(Sides { lefts, rights })
}

fn one_key(alloc: Global, count: u64) -> Result<Sides, Memory> {
    let mut lefts = Vec::new(alloc);
    let mut rights = Vec::new(alloc);
    for n in 0..count {
        lefts.push(left_row(alloc, n, 0)?)?;
        rights.push(right_row(alloc, n, n.saturating_add(1))?)?;
    }
    Ok(Sides { lefts, rights })
}

fn feed_right(node: &mut Node, right: Option<Row>) -> Result<usize, Memory> {
    match right {
        Some(row) => Ok(node.feed_right(row)?.len()),
        None => Ok(0),
    }
}

// How many rows come out.
fn feed_all(node: &mut Node, sides: Sides) -> Result<usize, Memory> {
    let Sides { lefts, rights } = sides;
    let mut rights = rights.into_iter();
    let mut made: usize = 0;
    for left in lefts {
        made = made.saturating_add(node.feed_left(left)?.len());
        made = made.saturating_add(feed_right(node, rights.next())?);
    }
    Ok(made)
}

fn feed(alloc: Global, sides: Sides) -> Result<usize, Memory> {
    let mut node = Node::new(alloc, 3)?;
    feed_all(&mut node, sides)
}

fn make_sides(alloc: Global, kind: &str, number: u64) -> Result<Sides, Fault> {
    match kind {
        "matched" => Ok(matched(alloc, number)?),
        "one_key" => Ok(one_key(alloc, number)?),
        _ => Err(Fault::Words),
    }
}

fn count(alloc: Global, way: &str, kind: &str, number: u64) -> Result<usize, Fault> {
    let sides = make_sides(alloc, kind, number)?;
    match way {
        "make" => Ok(sides.lefts.len().saturating_add(sides.rights.len())),
        "feed" => Ok(feed(alloc, sides)?),
        _ => Err(Fault::Words),
    }
}

pub(crate) fn answer(alloc: Global, words: &[String]) -> Result<String, Fault> {
    let [way, kind, number] = words else {
        return Err(Fault::Words);
    };
    match number.parse::<u64>() {
        Ok(number) => {
            let count = count(alloc, way.as_str(), kind.as_str(), number)?;
            Ok(format!(in alloc; "{count}")?)
        }
        Err(_) => Err(Fault::Words),
    }
}
