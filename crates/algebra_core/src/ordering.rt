ghost use Rattle.std.specs.Prelude.{◌≡◌, IfOk, OnOk, length, map, get_or, []};
ghost use Rattle.std.specs.Option.{option_copied};
ghost use Rattle.std.specs.List.Sorted.{IsPermutation, IsSorted};
ghost use Rattle.std.specs.Cmp.Lexicographic.{slice_cmp};
ghost use Rattle.expr_eval.specs.Order.{term_order};
ghost use Rattle.algebra_core.specs.Order.{bindings_cmp, names_cmp, by_name, in_order, row_cmp, numbers as numbers_below, directed as in_direction};
ghost use Rattle.algebra_core.specs.Query.{ordered_if};

use crate::conditions::{cell_at, value_on};
use crate::query::{Key, Query};
use expr_eval::order;
use rdf_terms::{Memory, Seq, Term, TextBuf};
use rows_core::Row;
use std::alloc::Global;
use std::cmp::Ordering;

/// A row beside the values of the keys on it, so that each is evaluated once.
#[derive(Debug, Drop)]
struct Ranked {
    keys: Seq<Option<Term>>,
    row: Row,
}

/// The rows in order, where the query has keys (SPARQL 1.1 Query Language, section 15.1). It costs
/// an evaluation of each key a row, and n log n comparisons; bindings are compared where the keys tie.
pub(crate) fn ordered_rows(alloc: Global, query: &Query, rows: Vec<Row>) -> Result<Vec<Row>, Memory>
    ensures { IfOk result (λ all. all.items ≡ ordered_if query.now.order (row_cmp query.now) rows.items) }
{
    if query.order.is_empty() {
        return Ok(rows);
    }
    let sorted = sorted_rows(alloc, query, rows)?;
    Ok(sorted)
}

fn sorted_rows(alloc: Global, query: &Query, rows: Vec<Row>) -> Result<Vec<Row>, Memory>
    ensures { IfOk result (λ all. all.items ≡ in_order (row_cmp query.now) rows.items) }
{
    let places = places_by_name(alloc, query.names.as_slice())?;
    let mut ranked = ranked_rows(alloc, query.order.as_slice(), rows)?;
    sort_ranked(query.order.as_slice(), places.as_slice(), &mut ranked)?;
    let sorted = rows_of(alloc, ranked)?;
    Ok(sorted)
}

#[tactic(auto, using(crate::proofs::GraphSteps::map_more))]
fn key_values(alloc: Global, keys: &[Key], row: &Row) -> Result<Seq<Option<Term>>, Memory>
    ensures { IfOk result (λ all. all ≡ ranks.key_values keys.now row.now) }
{
    let mut all = Seq::new(alloc);
    for key in keys {
        all.push(value_on(alloc, &key.expr, row)?)?;
    }
    Ok(all)
}

#[tactic(auto, using(crate::proofs::GraphSteps::map_more))]
fn ranked_rows(alloc: Global, keys: &[Key], rows: Vec<Row>) -> Result<Vec<Ranked>, Memory>
    ensures { IfOk result (λ all. all.items ≡ map (ranks.ranked_of keys.now) rows.items) }
{
    let mut all = Vec::new(alloc);
    for row in rows {
        let values = key_values(alloc, keys, &row)?;
        all.push(Ranked { keys: values, row })?;
    }
    Ok(all)
}

fn rows_of(alloc: Global, ranked: Vec<Ranked>) -> Result<Vec<Row>, Memory>
    ensures { IfOk result (λ all. all.items ≡ map ranks.row_in ranked.items) }
{
    let mut all = Vec::new(alloc);
    for one in ranked {
        all.push(one.row)?;
    }
    Ok(all)
}

fn sort_ranked(keys: &[Key], places: &[usize], ranked: &mut Vec<Ranked>) -> Result<(), Memory>
    ensures same { IsPermutation ranked.old.items ranked.new.items }
    ensures sorted { OnOk result (IsSorted (ranks.ranked_cmp keys.now places.now) ranked.new.items) }
{
    ranked.sort_by(|a, b| compare_ranked(keys, places, a, b))?;
    Ok(())
}

#[tactic(auto, using(crate::proofs::Comparing::first_decides, crate::proofs::Comparing::first_ties))]
fn compare_ranked(keys: &[Key], places: &[usize], a: &Ranked, b: &Ranked) -> Ordering
    ensures { result ≡ ranks.ranked_cmp keys.now places.now a.now b.now }
{
    match compare_values(keys, a.keys.as_slice(), b.keys.as_slice()) {
        Ordering::Equal => compare_rows(places, a.row.cells(), b.row.cells()),
        other => other,
    }
}

/// The rows by the bindings of the variables, and where these tie by all cells.
#[tactic(auto, using(crate::proofs::Comparing::first_decides, crate::proofs::Comparing::first_ties))]
fn compare_rows(places: &[usize], a: &[Option<Term>], b: &[Option<Term>]) -> Ordering
    ensures { result ≡ ranks.rows_cmp places.now a.now b.now }
{
    match compare_bindings(places, a, b) {
        Ordering::Equal => compare_cells(a, b),
        other => other,
    }
}

/// The values by the directions of their keys, in turn.
#[tactic(auto, using(crate::proofs::Comparing::values_next))]
fn compare_values(keys: &[Key], a: &[Option<Term>], b: &[Option<Term>]) -> Ordering
    ensures { result ≡ ranks.values_cmp keys.now a.now b.now }
{
    for i in 0..keys.len() {
        match compare_directed(keys[i].descending, cell_at(a, i), cell_at(b, i)) {
            Ordering::Equal => {}
            other => return other,
        }
    }
    Ordering::Equal
}

fn compare_directed(descending: bool, a: Option<&Term>, b: Option<&Term>) -> Ordering
    ensures { result ≡ in_direction descending term_order (option_copied a.entry) (option_copied b.entry) }
{
    if descending { order(b, a) } else { order(a, b) }
}

/// The rows by the bindings of the variables, in turn.
#[tactic(auto, using(crate::proofs::Comparing::bindings_next))]
fn compare_bindings(places: &[usize], a: &[Option<Term>], b: &[Option<Term>]) -> Ordering
    ensures { result ≡ bindings_cmp places.now a.now b.now }
{
    for i in 0..places.len() {
        match order(cell_at(a, places[i]), cell_at(b, places[i])) {
            Ordering::Equal => {}
            other => return other,
        }
    }
    Ordering::Equal
}

/// The cells in turn; a shorter row comes first.
#[tactic(auto, using(crate::proofs::Comparing::cells_next, crate::proofs::Comparing::cells_past, crate::proofs::Comparing::cells_short, crate::proofs::Comparing::cells_end))]
fn compare_cells(a: &[Option<Term>], b: &[Option<Term>]) -> Ordering
    ensures { result ≡ slice_cmp term_order a.now b.now }
{
    for i in 0..a.len() {
        if i >= b.len() {
            return Ordering::Greater;
        }
        match compare_cell(&a[i], &b[i]) {
            Ordering::Equal => {}
            other => return other,
        }
    }
    if a.len() < b.len() {
        Ordering::Less
    } else {
        Ordering::Equal
    }
}

fn compare_cell(a: &Option<Term>, b: &Option<Term>) -> Ordering
    ensures { result ≡ term_order a.now b.now }
{
    order(a.as_ref(), b.as_ref())
}

/// The variables that have names, in ascending order of the names' bytes.
fn places_by_name(alloc: Global, names: &[TextBuf]) -> Result<Vec<usize>, Memory>
    ensures { IfOk result (λ all. all.items ≡ by_name names.now) }
{
    let mut places = numbers(alloc, names.len())?;
    sort_places(names, &mut places)?;
    Ok(places)
}

#[tactic(auto, using(crate::proofs::Comparing::numbers_more))]
fn numbers(alloc: Global, count: usize) -> Result<Vec<usize>, Memory>
    ensures { IfOk result (λ all. all.items ≡ numbers_below count) }
{
    let mut all = Vec::new(alloc);
    for i in 0..count {
        all.push(i)?;
    }
    Ok(all)
}

fn sort_places(names: &[TextBuf], places: &mut Vec<usize>) -> Result<(), Memory>
    ensures same { IsPermutation places.old.items places.new.items }
    ensures sorted { OnOk result (IsSorted (names_cmp names.now) places.new.items) }
{
    places.sort_by(|a, b| compare_names(names, *a, *b))?;
    Ok(())
}

fn compare_names(names: &[TextBuf], a: usize, b: usize) -> Ordering
    ensures { result ≡ names_cmp names.now a b }
{
    name_at(names, a).cmp(name_at(names, b)).then(a.cmp(&b))
}

fn name_at(names: &[TextBuf], place: usize) -> &[u8]
    ensures { result.now ≡ get_or names.now place [] }
{
    if place < names.len() {
        names[place].as_str().as_bytes()
    } else {
        b"".as_slice()
    }
}

ghost use Rattle.algebra_core.specs.Ranks as ranks;
