ghost use Rattle.std.specs.Prelude.{◌≡◌, ◌++◌, ◌∷◌, ◌+◌, [], Some, None, IfSome, IfNone, IfOk, OnOk, OnErr, if◌then◌else◌, slice_get, length};
ghost use Rattle.rows_core.specs.Rows.{cell_or_unbound};
ghost use Rattle.symmetric_join.specs.Keys as spec;
ghost use Rattle.symmetric_join.specs.Keys.{Key, with_term, same_key, places_at, merged_places};

use indexmap::IndexMap;
use rdf_terms::{Memory, Seq, Term};
use rows_core::Row;
use std::alloc::Global;

/// The places of rows, ascending, by the terms that the rows bind to key variables; None for the
/// rows that leave one unbound.
pub(crate) type Table = IndexMap<Option<Seq<Term>>, Seq<usize>>;

// Appends the variable's term, and tells whether it has one.
fn push_term(cells: &[Option<Term>], var: usize, terms: &mut Seq<Term>) -> Result<bool, Memory>
    ensures { IfOk result (λ b. with_term terms.old (cell_or_unbound (slice_get cells.now var)) ≡ (if b then Some terms.new else None)) }
{
    if var >= cells.len() {
        return Ok(false);
    }
    match &cells[var] {
        None => Ok(false),
        Some(term) => {
            terms.push(term.copy()?)?;
            Ok(true)
        }
    }
}

/// The terms that the row binds to the variables, in their order; None where it leaves one unbound.
#[tactic(auto, using(crate::proofs::Keying::key_more, crate::proofs::Keying::key_ends))]
pub(crate) fn key_of(alloc: Global, vars: &[u16], row: &Row) -> Result<Option<Seq<Term>>, Memory>
    ensures { IfOk result (λ key. key ≡ spec.key_of vars.now row.now) }
{
    let mut terms = Seq::new(alloc);
    for var in vars {
        if !push_term(row.cells(), *var as usize, &mut terms)? {
            return Ok(None);
        }
    }
    Ok(Some(terms))
}

/// Lists the place, which is above all others, under the key.
pub(crate) fn list_place(
    alloc: Global,
    table: &mut Table,
    key: Option<Seq<Term>>,
    place: usize,
) -> Result<(), Memory>
    ensures ok { OnOk result ((other : Key) → places_at table.new other ≡ (if same_key key other then places_at table.old other ++ place ∷ [] else places_at table.old other)) }
    ensures err { OnErr result ((other : Key) → places_at table.new other ≡ places_at table.old other) }
{
    match table.get_mut(&key) {
        Some(places) => places.push(place)?,
        None => {
            let mut places = Seq::new(alloc);
            places.push(place)?;
            table.insert(key, places)?;
        }
    }
    Ok(())
}

fn places_under<'a>(table: &'a Table, key: &Option<Seq<Term>>) -> &'a [usize]
    ensures { result.now ≡ places_at table.now key.now }
{
    match table.get(key) {
        Some(places) => places.as_slice(),
        None => &[],
    }
}

// The least of the places of two ascending lists, and what is left of each.
fn take_least<'a>(
    near: &'a [usize],
    loose: &'a [usize],
) -> Option<(usize, &'a [usize], &'a [usize])>
    ensures least { IfSome result (λ r. merged_places near.now loose.now ≡ r.0 ∷ merged_places r.1.now r.2.now) }
    ensures left { IfSome result (λ r. length near.now + length loose.now ≡ length r.1.now + length r.2.now + 1) }
    ensures none { IfNone result (merged_places near.now loose.now ≡ []) }
{
    match (near, loose) {
        ([], []) => None,
        ([x, xs @ ..], []) => Some((*x, xs, loose)),
        ([], [y, ys @ ..]) => Some((*y, near, ys)),
        ([x, xs @ ..], [y, ys @ ..]) => {
            if *x < *y {
                Some((*x, xs, loose))
            } else {
                Some((*y, near, ys))
            }
        }
    }
}

#[tactic(auto, using(crate::proofs::Places::merge_more, crate::proofs::Places::merge_none, crate::proofs::Places::merge_ends))]
fn merge_places(alloc: Global, near: &[usize], loose: &[usize]) -> Result<Vec<usize>, Memory>
    ensures { IfOk result (λ out. out.items ≡ merged_places near.now loose.now) }
{
    let mut out = Vec::new(alloc);
    let mut near_left = near;
    let mut loose_left = loose;
    for _ in 0..near.len() + loose.len() {
        match take_least(near_left, loose_left) {
            None => return Ok(out),
            Some((place, near_rest, loose_rest)) => {
                out.push(place)?;
                near_left = near_rest;
                loose_left = loose_rest;
            }
        }
    }
    Ok(out)
}

/// The places that the table lists under the key or under no key, ascending: those of the rows
/// that may be compatible with a row of this key.
pub(crate) fn candidates(
    alloc: Global,
    table: &Table,
    key: &Option<Seq<Term>>,
) -> Result<Vec<usize>, Memory>
    ensures { IfOk result (λ out. out.items ≡ merged_places (places_at table.now key.now) (places_at table.now None)) }
{
    merge_places(alloc, places_under(table, key), places_under(table, &None))
}
