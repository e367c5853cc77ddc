ghost use Rattle.std.specs.Prelude.{◌≡◌, ◌++◌, ◌≤◌, List, [], OnOk, length, drop, slice_get};
ghost use Rattle.rdf_terms.specs.declared.triple.Triple.{Triple};
ghost use Rattle.rows_core.specs.declared.pattern.TriplePattern.{TriplePattern};
ghost use Rattle.rows_core.specs.Patterns.{matches};
ghost use Rattle.growing_graph.specs.declared.index.Part.{Part};
ghost use Rattle.growing_graph.specs.Places.{places_from, passes, kept_at};
ghost use Rattle.growing_graph.specs.Indexes.{spot_of, places_at, Lists, Covers};

use crate::index::Index;
use rdf_terms::{Memory, Term, Triple};
use rows_core::{Spot, TriplePattern, match_triple};

/// Where triples that match a pattern may stand: at these places, or from `listed` on.
#[derive(Clone, Copy)]
pub(crate) struct Near<'a> {
    pub(crate) places: &'a [usize],
    pub(crate) listed: usize,
}

fn places_of<'a>(index: &'a Index, term: &Term) -> &'a [usize]
    ensures { result.now ≡ places_at index.now.table term.now }
{
    match index.table.get(term) {
        Some(places) => places.as_slice(),
        None => &[],
    }
}

/// Where triples may stand that match a pattern with this spot.
#[tactic(auto, using(crate::proofs::Covering::covers_nothing, crate::proofs::Covering::covers_spot))]
pub(crate) fn near_of<'a>(index: &'a Index, spot: &Spot) -> Near<'a>
    ensures { (part : Part) (pattern : TriplePattern) (triples : List Triple) → spot_of part pattern ≡ spot.now → Lists part triples index.now.listed index.now.table → Covers pattern triples result.places.now result.listed }
{
    match spot {
        Spot::Var(_) => Near {
            places: &[],
            listed: 0,
        },
        Spot::Term(term) => Near {
            places: places_of(index, term),
            listed: index.listed,
        },
    }
}

/// That which leaves fewer triples to try.
pub(crate) fn nearer<'a>(a: Near<'a>, b: Near<'a>) -> Near<'a>
    ensures { (pattern : TriplePattern) (triples : List Triple) → Covers pattern triples a.entry.places.now a.entry.listed → Covers pattern triples b.entry.places.now b.entry.listed → Covers pattern triples result.places.now result.listed }
{
    if a.places.len().saturating_add(b.listed) <= b.places.len().saturating_add(a.listed) {
        a
    } else {
        b
    }
}

fn matches_at(pattern: &TriplePattern, triples: &[Triple], place: usize) -> bool
    ensures { result ≡ passes (matches pattern.now) (slice_get triples.now place) }
{
    if place >= triples.len() {
        return false;
    }
    match_triple(pattern, &triples[place])
}

/// Appends those of the places whose triple matches.
#[tactic(auto, using(crate::proofs::Covering::kept_more, crate::proofs::Covering::kept_less))]
pub(crate) fn push_matching_at(
    pattern: &TriplePattern,
    triples: &[Triple],
    places: &[usize],
    out: &mut Vec<usize>,
) -> Result<(), Memory>
    ensures { OnOk result (out.new.items ≡ out.old.items ++ kept_at (matches pattern.now) triples.now places.now) }
{
    for place in places {
        if matches_at(pattern, triples, *place) {
            out.push(*place)?;
        }
    }
    Ok(())
}

/// Appends the places from a number on whose triple matches.
#[tactic(auto, using(crate::proofs::Covering::places_more, crate::proofs::Covering::places_less, crate::proofs::Covering::places_end))]
pub(crate) fn push_matching_from(
    pattern: &TriplePattern,
    triples: &[Triple],
    from: usize,
    out: &mut Vec<usize>,
) -> Result<(), Memory>
    requires { from ≤ length triples.now }
    ensures { OnOk result (out.new.items ≡ out.old.items ++ places_from from (matches pattern.now) (drop from triples.now)) }
{
    for place in from..triples.len() {
        if match_triple(pattern, &triples[place]) {
            out.push(place)?;
        }
    }
    Ok(())
}
