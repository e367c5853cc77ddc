ghost use Rattle.std.specs.Prelude.{◌≡◌, ◌++◌, ◌∷◌, ◌<◌, ◌≤◌, ◌+◌, List, [], OnOk, OnErr, if◌then◌else◌, length, take};
ghost use Rattle.rdf_terms.specs.declared.triple.Triple.{Triple};
ghost use Rattle.growing_graph.specs.declared.index.Part.{Part};
ghost use Rattle.rdf_terms.specs.declared.term.Term.{Term};
ghost use Rattle.rdf_terms.specs.Same.{same_term};
ghost use Rattle.growing_graph.specs.Indexes.{part_of as spec_part_of, places_at, Lists};

use indexmap::IndexMap;
use rdf_terms::{Memory, Seq, Term, Triple};
use std::alloc::Global;

/// A part of a triple.
#[derive(Clone, Copy)]
pub(crate) enum Part {
    Subject,
    Predicate,
    Object,
}

/// The triple's term in the part, lent.
pub(crate) fn part_of(part: Part, triple: &Triple) -> &Term
    ensures { result.now ≡ spec_part_of part triple.now }
{
    match part {
        Part::Subject => &triple.s,
        Part::Predicate => &triple.p,
        Part::Object => &triple.o,
    }
}

/// The places of triples, ascending, by their terms in one part. It may list the first triples of a
/// graph alone: what it doesn't list is looked through.
#[derive(Drop)]
pub(crate) struct Index {
    pub(crate) table: IndexMap<Term, Seq<usize>>,
    pub(crate) listed: usize,
}

// Lists the place, which is above all others, under the term.
fn list_place(
    alloc: Global,
    table: &mut IndexMap<Term, Seq<usize>>,
    term: &Term,
    place: usize,
) -> Result<(), Memory>
    ensures ok { OnOk result ((other : Term) → places_at table.new other ≡ (if same_term term.now other then places_at table.old other ++ place ∷ [] else places_at table.old other)) }
    ensures err { OnErr result ((other : Term) → places_at table.new other ≡ places_at table.old other) }
{
    match table.get_mut(term) {
        Some(places) => places.push(place)?,
        None => {
            let mut places = Seq::new(alloc);
            places.push(place)?;
            let own = term.copy()?;
            table.insert(own, places)?;
        }
    }
    Ok(())
}

impl Index {
    /// Nothing is listed. No memory is taken.
    pub(crate) fn new(alloc: Global) -> Index
        ensures table { result.table.entries ≡ [] }
        ensures listed { result.listed ≡ 0 }
    {
        Index {
            table: IndexMap::new(alloc),
            listed: 0,
        }
    }

    fn list_next(&mut self, alloc: Global, part: Part, triples: &[Triple]) -> Result<(), Memory>
        requires own { Lists part triples.now self.old.listed self.old.table }
        requires more { self.old.listed < length triples.now }
        ensures own { Lists part triples.now self.new.listed self.new.table }
        ensures next { OnOk result (self.new.listed ≡ self.old.listed + 1) }
    {
        let place = self.listed;
        list_place(
            alloc,
            &mut self.table,
            part_of(part, &triples[place]),
            place,
        )?;
        self.listed = place + 1;
        Ok(())
    }

    /// Lists the triples that aren't listed yet, as far as memory allows.
    pub(crate) fn list(&mut self, alloc: Global, part: Part, triples: &[Triple])
        requires { Lists part triples.now self.old.listed self.old.table }
        ensures { Lists part triples.now self.new.listed self.new.table }
    {
        for _place in self.listed..triples.len() {
            match self.list_next(alloc, part, triples) {
                Ok(()) => {}
                Err(Memory) => return,
            }
        }
    }

    /// Forgets the places from `len` on. No memory is taken; where some are listed all are forgotten,
    /// and listed anew when a triple comes.
    #[tactic(auto, using(crate::proofs::Listing::lists_none, crate::proofs::Listing::lists_short))]
    pub(crate) fn shorten(&mut self, len: usize)
        ensures { (part : Part) (triples : List Triple) → Lists part triples self.old.listed self.old.table → Lists part (take len triples) self.new.listed self.new.table }
    {
        if len < self.listed {
            self.table.clear();
            self.listed = 0;
        }
    }
}
