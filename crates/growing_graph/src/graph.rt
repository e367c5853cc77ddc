ghost use Rattle.std.specs.Prelude.{◌≡◌, ◌≤◌, ◌<◌, ◌++◌, ◌∷◌, [], length, take, slice_get, IfOk, OnOk, OnErr, IsTrue, Some};
ghost use Rattle.rdf_terms.specs.Lists.{IsIn, Apart, add_once, add_all};
ghost use Rattle.rdf_terms.specs.Same.{same_triple};
ghost use Rattle.rows_core.specs.Patterns.{Matches, matches};
ghost use Rattle.growing_graph.specs.Places.{places};
ghost use Rattle.growing_graph.specs.Indexes.{Covers};

use crate::index::{Index, Part};
use crate::near::{Near, near_of, nearer, push_matching_at, push_matching_from};
use indexmap::IndexSet;
use rdf_terms::{Memory, Triple};
use rows_core::TriplePattern;
use std::alloc::Global;
use std::marker::Model;

/// Triples in the order in which they came, each once, with indexes by subject, predicate and object.
#[derive(Drop)]
pub struct Graph {
    alloc: Global,
    set: IndexSet<Triple>,
    by_subject: Index,
    by_predicate: Index,
    by_object: Index,
}

impl Model for Graph {
    ghost use Rattle.std.specs.Prelude.{List};
    ghost use Rattle.rdf_terms.specs.declared.triple.Triple.{Triple};
    ghost use Rattle.growing_graph.specs.Indexes.{IsIndexed};

    ghost Value = { List Triple };

    ghost view = { λ g. g.set.keys };

    ghost invariant = { λ g. IsIndexed g.set.keys g.by_subject.listed g.by_subject.table g.by_predicate.listed g.by_predicate.table g.by_object.listed g.by_object.table };
}

impl Graph {
    /// No triples. No memory is taken.
    #[tactic(auto, using(crate::proofs::Indexing::indexed_none))]
    pub fn new(alloc: Global) -> Graph
        ensures { result ≡ [] }
    {
        Graph {
            alloc,
            set: IndexSet::new(alloc),
            by_subject: Index::new(alloc),
            by_predicate: Index::new(alloc),
            by_object: Index::new(alloc),
        }
    }

    /// The number of triples, of which no two are one.
    pub fn len(&self) -> usize
        ensures len { result ≡ length self.now }
        ensures once { Apart self.now }
    {
        self.set.len()
    }

    /// No two of its triples are one.
    ///
    /// A law: it does nothing.
    pub fn has_each_once(&self)
        ensures { Apart self.now }
    {
        let _set = &self.set;
    }

    /// The triples themselves, lent.
    pub fn as_slice(&self) -> &[Triple]
        ensures { result.now ≡ self.now }
    {
        self.set.as_slice()
    }

    /// The triple at a place.
    pub fn at(&self, i: usize) -> &Triple
        requires { i < length self.now }
        ensures { Some result.now ≡ slice_get self.now i }
    {
        &self.set.as_slice()[i]
    }

    // Lists in each index what isn't listed, as far as memory allows: what an index doesn't list is looked through.
    fn list(&mut self)
        ensures { self.new ≡ self.old }
    {
        let triples = self.set.as_slice();
        self.by_subject.list(self.alloc, Part::Subject, triples);
        self.by_predicate.list(self.alloc, Part::Predicate, triples);
        self.by_object.list(self.alloc, Part::Object, triples);
    }

    fn near(&self, pattern: &TriplePattern) -> Near<'_>
        ensures { Covers pattern.now self.now result.places.now result.listed }
    {
        let subject = near_of(&self.by_subject, &pattern.s);
        let predicate = near_of(&self.by_predicate, &pattern.p);
        let object = near_of(&self.by_object, &pattern.o);
        nearer(nearer(subject, object), predicate)
    }

    /// The places of the triples that match the pattern, ascending. It costs what is tried: the triples
    /// that have the rarest of the pattern's terms in its place; all, where the pattern has no term.
    pub fn matching(&self, pattern: &TriplePattern) -> Result<Vec<usize>, Memory>
        ensures { IfOk result (λ found. found.items ≡ places (matches pattern.now) self.now) }
    {
        let near = self.near(pattern);
        let mut found = Vec::new(self.alloc);
        push_matching_at(pattern, self.set.as_slice(), near.places, &mut found)?;
        push_matching_from(pattern, self.set.as_slice(), near.listed, &mut found)?;
        Ok(found)
    }

    /// Appends the triple where it isn't there, and tells whether it did.
    pub fn insert(&mut self, triple: Triple) -> Result<bool, Memory>
        ensures graph { OnOk result (self.new ≡ add_once same_triple self.old triple) }
        ensures added { IfOk result (λ b. IsTrue b → (IsIn self.old triple → ⊥) × (self.new ≡ self.old ++ triple ∷ [])) }
        ensures there { IfOk result (λ b. (IsTrue b → ⊥) → IsIn self.old triple × (self.new ≡ self.old)) }
        ensures err { OnErr result (self.new ≡ self.old) }
    {
        let added = self.set.insert(triple)?;
        self.list();
        Ok(added)
    }

    /// Keeps the first triples.
    pub fn shorten(&mut self, len: usize)
        requires { len ≤ length self.old }
        ensures { self.new ≡ take len self.old }
    {
        self.set.truncate(len);
        self.by_subject.shorten(len);
        self.by_predicate.shorten(len);
        self.by_object.shorten(len);
    }

    // A copy shares the texts, so that one which isn't kept costs little.
    fn insert_copy(&mut self, triple: &Triple) -> Result<(), Memory>
        ensures ok { OnOk result (self.new ≡ add_once same_triple self.old triple.now) }
        ensures err { OnErr result (self.new ≡ self.old) }
    {
        self.insert(triple.copy()?)?;
        Ok(())
    }

    /// Appends the triples that aren't there, each once, in their order. It costs one hash and
    /// one copy of each triple; a copy shares its texts.
    #[tactic(auto, using(crate::proofs::Logging::log_more, crate::proofs::Logging::take_log, crate::proofs::Logging::le_log))]
    pub fn extend(&mut self, triples: &[Triple]) -> Result<(), Memory>
        ensures ok { OnOk result (self.new ≡ add_all same_triple self.old triples.now) }
        ensures err { OnErr result (self.new ≡ self.old) }
    {
        let len = self.len();
        for triple in triples {
            match self.insert_copy(triple) {
                Ok(()) => {}
                Err(error) => {
                    self.shorten(len);
                    return Err(error);
                }
            }
        }
        Ok(())
    }
}
