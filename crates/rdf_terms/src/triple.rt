ghost use Rattle.std.specs.Prelude.{◌≡◌, IfOk, IsTrue, ◌↔◌};
ghost use Rattle.rdf_terms.specs.Same.{same_triple};

use crate::{Memory, Term};

/// A triple: subject, predicate, object (RDF 1.1 Concepts, section 3.1). It is ordered by these in
/// turn.
#[derive(Debug, Drop, PartialEq, Eq, PartialOrd, Ord, Hash)]
pub struct Triple {
    pub s: Term,
    pub p: Term,
    pub o: Term,
}

impl Triple {
    /// An equal triple. Its texts are shared with this one.
    pub fn copy(&self) -> Result<Triple, Memory>
        ensures { IfOk result (λ t. t ≡ self.now) }
    {
        Ok(Triple {
            s: self.s.copy()?,
            p: self.p.copy()?,
            o: self.o.copy()?,
        })
    }
}

/// Whether two triples are one. It is `==`, said of the values.
pub fn is_same_triple(a: &Triple, b: &Triple) -> bool
    ensures test { result ≡ same_triple a.now b.now }
    ensures same { IsTrue result ↔ (a.now ≡ b.now) }
{
    *a == *b
}
