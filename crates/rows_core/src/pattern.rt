ghost use Rattle.std.specs.Prelude.{◌≡◌, IfOk, IsTrue, ◌↔◌};
ghost use Rattle.rows_core.specs.Patterns.{Matches, may_be, agree, matches};
ghost use Rattle.rows_core.specs.declared.pattern.Spot.TheVariants as spot;

use rdf_terms::{Memory, Term, Triple, is_same_term};

/// A place of a triple pattern: a term, or a variable by its number.
#[derive(Debug, Drop)]
pub enum Spot {
    Term(Term),
    Var(u16),
}

impl Spot {
    /// An equal spot. Its texts are shared with this one.
    pub fn copy(&self) -> Result<Spot, Memory>
        ensures { IfOk result (λ s. s ≡ self.now) }
    {
        match self {
            Spot::Term(term) => Ok(Spot::Term(term.copy()?)),
            Spot::Var(var) => Ok(Spot::Var(*var)),
        }
    }
}

/// A triple pattern (SPARQL 1.1 Query Language, section 18.1.5).
#[derive(Debug, Drop)]
pub struct TriplePattern {
    pub s: Spot,
    pub p: Spot,
    pub o: Spot,
}

impl TriplePattern {
    /// An equal pattern. Its texts are shared with this one.
    pub fn copy(&self) -> Result<TriplePattern, Memory>
        ensures { IfOk result (λ p. p ≡ self.now) }
    {
        Ok(TriplePattern {
            s: self.s.copy()?,
            p: self.p.copy()?,
            o: self.o.copy()?,
        })
    }
}

/// Whether some assignment of terms to the pattern's variables gives the triple (SPARQL 1.1 Query
/// Language, section 18.3.1). It costs at most six comparisons of terms. No memory.
pub fn match_triple(pattern: &TriplePattern, triple: &Triple) -> bool
    ensures test { result ≡ matches pattern.now triple.now }
    ensures meaning { IsTrue result ↔ Matches pattern.now triple.now }
{
    is_match(pattern, triple)
}

fn is_match(pattern: &TriplePattern, triple: &Triple) -> bool
    ensures { result ≡ matches pattern.now triple.now }
{
    may_have(&pattern.s, &triple.s)
        && (may_have(&pattern.p, &triple.p)
            && (may_have(&pattern.o, &triple.o)
                && (have_one(&pattern.s, &pattern.p, &triple.s, &triple.p)
                    && (have_one(&pattern.s, &pattern.o, &triple.s, &triple.o)
                        && have_one(&pattern.p, &pattern.o, &triple.p, &triple.o)))))
}

fn may_have(spot: &Spot, term: &Term) -> bool
    ensures { result ≡ may_be spot.now term.now }
{
    match spot {
        Spot::Term(own) => is_same_term(own, term),
        Spot::Var(_) => true,
    }
}

/// Whether the two terms are one where the two spots are one variable.
pub(crate) fn have_one(a: &Spot, b: &Spot, x: &Term, y: &Term) -> bool
    ensures { result ≡ agree a.now b.now x.now y.now }
{
    match a {
        Spot::Term(_) => true,
        Spot::Var(var) => has_one(*var, b, x, y),
    }
}

fn has_one(var: u16, b: &Spot, x: &Term, y: &Term) -> bool
    ensures { result ≡ agree (spot.Var var) b.now x.now y.now }
{
    match b {
        Spot::Term(_) => true,
        Spot::Var(other) => {
            if var == *other {
                is_same_term(x, y)
            } else {
                true
            }
        }
    }
}
