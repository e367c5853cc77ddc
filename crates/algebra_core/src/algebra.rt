ghost use Rattle.std.specs.Prelude.{◌≡◌, ◌++◌, IfOk};
ghost use Rattle.algebra_core.specs.Meaning as spec;

use expr_eval::Expr;
use rdf_terms::{Boxed, Memory, Seq};
use rows_core::TriplePattern;
use std::alloc::Global;

/// An expression of the algebra (SPARQL 1.1 Query Language, section 18.2).
#[derive(Debug, Drop)]
pub enum Algebra {
    /// A basic graph pattern.
    Bgp(Seq<TriplePattern>),
    Join(Boxed<Algebra>, Boxed<Algebra>),
    Union(Boxed<Algebra>, Boxed<Algebra>),
    Filter(Expr, Boxed<Algebra>),
    /// The optional part is the second; the expression is its condition.
    LeftJoin(Boxed<Algebra>, Boxed<Algebra>, Expr),
}

impl Algebra {
    /// An equal expression. Its texts are shared with this one. It costs a copy of each part.
    pub fn copy(&self, alloc: Global) -> Result<Algebra, Memory>
        ensures { IfOk result (λ a. a ≡ self.now) }
    {
        copy_algebra(alloc, self)
    }
}

fn copy_algebra(alloc: Global, algebra: &Algebra) -> Result<Algebra, Memory>
    ensures { IfOk result (λ a. a ≡ algebra.now) }
{
    match algebra {
        Algebra::Bgp(patterns) => Ok(Algebra::Bgp(copy_patterns(alloc, patterns.as_slice())?)),
        Algebra::Join(a, b) => {
            let a = copy_algebra(alloc, a.get())?;
            let b = copy_algebra(alloc, b.get())?;
            Ok(Algebra::Join(Boxed::new(alloc, a)?, Boxed::new(alloc, b)?))
        }
        Algebra::Union(a, b) => {
            let a = copy_algebra(alloc, a.get())?;
            let b = copy_algebra(alloc, b.get())?;
            Ok(Algebra::Union(Boxed::new(alloc, a)?, Boxed::new(alloc, b)?))
        }
        Algebra::Filter(expr, a) => {
            let a = copy_algebra(alloc, a.get())?;
            Ok(Algebra::Filter(expr.copy(alloc)?, Boxed::new(alloc, a)?))
        }
        Algebra::LeftJoin(a, b, expr) => {
            let a = copy_algebra(alloc, a.get())?;
            let b = copy_algebra(alloc, b.get())?;
            let expr = expr.copy(alloc)?;
            Ok(Algebra::LeftJoin(Boxed::new(alloc, a)?, Boxed::new(alloc, b)?, expr))
        }
    }
}

fn copy_patterns(alloc: Global, patterns: &[TriplePattern]) -> Result<Seq<TriplePattern>, Memory>
    ensures { IfOk result (λ all. all ≡ patterns.now) }
{
    let mut all = Seq::new(alloc);
    for pattern in patterns {
        all.push(pattern.copy()?)?;
    }
    Ok(all)
}

/// Whether no optional part stands in the expression.
pub(crate) fn is_plain(algebra: &Algebra) -> bool
    ensures { result ≡ spec.is_plain algebra.now }
{
    match algebra {
        Algebra::Bgp(_) => true,
        Algebra::Join(a, b) => is_plain(a.get()) && is_plain(b.get()),
        Algebra::Union(a, b) => is_plain(a.get()) && is_plain(b.get()),
        Algebra::Filter(_, a) => is_plain(a.get()),
        Algebra::LeftJoin(_, _, _) => false,
    }
}

/// The patterns of the basic graph patterns, from left to right.
#[tactic(auto, using(crate::proofs::Evals::patterns))]
pub(crate) fn patterns_in(alloc: Global, algebra: &Algebra) -> Result<Seq<TriplePattern>, Memory>
    ensures { IfOk result (λ all. all ≡ spec.patterns_in algebra.now) }
{
    match algebra {
        Algebra::Bgp(patterns) => copy_patterns(alloc, patterns.as_slice()),
        Algebra::Join(a, b) => both(patterns_in(alloc, a.get())?, patterns_in(alloc, b.get())?),
        Algebra::Union(a, b) => both(patterns_in(alloc, a.get())?, patterns_in(alloc, b.get())?),
        Algebra::Filter(_, a) => patterns_in(alloc, a.get()),
        Algebra::LeftJoin(a, b, _) => both(
            patterns_in(alloc, a.get())?,
            patterns_in(alloc, b.get())?,
        ),
    }
}

fn both(first: Seq<TriplePattern>, second: Seq<TriplePattern>) -> Result<Seq<TriplePattern>, Memory>
    ensures { IfOk result (λ all. all ≡ first ++ second) }
{
    let mut all = first.into_vec();
    let mut second = second.into_vec();
    all.append(&mut second)?;
    Ok(Seq::from_vec(all))
}
