ghost use Rattle.std.specs.Prelude.{◌≡◌, ◌↔◌, IfOk, IsTrue};
ghost use Rattle.algebra_core.specs.Meaning.{patterns_in as patterns_of};
ghost use Rattle.algebra_core.specs.Query.{IsMonotone};

use crate::algebra::{Algebra, is_plain, patterns_in};
use expr_eval::Expr;
use rdf_terms::{Memory, Seq, TextBuf};
use rows_core::TriplePattern;
use std::alloc::Global;

/// A key by which solutions are ordered.
#[derive(Debug, Drop)]
pub struct Key {
    pub expr: Expr,
    pub descending: bool,
}

impl Key {
    /// An equal key. Its texts are shared with this one. It costs a copy of each part.
    pub fn copy(&self, alloc: Global) -> Result<Key, Memory>
        ensures { IfOk result (λ k. k ≡ self.now) }
    {
        Ok(Key {
            expr: self.expr.copy(alloc)?,
            descending: self.descending,
        })
    }
}

/// A SELECT query. Variables are numbers: those below the number of names have a name, those from
/// there to the width are the blank nodes of patterns.
#[derive(Debug, Drop)]
pub struct Query {
    pub names: Seq<TextBuf>,
    pub width: u16,
    /// The selected variables, in the order of the results.
    pub select: Seq<u16>,
    pub distinct: bool,
    pub body: Algebra,
    /// The keys of the order; without one, the order of solutions means nothing.
    pub order: Seq<Key>,
}

impl Query {
    /// An equal query. Its texts are shared with this one. It costs a copy of each part.
    pub fn copy(&self, alloc: Global) -> Result<Query, Memory>
        ensures { IfOk result (λ q. q ≡ self.now) }
    {
        Ok(Query {
            names: copy_names(alloc, self.names.as_slice())?,
            width: self.width,
            select: copy_numbers(alloc, self.select.as_slice())?,
            distinct: self.distinct,
            body: self.body.copy(alloc)?,
            order: copy_keys(alloc, self.order.as_slice())?,
        })
    }
}

fn copy_names(alloc: Global, names: &[TextBuf]) -> Result<Seq<TextBuf>, Memory>
    ensures { IfOk result (λ all. all ≡ names.now) }
{
    let mut all = Seq::new(alloc);
    for name in names {
        all.push(name.copy()?)?;
    }
    Ok(all)
}

fn copy_keys(alloc: Global, keys: &[Key]) -> Result<Seq<Key>, Memory>
    ensures { IfOk result (λ all. all ≡ keys.now) }
{
    let mut all = Seq::new(alloc);
    for key in keys {
        all.push(key.copy(alloc)?)?;
    }
    Ok(all)
}

fn copy_numbers(alloc: Global, numbers: &[u16]) -> Result<Seq<u16>, Memory>
    ensures { IfOk result (λ all. all ≡ numbers.now) }
{
    Ok(Seq::from_vec(Vec::from_slice(alloc, numbers)?))
}

/// The patterns of the body's basic graph patterns from left to right, those of each in its order.
/// It costs a copy of each pattern, and moves each at most once a level of the body.
pub fn patterns(alloc: Global, query: &Query) -> Result<Seq<TriplePattern>, Memory>
    ensures { IfOk result (λ all. all ≡ patterns_of query.now.body) }
{
    patterns_in(alloc, &query.body)
}

/// Whether a larger graph gives no row less: exactly where no optional part stands in the body and
/// there is no key. It costs a walk over the body. No memory.
pub fn is_monotone(query: &Query) -> bool
    ensures { IsTrue result ↔ IsMonotone query.now }
{
    is_plain(&query.body) && query.order.is_empty()
}
