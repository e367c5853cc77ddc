ghost use Rattle.std.specs.Prelude.{ℕ, ◌≡◌, ◌↔◌, Bool, List, [], ◌∷◌, ◌++◌, filter};
ghost use Rattle.std.specs.List.Sorted.{IsPermutation, IsSorted};
ghost use Rattle.rdf_terms.specs.declared.triple.Triple.{Triple};
ghost use Rattle.rdf_terms.specs.Lists.{IsIn, Apart};
ghost use Rattle.rows_core.specs.declared.pattern.TriplePattern.{TriplePattern};
ghost use Rattle.rows_core.specs.Rows.{Cells, unbound};
ghost use Rattle.algebra_core.specs.Bags.{IsSubBag, SameMembers, IsWithin};
ghost use Rattle.algebra_core.specs.Graphs.{graph, all_extended};
ghost use Rattle.algebra_core.specs.PatternInstances.{IsPatternInstance};
ghost use Rattle.algebra_core.specs.Laws.{IgnoresOrder, Grows, KeepsShape};
ghost use Rattle.algebra_core.specs.Meaning.{eval, join, left_joined};
ghost use Rattle.algebra_core.specs.Order.{in_order, row_cmp, solution_cmp};
ghost use Rattle.algebra_core.specs.OptionalParts.{unmatched};
ghost use Rattle.algebra_core.specs.Query.{Answers, IsMonotone, body_rows, solutions};

use crate::algebra::Algebra;
use crate::query::Query;

/// Before the blank nodes are dropped, the rows of a basic graph pattern are exactly its pattern
/// instance mappings, which map its variables and blank nodes so that each pattern is a triple of the
/// graph; each stands once (SPARQL 1.1 Query Language, section 18.3.1).
///
/// A law: it does nothing.
pub fn pattern_rows_are_instances()
    ensures exact { (patterns : List TriplePattern) (width : ℕ) (g : List Triple) (row : Cells) → IsIn (all_extended patterns (graph g) (unbound width ∷ [])) row ↔ IsPatternInstance patterns width g row }
    ensures once { (patterns : List TriplePattern) (width : ℕ) (g : List Triple) → Apart (all_extended patterns (graph g) (unbound width ∷ [])) }
{}

/// A left join is, as a bag, the join with the rows that fail the condition left out, and the rows
/// of the first part that have no match (SPARQL 1.1 Query Language, section 18.5: Filter, Join and
/// Diff).
///
/// A law: it does nothing.
pub fn left_join_is_join_and_rest()
    ensures { (holds : Cells → Bool) (xs ys : List Cells) → IsPermutation (left_joined holds xs ys) (filter holds (join xs ys) ++ unmatched holds xs ys) }
{}

/// The solutions depend neither on the order nor on the repeats of the triples: as a list where
/// the query has keys, else as a bag.
///
/// A law: it walks over the query, and gives nothing.
pub fn solutions_ignore_order(query: &Query)
    ensures { (g h : List Triple) → SameMembers g h → Answers query.now h (solutions query.now g) }
{
    ignore_order(&query.body);
}

/// A larger graph gives each solution of a monotone query at least as often.
///
/// A law: it walks over the query, and gives nothing.
pub fn solutions_grow(query: &Query)
    ensures { IsMonotone query.now → (g h : List Triple) → IsWithin g h → IsSubBag (solutions query.now g) (solutions query.now h) }
{
    grow(&query.body);
}

/// Rows in order are the same bag, and none is greater than the next (SPARQL 1.1 Query Language,
/// section 15.1).
///
/// A law: it does nothing.
pub fn rows_in_order_are_sorted(query: &Query)
    ensures bag { (rows : List Cells) → IsPermutation rows (in_order (row_cmp query.now) rows) }
    ensures sorted { (rows : List Cells) → IsSorted (row_cmp query.now) (in_order (row_cmp query.now) rows) }
{
    let _query = query;
}

/// Rows of a query's body tie only where they are equal, once the keys and the bindings of all names
/// are compared: what `row_cmp` compares last decides nothing.
///
/// A law: it walks over the query, and gives nothing.
pub fn names_break_ties(query: &Query)
    ensures { (g : List Triple) (a b : Cells) → IsIn (body_rows query.now g) a → IsIn (body_rows query.now g) b → row_cmp query.now a b ≡ solution_cmp query.now a b }
{
    keep_shape(&query.body);
}

/// What an expression gives over a graph is, as a bag, one for each order of its triples, and so one
/// for each way to list them once.
///
/// A law: it walks over the expression, and gives nothing.
pub fn expressions_ignore_order(algebra: &Algebra)
    ensures bags { IgnoresOrder algebra.now }
    ensures graphs { (width names : ℕ) (g h : List Triple) → Apart g → Apart h → SameMembers g h → IsPermutation (eval algebra.now width names g) (eval algebra.now width names h) }
{
    ignore_order(algebra);
}

/// The body of a query is evaluated over a graph: a list of triples each of which stands once, and
/// has the members of the list that is given. A graph is its own.
///
/// A law: it does nothing.
pub fn each_triple_stands_once()
    ensures once { (triples : List Triple) → Apart (graph triples) }
    ensures same { (triples : List Triple) → SameMembers (graph triples) triples }
    ensures own { (triples : List Triple) → Apart triples → graph triples ≡ triples }
{}

#[tactic(auto, using(crate::proofs::Shapes::shapes))]
fn keep_shape(algebra: &Algebra)
    ensures { KeepsShape algebra.now }
{
    match algebra {
        Algebra::Bgp(_) => {}
        Algebra::Join(a, b) => {
            keep_shape(a.get());
            keep_shape(b.get());
        }
        Algebra::Union(a, b) => {
            keep_shape(a.get());
            keep_shape(b.get());
        }
        Algebra::Filter(_, a) => keep_shape(a.get()),
        Algebra::LeftJoin(a, b, _) => {
            keep_shape(a.get());
            keep_shape(b.get());
        }
    }
}

#[tactic(auto, using(crate::proofs::ExpressionBags::orders))]
fn ignore_order(algebra: &Algebra)
    ensures { IgnoresOrder algebra.now }
{
    match algebra {
        Algebra::Bgp(_) => {}
        Algebra::Join(a, b) => {
            ignore_order(a.get());
            ignore_order(b.get());
        }
        Algebra::Union(a, b) => {
            ignore_order(a.get());
            ignore_order(b.get());
        }
        Algebra::Filter(_, a) => ignore_order(a.get()),
        Algebra::LeftJoin(a, b, _) => {
            ignore_order(a.get());
            ignore_order(b.get());
        }
    }
}

#[tactic(auto, using(crate::proofs::ExpressionBags::growths))]
fn grow(algebra: &Algebra)
    ensures { Grows algebra.now }
{
    match algebra {
        Algebra::Bgp(_) => {}
        Algebra::Join(a, b) => {
            grow(a.get());
            grow(b.get());
        }
        Algebra::Union(a, b) => {
            grow(a.get());
            grow(b.get());
        }
        Algebra::Filter(_, a) => grow(a.get()),
        Algebra::LeftJoin(a, b, _) => {
            grow(a.get());
            grow(b.get());
        }
    }
}
