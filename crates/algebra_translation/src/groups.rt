//! What stands in a group so far, and whole groups.

ghost use Rattle.std.specs.Prelude.{◌≡◌, IfOk, if◌then◌else◌};
ghost use Rattle.algebra_core.specs.declared.algebra.Algebra.{Join, Union};
ghost use Rattle.algebra_translation.specs.Translation as spec;
ghost use Rattle.algebra_translation.specs.Views.{view, view_group};

use crate::exprs::all_of;
use crate::terms::true_term;
use algebra_core::Algebra;
use expr_eval::Expr;
use rdf_terms::{Boxed, Memory, Seq};
use rows_core::TriplePattern;
use std::alloc::Global;

/// What stands in a group so far.
#[derive(Drop)]
pub struct PartialGroup {
    /// What is joined.
    pub algebra: Algebra,
    /// The triples behind it.
    pub patterns: Vec<TriplePattern>,
    pub filters: Vec<Expr>,
}

/// A whole group, with its filters apart.
#[derive(Drop)]
pub struct Group {
    pub algebra: Algebra,
    pub filters: Vec<Expr>,
}

fn is_nothing(algebra: &Algebra) -> bool
    ensures { result ≡ spec.is_nothing algebra.now }
{
    match algebra {
        Algebra::Bgp(patterns) => has_no_patterns(patterns.as_slice()),
        _ => false,
    }
}

fn has_no_patterns(patterns: &[TriplePattern]) -> bool
    ensures { result ≡ spec.is_empty patterns.now }
{
    match patterns {
        [] => true,
        _ => false,
    }
}

fn both(alloc: Global, a: Algebra, b: Algebra) -> Result<Algebra, Memory>
    ensures { IfOk result (λ x. x ≡ Join a b) }
{
    let a = Boxed::new(alloc, a)?;
    Ok(Algebra::Join(a, Boxed::new(alloc, b)?))
}

fn joined_if(alloc: Global, a: Algebra, b: Algebra, b_is_nothing: bool) -> Result<Algebra, Memory>
    ensures { IfOk result (λ x. x ≡ (if b_is_nothing then a else Join a b)) }
{
    if b_is_nothing {
        Ok(a)
    } else {
        both(alloc, a, b)
    }
}

// Both, where a join with nothing is left out.
fn joined(alloc: Global, a: Algebra, b: Algebra) -> Result<Algebra, Memory>
    ensures { IfOk result (λ x. x ≡ spec.joined a b) }
{
    let b_is_nothing = is_nothing(&b);
    if is_nothing(&a) {
        Ok(b)
    } else {
        joined_if(alloc, a, b, b_is_nothing)
    }
}

/// Both, by UNION.
pub fn united(alloc: Global, a: Algebra, b: Algebra) -> Result<Algebra, Memory>
    ensures { IfOk result (λ x. x ≡ Union a b) }
{
    let a = Boxed::new(alloc, a)?;
    Ok(Algebra::Union(a, Boxed::new(alloc, b)?))
}

// Each of the filters, of which one alone is itself.
fn conjunction(alloc: Global, filters: Vec<Expr>) -> Result<Expr, Memory>
    ensures { IfOk result (λ e. e ≡ spec.conjunction filters.items) }
{
    let mut filters = filters;
    match filters.len() {
        0 => Ok(Expr::Constant(true_term(alloc)?)),
        1 => match filters.pop() {
            Some(only) => Ok(only),
            None => Ok(Expr::Constant(true_term(alloc)?)),
        },
        _ => Ok(all_of(filters)),
    }
}

/// The group with its filters round it.
pub fn filtered(alloc: Global, group: Group) -> Result<Algebra, Memory>
    ensures { IfOk result (λ x. x ≡ spec.filtered (view_group group)) }
{
    let Group { algebra, filters } = group;
    if filters.is_empty() {
        return Ok(algebra);
    }
    let condition = conjunction(alloc, filters)?;
    Ok(Algebra::Filter(condition, Boxed::new(alloc, algebra)?))
}

/// A group in which nothing stands yet.
pub fn empty_group(alloc: Global) -> PartialGroup
    ensures { view result ≡ spec.empty_group }
{
    PartialGroup {
        algebra: Algebra::Bgp(Seq::new(alloc)),
        patterns: Vec::new(alloc),
        filters: Vec::new(alloc),
    }
}

// What is joined, with the triples behind it.
fn with_pending_bgp(
    alloc: Global,
    algebra: Algebra,
    patterns: Vec<TriplePattern>,
) -> Result<Algebra, Memory>
    ensures { IfOk result (λ x. x ≡ spec.with_pending_bgp algebra patterns.items) }
{
    joined(alloc, algebra, Algebra::Bgp(Seq::from_vec(patterns)))
}

/// The group that ends here.
pub fn finish_group(alloc: Global, stage: PartialGroup) -> Result<Group, Memory>
    ensures { IfOk result (λ g. view_group g ≡ spec.finish_group (view stage)) }
{
    let PartialGroup {
        algebra,
        patterns,
        filters,
    } = stage;
    Ok(Group {
        algebra: with_pending_bgp(alloc, algebra, patterns)?,
        filters,
    })
}

/// With one filter more.
pub fn with_filter(stage: PartialGroup, filter: Expr) -> Result<PartialGroup, Memory>
    ensures { IfOk result (λ s. view s ≡ spec.with_filter (view stage) filter) }
{
    let PartialGroup {
        algebra,
        patterns,
        filters,
    } = stage;
    let mut filters = filters;
    filters.push(filter)?;
    Ok(PartialGroup {
        algebra,
        patterns,
        filters,
    })
}

/// With a group or a union of groups more.
pub fn with_group(
    alloc: Global,
    stage: PartialGroup,
    group: Algebra,
) -> Result<PartialGroup, Memory>
    ensures { IfOk result (λ s. view s ≡ spec.with_group (view stage) group) }
{
    let PartialGroup {
        algebra,
        patterns,
        filters,
    } = stage;
    let before = with_pending_bgp(alloc, algebra, patterns)?;
    Ok(PartialGroup {
        algebra: joined(alloc, before, group)?,
        patterns: Vec::new(alloc),
        filters,
    })
}

/// With an optional group more, whose own filters are the condition.
pub fn with_option(alloc: Global, stage: PartialGroup, group: Group) -> Result<PartialGroup, Memory>
    ensures { IfOk result (λ s. view s ≡ spec.with_option (view stage) (view_group group)) }
{
    let PartialGroup {
        algebra,
        patterns,
        filters,
    } = stage;
    let Group {
        algebra: optional,
        filters: conditions,
    } = group;
    let before = Boxed::new(alloc, with_pending_bgp(alloc, algebra, patterns)?)?;
    let optional = Boxed::new(alloc, optional)?;
    let condition = conjunction(alloc, conditions)?;
    Ok(PartialGroup {
        algebra: Algebra::LeftJoin(before, optional, condition),
        patterns: Vec::new(alloc),
        filters,
    })
}
