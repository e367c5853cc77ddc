//! What a query means over a finished graph: the algebra of SPARQL, and its plain evaluation.
//!
//! Promise: the solutions of a query are those of SPARQL 1.1, sections 15 and 18, over the triples as
//! a set: as a list where it has keys, else as a bag. The definition is nested loops over a list of
//! triples, in `specs/`; the code looks up in a graph's indexes.  `laws.rt` ties it to the standard's words: the rows of a basic graph pattern
//! are its pattern instances, each once; a left join is a filtered join and a difference; rows in order are
//! sorted, and the names break all ties. The solutions depend on no order and no repeat of the
//! triples, and a larger graph gives no row less where a query is monotone.
//! Not here yet: joins while a graph grows. Not here: the text of rows (`json_results`).
//!
//! Want of memory is `Memory` everywhere; after it every argument that was lent is as before.
#![tactic(auto)]

mod algebra;
mod basic_patterns;
mod conditions;
mod evaluation;
mod laws;
mod ordering;
mod query;
mod substitution;

pub use crate::algebra::Algebra;
pub use crate::evaluation::{evaluate_over, evaluate_query};
pub use crate::laws::{
    each_triple_stands_once, expressions_ignore_order, left_join_is_join_and_rest,
    names_break_ties, pattern_rows_are_instances, rows_in_order_are_sorted, solutions_grow,
    solutions_ignore_order,
};
pub use crate::query::{Key, Query, is_monotone, patterns};
