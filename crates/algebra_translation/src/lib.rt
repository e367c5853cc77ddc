//! What the parts of a query make: terms, expressions, and the algebra of groups.
//!
//! Promise: each call gives what `specs/Translation.antt` says for its part, after SPARQL 1.1,
//! section 18.2: triples that only filters separate are one basic graph pattern, joins are taken from
//! the left, a join with an empty basic graph pattern is left out, the filters of a group stand round
//! it, and those of an optional group are its condition.
//! Not here: which tokens make a part (`sparql_parser`), and what an expression or the algebra
//! comes to (`expr_eval`, `algebra_core`).
//!
//! Want of memory is `Memory`.
#![tactic(auto)]

mod exprs;
mod groups;
mod selection;
mod terms;

pub use crate::exprs::{all_of, any_of, called, compared, negated, same_term, signed, sum_of};
pub use crate::groups::{
    Group, PartialGroup, empty_group, filtered, finish_group, united, with_filter, with_group,
    with_option,
};
pub use crate::selection::{once, selected_by_star};
pub use crate::terms::{
    boolean, number, plain_text, signed_number, tagged_text, type_iri, typed_text,
};
