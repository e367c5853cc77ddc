//! Expressions of filters and sort keys: what they come to, and the order of terms.
//!
//! Promise: `evaluate` answers the term or the type error of `value_of` in `specs/Value.antt`, for
//! every expression and all bindings; `order` is a total order, and only equal terms tie in it.
//! Not here: which texts are expressions (`sparql_parser`), and what a filter does with a value
//! (`algebra_core`).
//!
//! Want of memory is `Memory`; only `evaluate`, `evaluate_truth` and `Expr::copy` can meet it.
#![tactic(auto)]

mod calls;
mod env;
mod evaluation;
mod expr;
mod laws;
mod making;
mod operand;
mod ordering;
mod truth;

pub use crate::env::Env;
pub use crate::evaluation::{Evaluated, evaluate, evaluate_truth};
pub use crate::expr::{CompareOp, Expr, Function, Sign};
pub use crate::laws::the_order_is_total;
pub use crate::ordering::order;
pub use crate::truth::{ebv, equal, less};
