//! The values of numeric and boolean literals: what a form stands for, and sums and comparisons.
//!
//! Promise: each call equals its definition in `specs/Numbers.antt`, which speaks of digits and of
//! the number that they write. A form is judged by its datatype alone. No call takes memory.
//! Not here: terms, and which operation takes which value (`expr_eval`).
#![tactic(auto)]

mod datatypes;
mod digits;
mod literals;
mod numbers;
mod slices;

pub use crate::literals::{boolean_of, has_value_space, number_of, well_formed};
pub use crate::numbers::{Number, add, compare, sub};
