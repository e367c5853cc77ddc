//! Solutions as text in the SPARQL 1.1 Query Results JSON Format, a row at a time.
//!
//! Promise: the head, a row and the tail are exactly the texts of `specs/Results.antt`.
//! Not here: which rows are solutions (`algebra_core`), and where a text is written (`outer_ports`).
#![tactic(auto)]

mod columns;
mod ends;
mod row;
mod term;

pub use crate::columns::Columns;
pub use crate::ends::{head, tail};
pub use crate::row::{append_row, row_text};
