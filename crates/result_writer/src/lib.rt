//! Rows on their way to a sink, as the text of results: written in pieces, a row made text at a
//! time.
//!
//! Promise: what the sink took, the text that is pending and the texts of the rows that wait are
//! together one text of results (`specs/Output.antt`); each call is one step on that state.
//! Not here: which rows are solutions, and when they come (`traverse_core`).
//!
//! Want of memory is `Memory` everywhere; after it all is as it was.
#![tactic(auto)]

mod format;
mod pieces;
mod writer;
mod written;

pub use crate::format::ResultFormat;
pub use crate::writer::RowWriter;
pub use crate::written::Written;
