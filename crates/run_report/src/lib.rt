//! The report of a run: which links failed and why, and how many were looked up.
//!
//! Promise: a report is exactly the text that `specs/Report.antt` defines: a line for each failed
//! link by ascending link text, then the totals. Its failed links are those of the record
//! (`failed_links_are_told`).
//! Not here: the reports of runs without a record, and where a report is written (the top call).
//!
//! Want of memory is `Memory` everywhere; after it every argument that was lent is as before.
#![tactic(auto)]

mod causes;
mod failures;
mod laws;
mod report;
mod totals;

pub use crate::failures::has_failed;
pub use crate::laws::{each_entry_is_counted_once, failed_links_are_told};
pub use crate::report::record_report;
