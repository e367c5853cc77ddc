ghost use Rattle.std.specs.Prelude.{IfOk};
ghost use Rattle.run_report.specs.Report.{IsReport};

use crate::failures::{failures_of, lines_of, rank};
use crate::totals::push_totals;
use rdf_terms::{ByteBuf, Memory};
use reachability::Record;
use std::alloc::Global;

/// The report of a record under a code: a line for each failed link, by ascending link text, and
/// the line of totals. It costs n log n comparisons of link texts for n failures.
pub fn record_report(alloc: Global, code: u8, trace: &Record) -> Result<ByteBuf, Memory>
    ensures { IfOk result (λ text. IsReport code trace.now text) }
{
    let mut failures = failures_of(alloc, trace.entries.as_slice())?;
    let failed = failures.len() as u64;
    rank(&mut failures)?;
    let mut text = lines_of(alloc, failures.as_slice())?;
    push_totals(alloc, &mut text, code, trace, failed)?;
    Ok(text)
}
