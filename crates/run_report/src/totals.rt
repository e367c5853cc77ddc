ghost use Rattle.std.specs.Prelude.{◌≡◌, ◌++◌, ◌≤◌, IfOk, OnOk, length};
ghost use Rattle.run_report.specs.Report as spec;

use crate::causes::numbered;
use rdf_terms::{ByteBuf, Memory};
use reachability::{Entry, Found, Outcome, Record};
use std::alloc::Global;

fn is_document(found: &Found) -> bool
    ensures { result ≡ spec.is_document found.now }
{
    matches!(found, Found::Outcome(Outcome::Document(_)))
}

fn is_moved(found: &Found) -> bool
    ensures { result ≡ spec.is_moved found.now }
{
    matches!(found, Found::Outcome(Outcome::Moved(_)))
}

fn documents(entries: &[Entry]) -> u64
    ensures { result ≡ spec.documents entries.now }
{
    let mut count: u64 = 0;
    for entry in entries {
        if is_document(&entry.found) {
            count += 1;
        }
    }
    count
}

fn redirects(entries: &[Entry]) -> u64
    ensures { result ≡ spec.redirects entries.now }
{
    let mut count: u64 = 0;
    for entry in entries {
        if is_moved(&entry.found) {
            count += 1;
        }
    }
    count
}

fn push_total(alloc: Global, text: &mut ByteBuf, word: &[u8], number: u64) -> Result<(), Memory>
    ensures { OnOk result (text.new ≡ text.old ++ spec.numbered word.now number) }
{
    let more = numbered(alloc, word, number)?;
    text.extend(more.as_slice())
}

/// Puts the last line of a report behind the others: the code and the totals of a record with so
/// many failures.
pub(crate) fn push_totals(
    alloc: Global,
    text: &mut ByteBuf,
    code: u8,
    trace: &Record,
    failed: u64,
) -> Result<(), Memory>
    requires { failed ≡ length (spec.failures trace.now.entries) }
    ensures { OnOk result (text.new ≡ text.old ++ spec.totals_line code trace.now) }
{
    let entries = trace.entries.as_slice();
    push_total(alloc, text, b"status ", code as u64)?;
    push_total(alloc, text, b" settled ", entries.len() as u64)?;
    push_total(alloc, text, b" documents ", documents(entries))?;
    push_total(alloc, text, b" moved ", redirects(entries))?;
    push_total(alloc, text, b" failed ", failed)?;
    push_total(alloc, text, b" queued ", trace.queued.len() as u64)?;
    text.extend(b"\n")
}
