ghost use Rattle.std.specs.Prelude.{◌≡◌, ◌≢◌, ◌++◌, ◌↔◌, [], IfOk, OnOk, IsTrue, None};
ghost use Rattle.std.specs.List.Sorted.{IsPermutation, IsSorted, IsStable};
ghost use Rattle.std.specs.List.{flat_map};
ghost use Rattle.run_report.specs.Report as spec;

use crate::causes::failure_text;
use rdf_terms::{ByteBuf, Memory, TextBuf};
use reachability::{Entry, Found, Outcome};
use std::alloc::Global;

/// A link that failed, and the cause as it is written.
#[derive(Debug, Drop)]
pub(crate) struct Failure {
    link: TextBuf,
    cause: ByteBuf,
}

fn push_failure(alloc: Global, all: &mut Vec<Failure>, entry: &Entry) -> Result<(), Memory>
    ensures { OnOk result (all.new.items ≡ all.old.items ++ spec.failure_of entry.now) }
{
    match failure_text(alloc, &entry.found)? {
        Some(cause) => {
            let link = entry.link.copy()?;
            all.push(Failure { link, cause })?;
            Ok(())
        }
        None => Ok(()),
    }
}

/// The failures of the entries, in their order.
pub(crate) fn failures_of(alloc: Global, entries: &[Entry]) -> Result<Vec<Failure>, Memory>
    ensures { IfOk result (λ all. all.items ≡ spec.failures entries.now) }
{
    let mut all = Vec::new(alloc);
    for entry in entries {
        push_failure(alloc, &mut all, entry)?;
    }
    Ok(all)
}

/// Sorts failures by the bytes of their links' texts; equal ones keep their order.
pub(crate) fn rank(failures: &mut Vec<Failure>) -> Result<(), Memory>
    ensures same { IsPermutation failures.old.items failures.new.items }
    ensures sorted { OnOk result (IsSorted spec.failure_cmp failures.new.items) }
    ensures stable { OnOk result (IsStable spec.failure_cmp failures.old.items failures.new.items) }
{
    failures.sort_by(|a, b| a.link.cmp(&b.link))?;
    Ok(())
}

fn push_line(text: &mut ByteBuf, failure: &Failure) -> Result<(), Memory>
    ensures { OnOk result (text.new ≡ text.old ++ spec.failure_line failure.now) }
{
    text.extend(b"failed ")?;
    text.extend(failure.link.as_str().as_bytes())?;
    text.extend(b" ")?;
    text.extend(failure.cause.as_slice())?;
    text.extend(b"\n")
}

/// The lines of failures.
pub(crate) fn lines_of(alloc: Global, failures: &[Failure]) -> Result<ByteBuf, Memory>
    ensures { IfOk result (λ text. text ≡ flat_map spec.failure_line failures.now) }
{
    let mut text = ByteBuf::new(alloc);
    for failure in failures {
        push_line(&mut text, failure)?;
    }
    Ok(text)
}

fn is_failure(found: &Found) -> bool
    ensures { IsTrue result ↔ (spec.failure_text found.now ≢ None) }
{
    match found {
        Found::Outcome(Outcome::Document(_)) => false,
        Found::Outcome(Outcome::Moved(_)) => false,
        Found::Outcome(Outcome::Refused(_)) => true,
        Found::Unreachable { cause: _, tries: _ } => true,
    }
}

/// Whether some entry failed: it was refused, or couldn't be reached. It takes no memory.
pub fn has_failed(entries: &[Entry]) -> bool
    ensures { IsTrue result ↔ (spec.failures entries.now ≢ []) }
{
    for entry in entries {
        if is_failure(&entry.found) {
            return true;
        }
    }
    false
}
