//! Runs as text.
use outer_ports::MemorySink;
use rdf_terms::Memory;
use reachability::{Cause, Entry, Found, Outcome, Record, Why};
use std::alloc::Global;
use traverse_core::{Finished, Halt, Ran};
use web_port::{Losses, MemoryWeb};

fn why_text(alloc: Global, why: &Why) -> Result<String, Memory> {
    match why {
        Why::Status(status) => Ok(format!(in alloc; "status {status}")?),
        Why::Scheme => Ok(String::from_str(alloc, "scheme")?),
        _ => Ok(String::from_str(alloc, "otherwise")?),
    }
}

fn cause_text(cause: Cause) -> &'static str {
    match cause {
        Cause::Connect => "connect",
        Cause::Broken => "broken",
        Cause::Cut => "cut",
        Cause::Silent => "silent",
    }
}

fn found_text(alloc: Global, found: &Found) -> Result<String, Memory> {
    match found {
        Found::Outcome(Outcome::Document(triples)) => {
            let count = triples.len();
            Ok(format!(in alloc; "document {count}")?)
        }
        Found::Outcome(Outcome::Moved(link)) => {
            let text = link.text.as_str();
            Ok(format!(in alloc; "moved {text}")?)
        }
        Found::Outcome(Outcome::Refused(why)) => why_text(alloc, why),
        Found::Unreachable { cause, tries } => {
            let cause = cause_text(*cause);
            Ok(format!(in alloc; "{cause} {tries}")?)
        }
    }
}

fn push_entry(alloc: Global, text: &mut String, entry: &Entry) -> Result<(), Memory> {
    let link = entry.link.as_str();
    let found = found_text(alloc, &entry.found)?;
    let line = format!(in alloc; "{link} {found}\n")?;
    text.push_str(line.as_str())?;
    Ok(())
}

/// The entries, and the links that are queued, each on a line.
pub(crate) fn record_text(alloc: Global, record: &Record) -> Result<String, Memory> {
    let mut text = String::new(alloc);
    for entry in record.entries.as_slice() {
        push_entry(alloc, &mut text, entry)?;
    }
    for link in record.queued.as_slice() {
        text.push_str("queued ")?;
        text.push_str(link.as_str())?;
        text.push_str("\n")?;
    }
    Ok(text)
}

fn ran_text(ran: Ran) -> &'static str {
    match ran {
        Ran::Done => "done",
        Ran::Output => "output",
        Ran::Memory => "memory",
    }
}

pub(crate) fn halt_text(halted: Option<Halt>) -> &'static str {
    match halted {
        None => "no",
        Some(Halt::Output) => "output",
        Some(Halt::Memory) => "memory",
    }
}

pub(crate) fn sink_text(sink: &MemorySink) -> &str {
    match str::from_utf8(sink.content()) {
        Ok(text) => text,
        Err(_) => "no text",
    }
}

fn losses_text(alloc: Global, lost: &Losses) -> Result<String, Memory> {
    let (connect, broken, cut, silent) = (lost.connect, lost.broken, lost.cut, lost.silent);
    Ok(format!(in alloc; "connect {connect} broken {broken} cut {cut} silent {silent}")?)
}

/// A run under its name.
pub(crate) fn run_text(
    alloc: Global,
    name: &str,
    ran: Ran,
    finished: &Finished<MemorySink>,
    fetcher: &MemoryWeb,
) -> Result<String, Memory> {
    let record = record_text(alloc, &finished.trace)?;
    let out = sink_text(&finished.out);
    let ran = ran_text(ran);
    let halted = halt_text(finished.halted);
    let faults = fetcher.faults();
    let losses = fetcher.lost();
    let lost = losses_text(alloc, &losses)?;
    Ok(format!(in alloc; "{name}: {ran}, halted {halted}, faults {faults}, {lost}\n{record}{out}")?)
}
