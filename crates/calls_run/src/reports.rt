//! Tests of `run_report`.
use rdf_terms::{Seq, TextBuf};
use reachability::{Cause, Entry, Found, Outcome, Record, Why};
use run_report::{has_failed, record_report};
use std::alloc::Global;
use std::process::Abort;

const REPORT: &[u8] =
    b"failed http://a.test/ unreachable cut 3\nfailed http://b.test/ status 404\nstatus 4 settled 3 documents 1 moved 0 failed 2 queued 1\n";

fn text(alloc: Global, rt: &impl Abort, of: &str) -> TextBuf {
    TextBuf::from_str(alloc, of).expect(rt, "memory")
}

fn push(alloc: Global, rt: &impl Abort, entries: &mut Seq<Entry>, link: &str, found: Found) {
    let link = text(alloc, rt, link);
    entries.push(Entry { link, found }).expect(rt, "memory")
}

fn lost() -> Found {
    Found::Unreachable {
        cause: Cause::Cut,
        tries: 3,
    }
}

fn empty(alloc: Global) -> Found {
    Found::Outcome(Outcome::Document(Seq::new(alloc)))
}

fn entries(alloc: Global, rt: &impl Abort) -> Seq<Entry> {
    let mut entries = Seq::new(alloc);
    let refused = Found::Outcome(Outcome::Refused(Why::Status(404)));
    push(alloc, rt, &mut entries, "http://b.test/", refused);
    push(alloc, rt, &mut entries, "http://a.test/", lost());
    push(alloc, rt, &mut entries, "http://c.test/", empty(alloc));
    entries
}

fn queued(alloc: Global, rt: &impl Abort) -> Seq<TextBuf> {
    let mut queued = Seq::new(alloc);
    queued
        .push(text(alloc, rt, "http://d.test/"))
        .expect(rt, "memory");
    queued
}

fn record(alloc: Global, rt: &impl Abort) -> Record {
    let entries = entries(alloc, rt);
    let queued = queued(alloc, rt);
    Record { entries, queued }
}

fn failures_are_seen(alloc: Global, rt: &impl Abort) -> bool {
    let entries = entries(alloc, rt);
    has_failed(entries.as_slice())
}

fn is_reported(alloc: Global, rt: &impl Abort) -> bool {
    let record = record(alloc, rt);
    record_report(alloc, 4, &record)
        .expect(rt, "memory")
        .as_slice()
        == REPORT
}

#[test]
fn failures_stand_by_link_text_before_the_totals(rt: HostRuntime) {
    let alloc = rt.alloc();
    assert!(rt; failures_are_seen(alloc, &rt));
    assert!(rt; is_reported(alloc, &rt));
}
