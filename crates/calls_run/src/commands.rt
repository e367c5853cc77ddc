//! Tests of `answer_core` over the commands, and of the text of a report.
ghost use Rattle.std.specs.Prelude.{None, Some};
ghost use Rattle.answer_core.specs.ReportText.{IsGiven};

use answer_core::{Answer, Status, answer, answer_alone, report_text};
use outer_ports::{MemorySink, MemorySource};
use rdf_terms::{ByteBuf, Seq, TextBuf};
use reachability::{Cause, Entry, Found, Record};
use std::alloc::Global;
use std::process::Abort;

const USAGE: &[u8] =
    b"status 2 usage\nltq site [OPTIONS] QUERY SEED...\nltq web [OPTIONS] QUERY SEED...\nltq self [OPTIONS] N\n";

const SELF: &[u8] =
    b"{\"head\":{\"vars\":[\"m\"]},\"results\":{\"bindings\":[\n{\"m\":{\"datatype\":\"http://www.w3.org/2001/XMLSchema#integer\",\"type\":\"literal\",\"value\":\"0\"}}\n]}}\n";

/// How a run ended: its status, what the two sinks took, and whether the input was read.
#[derive(Clone, Copy)]
struct End {
    status: Status,
    out: &'static [u8],
    report: &'static [u8],
}

fn owned(alloc: Global, rt: &impl Abort, words: &[&str]) -> Vec<String> {
    let mut all = Vec::new(alloc);
    for word in words {
        let own = String::from_str(alloc, word).expect(rt, "memory");
        all.push(own).expect(rt, "memory");
    }
    all
}

fn input(alloc: Global, rt: &impl Abort) -> MemorySource {
    let bytes = ByteBuf::from_slice(alloc, b"site 1\nend\n").expect(rt, "memory");
    let fail = Vec::from_slice(alloc, &[0]).expect(rt, "memory");
    MemorySource::new(bytes, 7, fail)
}

fn is_end(answer: &Answer<MemorySink>, report: &MemorySink, end: &End) -> bool {
    answer.status == end.status && answer.out.content() == end.out && report.content() == end.report
}

/// The input fails at its first read, so that a run which read it would say so.
fn ends(alloc: Global, rt: &impl Abort, words: &[&str], end: &End) -> bool {
    let words = owned(alloc, rt, words);
    let mut input = input(alloc, rt);
    let mut report = MemorySink::new(alloc, 1000);
    let out = MemorySink::new(alloc, 1000);
    let answer = answer(alloc, words.as_slice(), &mut input, out, &mut report);
    is_end(&answer, &report, end)
}

fn ends_alone(alloc: Global, rt: &impl Abort, words: &[&str], end: &End) -> bool {
    let words = owned(alloc, rt, words);
    let mut input = input(alloc, rt);
    let mut report = MemorySink::new(alloc, 1000);
    let out = MemorySink::new(alloc, 1000);
    let answer = answer_alone(alloc, words.as_slice(), &mut input, out, &mut report);
    is_end(&answer, &report, end)
}

const REFUSED: End = End {
    status: Status::Usage,
    out: b"",
    report: USAGE,
};

#[test]
fn runs_over_a_generated_site_and_leaves_the_input(rt: HostRuntime) {
    let end = End {
        status: Status::Ok,
        out: SELF,
        report: b"status 0 settled 2 documents 2 moved 0 failed 0 queued 0\n",
    };
    assert!(rt; ends(rt.alloc(), &rt, &["self", "--workers", "0", "1"], &end));
}

#[test]
fn answers_usage_for_words_that_are_no_command(rt: HostRuntime) {
    assert!(rt; ends(rt.alloc(), &rt, &[], &REFUSED));
    assert!(rt; ends(rt.alloc(), &rt, &["self", "2001"], &REFUSED));
    assert!(rt; ends(rt.alloc(), &rt, &["site", "q", "mailto:a@a.test"], &REFUSED));
}

#[test]
fn says_that_the_network_is_not_built(rt: HostRuntime) {
    let end = End {
        status: Status::NotBuilt,
        out: b"",
        report: b"status 12 not built\n",
    };
    assert!(rt; ends(rt.alloc(), &rt, &["web", "q", "http://a.test/"], &end));
}

#[test]
fn reads_the_input_of_a_site(rt: HostRuntime) {
    let end = End {
        status: Status::Input,
        out: b"",
        report: b"status 7 input\n",
    };
    assert!(rt; ends(rt.alloc(), &rt, &["site", "q", "http://a.test/"], &end));
    assert!(rt;
        ends_alone(
            rt.alloc(),
            &rt,
            &["site", "--workers", "0", "q", "http://a.test/"],
            &end
        )
    );
}

#[test]
fn alone_it_answers_a_site_without_workers(rt: HostRuntime) {
    assert!(rt; ends_alone(rt.alloc(), &rt, &["site", "q", "http://a.test/"], &REFUSED));
    assert!(rt; ends_alone(rt.alloc(), &rt, &["self", "--workers", "0", "1"], &REFUSED));
    assert!(rt;
        ends_alone(
            rt.alloc(),
            &rt,
            &["web", "--workers", "0", "q", "http://a.test/"],
            &REFUSED
        )
    );
    assert!(rt; ends_alone(rt.alloc(), &rt, &["site"], &REFUSED));
}

/// A record of one link that was lost.
fn lost(alloc: Global, rt: &impl Abort) -> Record {
    let link = TextBuf::from_str(alloc, "http://a.test/").expect(rt, "memory");
    let cause = Cause::Cut;
    let found = Found::Unreachable { cause, tries: 3 };
    let mut entries = Seq::new(alloc);
    entries.push(Entry { link, found }).expect(rt, "memory");
    Record {
        entries,
        queued: Seq::new(alloc),
    }
}

fn reads(alloc: Global, rt: &impl Abort, status: Status, text: &[u8]) -> bool
    requires { IsGiven status None }
{
    let found = report_text(alloc, &status, None).expect(rt, "memory");
    found.as_slice() == text
}

fn reads_over(alloc: Global, rt: &impl Abort, status: Status, trace: &Record, text: &[u8]) -> bool
    requires { IsGiven status (Some trace.now) }
{
    let found = report_text(alloc, &status, Some(trace)).expect(rt, "memory");
    found.as_slice() == text
}

#[test]
fn gives_the_text_of_a_report(rt: HostRuntime) {
    let alloc = rt.alloc();
    let lost = lost(alloc, &rt);
    assert!(rt; reads(alloc, &rt, Status::Usage, USAGE));
    assert!(rt; reads_over(alloc, &rt, Status::Memory, &lost, b"status 10 memory\n"));
    assert!(rt;
        reads_over(
            alloc,
            &rt,
            Status::Report,
            &lost,
            b"failed http://a.test/ unreachable cut 3\nstatus 3 settled 1 documents 0 moved 0 failed 1 queued 0\n"
        )
    );
}
