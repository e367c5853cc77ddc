//! Tests of `answer_core`.
use answer_core::{Answer, QueryWhy, Status, answer_alone};
use outer_ports::{MemorySink, MemorySource};
use rdf_terms::ByteBuf;
use std::alloc::Global;
use std::process::Abort;

const QUERY: &str = "SELECT ?n WHERE { ?s <http://v.test/name> ?n }";

const SEED: &str = "http://a.test/1#me";

const SITE: &str =
    "site 1\nlink http://a.test/1\nstatus 200\ntype application/n-triples\nbody 50\n<http://a.test/1#me> <http://v.test/name> \"Ann\" .\n\nend\n";

const ANSWER: &str =
    "{\"head\":{\"vars\":[\"n\"]},\"results\":{\"bindings\":[\n{\"n\":{\"type\":\"literal\",\"value\":\"Ann\"}}\n]}}\n";

/// What a run is made of: the query, the bytes of the input, the numbers of the reads that fail, and how
/// many bytes the two sinks take.
#[derive(Clone, Copy)]
struct Case {
    query: &'static str,
    input: &'static str,
    fail: &'static [u64],
    room: u64,
    report_room: u64,
}

/// How a run ended: its status, and what the two sinks took.
#[derive(Clone, Copy)]
struct End {
    status: Status,
    out: &'static [u8],
    report: &'static [u8],
}

fn words(alloc: Global, rt: &impl Abort, query: &str) -> Vec<String> {
    let mut words = Vec::new(alloc);
    for word in ["site", "--criterion", "none", "--workers", "0", query, SEED] {
        let own = String::from_str(alloc, word).expect(rt, "memory");
        words.push(own).expect(rt, "memory");
    }
    words
}

fn source(alloc: Global, rt: &impl Abort, case: &Case) -> MemorySource {
    let bytes = ByteBuf::from_slice(alloc, case.input.as_bytes()).expect(rt, "memory");
    let fail = Vec::from_slice(alloc, case.fail).expect(rt, "memory");
    MemorySource::new(bytes, 7, fail)
}

fn run(alloc: Global, rt: &impl Abort, case: &Case, report: &mut MemorySink) -> Answer<MemorySink> {
    let words = words(alloc, rt, case.query);
    let mut source = source(alloc, rt, case);
    answer_alone(
        alloc,
        words.as_slice(),
        &mut source,
        MemorySink::new(alloc, case.room),
        report,
    )
}

fn ends(alloc: Global, rt: &impl Abort, case: &Case, end: &End) -> bool {
    let mut report = MemorySink::new(alloc, case.report_room);
    let answer = run(alloc, rt, case, &mut report);
    answer.status == end.status && answer.out.content() == end.out && report.content() == end.report
}

const CASE: Case = Case {
    query: QUERY,
    input: SITE,
    fail: &[],
    room: 1000,
    report_room: 1000,
};

#[test]
fn answers_and_reports(rt: HostRuntime) {
    let end = End {
        status: Status::Ok,
        out: ANSWER.as_bytes(),
        report: b"status 0 settled 1 documents 1 moved 0 failed 0 queued 0\n",
    };
    assert!(rt; ends(rt.alloc(), &rt, &CASE, &end));
}

#[test]
fn tells_a_fault_of_the_report(rt: HostRuntime) {
    let case = Case {
        report_room: 3,
        ..CASE
    };
    let end = End {
        status: Status::Report,
        out: ANSWER.as_bytes(),
        report: b"sta",
    };
    assert!(rt; ends(rt.alloc(), &rt, &case, &end));
}

#[test]
fn tells_a_fault_of_the_output(rt: HostRuntime) {
    let case = Case { room: 50, ..CASE };
    let end = End {
        status: Status::Output,
        out: &ANSWER.as_bytes()[..50],
        report: b"status 8 settled 1 documents 1 moved 0 failed 0 queued 0\n",
    };
    assert!(rt; ends(rt.alloc(), &rt, &case, &end));
}

#[test]
fn tells_a_fault_of_the_input(rt: HostRuntime) {
    let case = Case { fail: &[0], ..CASE };
    let end = End {
        status: Status::Input,
        out: b"",
        report: b"status 7 input\n",
    };
    assert!(rt; ends(rt.alloc(), &rt, &case, &end));
}

#[test]
fn tells_the_place_of_a_fault_of_the_site(rt: HostRuntime) {
    let case = Case {
        input: "site 2\n",
        ..CASE
    };
    let end = End {
        status: Status::Site { at: 0 },
        out: b"",
        report: b"status 6 site at 0\n",
    };
    assert!(rt; ends(rt.alloc(), &rt, &case, &end));
}

#[test]
fn tells_the_place_of_a_fault_of_the_query(rt: HostRuntime) {
    let case = Case {
        query: "SELECT ?n WHERE { ?s }",
        ..CASE
    };
    let why = QueryWhy::Syntax;
    let end = End {
        status: Status::Query { at: 21, why },
        out: b"",
        report: b"status 5 query at 21 syntax\n",
    };
    assert!(rt; ends(rt.alloc(), &rt, &case, &end));
}
