//! One run over a site of one document, with faults.
use answer_core::answer_alone;
use outer_ports::{MemorySink, MemorySource};
use rdf_terms::{ByteBuf, Memory};
use std::alloc::Global;

/// 129 bytes.
pub(crate) const SITE: &str =
    "site 1\nlink http://a.test/1\nstatus 200\ntype application/n-triples\nbody 50\n<http://a.test/1#me> <http://v.test/name> \"Ann\" .\n\nend\n";

/// 90 bytes: a head of 46, a line end and a row of 39, a tail of 5.
const ANSWER: &str =
    "{\"head\":{\"vars\":[\"n\"]},\"results\":{\"bindings\":[\n{\"n\":{\"type\":\"literal\",\"value\":\"Ann\"}}\n]}}\n";

const QUERY: &str = "SELECT ?n WHERE { ?s <http://v.test/name> ?n }";

/// A query that is refused at the dot, byte 18.
pub(crate) const REFUSED: &str = "SELECT ?n WHERE { . }";

/// More room than any text needs.
pub(crate) const ROOM: u64 = 1000;

/// How the ports of a run fail: the numbers of the reads that do, and the bytes that the sinks take.
#[derive(Drop)]
pub(crate) struct Faults {
    pub(crate) reads: Vec<u64>,
    pub(crate) room: u64,
    pub(crate) report_room: u64,
}

fn words(alloc: Global, query: &str) -> Result<Vec<String>, Memory> {
    let all = [
        "site",
        "--criterion",
        "none",
        "--workers",
        "0",
        query,
        "http://a.test/1#me",
    ];
    let mut words = Vec::new(alloc);
    for word in &all {
        words.push(String::from_str(alloc, word)?)?;
    }
    Ok(words)
}

fn extent(content: &[u8]) -> &'static str {
    if content == ANSWER.as_bytes() {
        "the whole"
    } else if ANSWER.as_bytes().starts_with(content) {
        "a beginning"
    } else {
        "something else"
    }
}

fn first_line(content: &[u8]) -> &str {
    match str::from_utf8(content) {
        Ok(text) => match text.split_once('\n') {
            Some((line, _)) => line,
            None => text,
        },
        Err(_) => "no text",
    }
}

fn ended_text(
    alloc: Global,
    name: &str,
    code: u8,
    out: &[u8],
    report: &[u8],
) -> Result<String, Memory> {
    let written = out.len();
    let extent = extent(out);
    let told = report.len();
    let line = first_line(report);
    Ok(format!(in alloc;
        "{name}: code {code}, {written} bytes written, {extent}, {told} bytes reported: {line}"
    )?)
}

/// How a run over an input ends, under a name.
pub(crate) fn run(
    alloc: Global,
    name: &str,
    input: &str,
    faults: Faults,
) -> Result<String, Memory> {
    ask(alloc, name, QUERY, input, faults)
}

/// How a run of a query over an input ends, under a name. The input is read by 16 bytes.
pub(crate) fn ask(
    alloc: Global,
    name: &str,
    query: &str,
    input: &str,
    faults: Faults,
) -> Result<String, Memory> {
    let words = words(alloc, query)?;
    let bytes = ByteBuf::from_slice(alloc, input.as_bytes())?;
    let mut source = MemorySource::new(bytes, 16, faults.reads);
    let out = MemorySink::new(alloc, faults.room);
    let mut report = MemorySink::new(alloc, faults.report_room);
    let answer = answer_alone(alloc, &words, &mut source, out, &mut report);
    ended_text(
        alloc,
        name,
        answer.status.code(),
        answer.out.content(),
        report.content(),
    )
}
