//! Small inputs, for the word `all`.
use crate::fault::Fault;
use crate::{measurements, reading};
use std::alloc::Global;
use std::io::Read;

/// A measurement's word, the words behind it, and its input.
struct Sample(&'static str, &'static [&'static str], &'static str);

const SITE: &str = "site 1\nlink http://a.test/1\nstatus 200\nbody 3\nabc\nend\n";

const NTRIPLES: &str =
    "_:a <http://v.test/p> \"x\"@en .\n# a comment\n_:a <http://v.test/q> _:b .\n";

const PEOPLE: &str = "<http://a.test/1> <http://v.test/knows> <http://a.test/2> .
<http://a.test/1> <http://v.test/knows> \"Ann\" .
<http://a.test/2> <http://v.test/name> \"Ben\" .
";

const NAMES: &str = "SELECT ?n WHERE { ?s <http://v.test/name> ?n }";

const KNOWN: &str = "SELECT ?b WHERE { ?a <http://v.test/knows> ?b }";

const RESPONSE: &str =
    "HTTP/1.1 200 OK\r\nContent-Type: text/turtle\r\nTransfer-Encoding: chunked\r\n\r\n3\r\nabc\r\n0\r\n\r\n";

const SAMPLES: [Sample; 21] = [
    Sample("reading", &["std"], "a few bytes\n"),
    Sample("site", &["bytes"], SITE),
    Sample("site", &["read"], SITE),
    Sample("site", &["write"], SITE),
    Sample("expressions", &["rows", "9"], ""),
    Sample("expressions", &["truth", "9"], ""),
    Sample("expressions", &["value", "9"], ""),
    Sample("lexing", &["lex"], "<a> <b> \"c\" .\n"),
    Sample("documents", &["ntriples"], NTRIPLES),
    Sample("documents", &["turtle"], NTRIPLES),
    Sample("documents", &["turtle"], "<a> <b> ("),
    Sample("queries", &["3"], NAMES),
    Sample("evaluation", &[KNOWN], PEOPLE),
    Sample("messages", &["feed", "1", "2"], RESPONSE),
    Sample("messages", &["copy", "1", "2"], RESPONSE),
    Sample("graphs", &["insert", "200"], ""),
    Sample("graphs", &["po", "200"], ""),
    Sample("joins", &["feed", "matched", "9"], ""),
    Sample("joins", &["feed", "one_key", "9"], ""),
    Sample("settling", &["make", "100", "10", "2"], ""),
    Sample("settling", &["settle", "100", "10", "2"], ""),
];

fn strings(alloc: Global, texts: &[&str]) -> Result<Vec<String>, Fault> {
    let mut strings = Vec::new(alloc);
    for text in texts {
        strings.push(String::from_str(alloc, text)?)?;
    }
    Ok(strings)
}

fn answer_of(alloc: Global, sample: &Sample) -> Result<String, Fault> {
    let Sample(word, words, input) = sample;
    let words = strings(alloc, words)?;
    measurements::answer(alloc, word, words.as_slice(), input.as_bytes())
}

fn push_words(text: &mut String, sample: &Sample) -> Result<(), Fault> {
    let Sample(word, words, _) = sample;
    text.push_str(word)?;
    for word in *words {
        text.push_str(" ")?;
        text.push_str(word)?;
    }
    Ok(())
}

fn push_line(
    text: &mut String,
    sample: &Sample,
    answer: Result<String, Fault>,
) -> Result<(), Fault> {
    let answer = answer?;
    text.push_str("\n")?;
    push_words(text, sample)?;
    text.push_str(": ")?;
    text.push_str(answer.as_str())?;
    Ok(())
}

fn first_line<R: Read + Drop>(alloc: Global, input: R) -> Result<String, Fault> {
    let count = reading::by_source(alloc, input)?;
    Ok(format!(in alloc; "reading source: {count}")?)
}

/// A line for each: the input is read by the loop of `outer_ports`, and the samples are measured.
pub(crate) fn answer<R: Read + Drop>(alloc: Global, input: R) -> Result<String, Fault> {
    let mut text = first_line(alloc, input)?;
    for sample in &SAMPLES {
        push_line(&mut text, sample, answer_of(alloc, sample))?;
    }
    Ok(text)
}
