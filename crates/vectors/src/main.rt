//! Prints the answer of a crate's call for each case on standard input, for comparisons with other implementations.
//!
//! The one word names the kind of the cases; with the word `mixed` each line begins with its kind and a space. A case is a
//! line of fields parted by single spaces. A field is `=` and the text as it stands, where that has no space, or `x` and the
//! bytes in hexadecimal. An answer is a line. A line that begins with `#` is a heading, and is answered by itself.
//! `scripts/vectors` feeds single kinds; the stored run is a mixed one, with the tables of all crates.
#![tactic(auto)]

mod algebra;
mod algebra_case;
mod cases;
mod criteria;
mod documents;
mod expressions;
mod generated;
mod iri;
mod joins;
mod link;
mod messages;
mod queries;
mod report;
mod rows;
mod serving;
mod site;
mod terms;
mod tokens;
mod turtle;
mod words;

use rdf_terms::Memory;
use std::alloc::Global;
use std::io::{BufRead, BufReader};
use std::process::ExitCode;
use std::{env, io};

fn answer_of_kind(alloc: Global, kind: &str, line: &str) -> Result<String, Memory> {
    match kind {
        "algebra" => algebra::answer(alloc, line),
        "link" => link::answer(alloc, line),
        "iri" => iri::answer(alloc, line),
        "join" => joins::answer(alloc, line),
        "site" => site::answer(alloc, line),
        "serve" => serving::answer(alloc, line),
        "generated" => generated::answer(alloc, line),
        "criteria" => criteria::answer(alloc, line),
        "report" => report::answer(alloc, line),
        "rows" => rows::answer(alloc, line),
        "http" | "http_pieces" => messages::answer(alloc, line),
        "terms" => terms::forms(alloc, line),
        "forms" => terms::literal_forms(alloc, line),
        "values" => terms::values(alloc, line),
        "expressions" => expressions::answer(alloc, line),
        "ntriples" => documents::ntriples(alloc, line),
        "turtle_tokens" => tokens::answer(alloc, line),
        "sparql_tokens" => tokens::query_answer(alloc, line),
        "sparql" => queries::answer(alloc, line),
        "turtle" => turtle::answer(alloc, line),
        "words" => words::answer(alloc, line),
        _ => cases::plain(alloc, "no kind"),
    }
}

fn answer(alloc: Global, kind: &str, line: &str) -> Result<String, Memory> {
    if line.starts_with('#') {
        return cases::plain(alloc, line);
    }
    if kind != "mixed" {
        return answer_of_kind(alloc, kind, line);
    }
    match line.split_once(' ') {
        Some((kind, line)) => answer_of_kind(alloc, kind, line),
        None => cases::no_case(alloc),
    }
}

fn kind_of(rt: &HostRuntime) -> io::Result<String> {
    let mut kind = String::new(rt.alloc());
    for word in env::args(rt)? {
        kind = word;
    }
    Ok(kind)
}

fn main(rt: HostRuntime) -> io::Result<ExitCode> {
    let kind = kind_of(&rt)?;
    let reader = BufReader::new(rt.alloc(), rt.reader())?;
    for line in reader.lines(rt.alloc()) {
        let line = line?;
        match answer(rt.alloc(), kind.as_str(), line.as_str()) {
            Ok(answer) => println!(rt; "{answer}")?,
            Err(Memory) => return Ok(ExitCode::from(10)),
        }
    }
    Ok(ExitCode::from(0))
}
