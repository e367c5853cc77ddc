//! Answers a measurement of the repository: the first word names it, the others say what is measured. The scripts in the
//! folder `bench` at the top take the times. The word `all` gives the answer of each for a small input, and is the stored run.
//!
//! A measurement is a module with a function `answer`, of its words and its input, a line in `measurements::answer`, and one or
//! more in `samples`. A measurement reads its input itself, or leaves it alone.
#![tactic(auto)]

mod documents;
mod evaluation;
mod expressions;
mod fault;
mod graphs;
mod input;
mod joins;
mod lexing;
mod measurements;
mod messages;
mod queries;
mod reading;
mod samples;
mod settling;
mod site;

use crate::fault::Fault;
use std::alloc::Global;
use std::io::Read;
use std::process::ExitCode;
use std::{env, io};

fn words(rt: &HostRuntime) -> io::Result<Vec<String>> {
    let mut words = Vec::new(rt.alloc());
    for word in env::args(rt)? {
        words.push(word)?;
    }
    Ok(words)
}

// The first of all words is the program's name.
fn answer<R: Read + Drop>(alloc: Global, words: &[String], input: R) -> Result<String, Fault> {
    match words {
        [_, word] if word.as_str() == "all" => samples::answer(alloc, input),
        [_, word, rest @ ..] => measurements::answer(alloc, word.as_str(), rest, input),
        _ => Err(Fault::Words),
    }
}

fn main(rt: HostRuntime) -> io::Result<ExitCode> {
    let words = words(&rt)?;
    match answer(rt.alloc(), words.as_slice(), rt.reader()) {
        Ok(text) => {
            println!(rt; "{text}")?;
            Ok(ExitCode::from(0))
        }
        Err(fault) => Ok(ExitCode::from(fault.code())),
    }
}
