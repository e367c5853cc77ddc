//! The program `ltq`: SPARQL SELECT queries over Linked Data, by following links.
//!
//! It makes the real streams, calls `answer`, and exits with the code of its status.
#![tactic(auto)]

ghost use Rattle.std.specs.Prelude.{◌≡◌};
ghost use Rattle.std.specs.Process.{exit_status};
ghost use Rattle.answer_core.specs.Codes.{code_of};

use answer_core::{Status, answer};
use outer_ports::{ReadSource, WriteSink};
use std::alloc::Global;
use std::process::ExitCode;
use std::rt::Env;
use std::{env, io};

/// The words after the program's name. It fails where one is no text.
fn words<R: Env + Alloc<A = Global>>(rt: &R) -> io::Result<Vec<String>> {
    let mut words = Vec::new(rt.alloc());
    for (i, word) in env::args(rt)?.enumerate() {
        if i > 0 {
            words.push(word)?;
        }
    }
    Ok(words)
}

fn is_want_of_memory(error: &io::Error) -> bool {
    matches!(error.kind(), io::ErrorKind::OutOfMemory)
}

fn exit_code(status: Status) -> ExitCode
    ensures { exit_status result ≡ code_of status }
{
    ExitCode::from(status.code())
}

fn main(rt: HostRuntime) -> ExitCode {
    let words = match words(&rt) {
        Ok(words) => words,
        Err(error) if is_want_of_memory(&error) => return exit_code(Status::Memory),
        // A word is no text, so the words are no command.
        Err(_) => Vec::new(rt.alloc()),
    };
    let mut input = ReadSource::new(rt.reader());
    let out = WriteSink::new(io::writer(&rt));
    let mut report = WriteSink::new(rt.stderr());
    let answer = answer(rt.alloc(), &words, &mut input, out, &mut report);
    exit_code(answer.status)
}
