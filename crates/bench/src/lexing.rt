//! Cuts its input into the tokens of Turtle (word `lex`): how many bytes came, how many tokens they are, and the place where the
//! last token stands; or reads it alone (word `read`).
use crate::fault::Fault;
use crate::input;
use std::alloc::Global;
use std::io::Read;
use turtle_lexer::lex_turtle;

fn tokens(alloc: Global, bytes: &[u8]) -> Result<String, Fault> {
    let tokens = lex_turtle(alloc, bytes)?;
    let number = tokens.len();
    let last = tokens.last().map_or(0, |token| token.from);
    let count = bytes.len();
    Ok(format!(in alloc; "{count} {number} {last}")?)
}

fn length(alloc: Global, bytes: &[u8]) -> Result<String, Fault> {
    let count = bytes.len();
    Ok(format!(in alloc; "{count}")?)
}

pub(crate) fn answer<R: Read + Drop>(
    alloc: Global,
    words: &[String],
    input: R,
) -> Result<String, Fault> {
    let [way] = words else {
        return Err(Fault::Words);
    };
    let bytes = input::bytes(alloc, input)?;
    match way.as_str() {
        "lex" => tokens(alloc, bytes.as_slice()),
        "read" => length(alloc, bytes.as_slice()),
        _ => Err(Fault::Words),
    }
}
