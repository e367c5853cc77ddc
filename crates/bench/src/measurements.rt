//! The measurements by their words.
use crate::fault::Fault;
use crate::{
    documents, evaluation, expressions, graphs, joins, lexing, messages, queries, reading,
    settling, site,
};
use std::alloc::Global;
use std::io::Read;

/// The answer of the measurement of a word, for the words behind it and its input.
pub(crate) fn answer<R: Read + Drop>(
    alloc: Global,
    word: &str,
    words: &[String],
    input: R,
) -> Result<String, Fault> {
    match word {
        "reading" => reading::answer(alloc, words, input),
        "site" => site::answer(alloc, words, input),
        "expressions" => expressions::answer(alloc, words),
        "lexing" => lexing::answer(alloc, words, input),
        "documents" => documents::answer(alloc, words, input),
        "queries" => queries::answer(alloc, words, input),
        "evaluation" => evaluation::answer(alloc, words, input),
        "graphs" => graphs::answer(alloc, words),
        "joins" => joins::answer(alloc, words),
        "messages" => messages::answer(alloc, words, input),
        "settling" => settling::answer(alloc, words),
        _ => Err(Fault::Words),
    }
}
