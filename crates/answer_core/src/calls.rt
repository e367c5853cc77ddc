//! The top calls.
ghost use Rattle.std.specs.Prelude.{map, string_bytes};
ghost use Rattle.command_words.specs.Words.{command_of};
ghost use Rattle.answer_core.specs.Task.{Asks, asked_alone, asked_of};
ghost use Rattle.answer_core.specs.Headline.{HasRead, Promised, StatusEvidence};
ghost use Rattle.answer_core.specs.Running.{BeforeReport};

use crate::Status;
use crate::answering::{answer_command, answer_command_alone};
use crate::report::write_report;
use crate::running::{Answer, without_record};
use command_words::{WordsFault, read_words};
use outer_ports::{Sink, Source};
use std::alloc::Global;

fn answer_words<I: Source, S: Sink>(
    alloc: Global,
    words: &[String],
    input: &mut I,
    out: S,
) -> Answer<S>
    ensures { StatusEvidence (record { bytes = S.content; faults = S.faults }) (Asks (asked_of (command_of (map string_bytes words.now))))
        (BeforeReport (HasRead (record { bytes = I.left; faults = I.faults }) I.ends (asked_of (command_of (map string_bytes words.now))) input.old input.new))
        result.trace out result.out result.status }
{
    match read_words(alloc, words) {
        Ok(command) => answer_command(alloc, command, input, out),
        Err(WordsFault::Usage) => without_record(Status::Usage, out),
        Err(WordsFault::Memory) => without_record(Status::Memory, out),
    }
}

fn answer_words_alone<I: Source, S: Sink>(
    alloc: Global,
    words: &[String],
    input: &mut I,
    out: S,
) -> Answer<S>
    ensures { StatusEvidence (record { bytes = S.content; faults = S.faults }) (Asks (asked_alone (command_of (map string_bytes words.now))))
        (BeforeReport (HasRead (record { bytes = I.left; faults = I.faults }) I.ends (asked_alone (command_of (map string_bytes words.now))) input.old input.new))
        result.trace out result.out result.status }
{
    match read_words(alloc, words) {
        Ok(command) => answer_command_alone(alloc, command, input, out),
        Err(WordsFault::Usage) => without_record(Status::Usage, out),
        Err(WordsFault::Memory) => without_record(Status::Memory, out),
    }
}

/// Answers the words (docs/FORMATS.md, "Words"): `site` runs over the site that the input holds,
/// `self` over the one that is made of a number. It looks up links from the seeds on, writes the
/// answers of the query to `out`, tells in `report` what was looked up and what failed, and how it
/// ended. Every number of workers is run by one fetcher so far.
///
/// The work goes in this order, and the first that happens ends it: words that are no command
/// (`Usage`), the command `web`, which is not built yet (`NotBuilt`), a fault of the input (`Input`), bytes
/// that are no site (`Site`), a query that is refused (`Query`), a fault of `out` (`Output`), and
/// then how the run ended; a fault of the report (`Report`) stands in the place of that alone. Want
/// of memory (`Memory`) may come at any point. Only `site` reads the input. Without a record nothing
/// is written to `out`. It costs what reading the input, the look-ups and the answers cost; a basic
/// graph pattern costs the rows that its patterns give, in turn, times the triples.
pub fn answer<I: Source, S: Sink, R: Sink>(
    alloc: Global,
    words: &[String],
    input: &mut I,
    out: S,
    report: &mut R,
) -> Answer<S>
    ensures { Promised (record { bytes = I.left; faults = I.faults }) I.ends (record { bytes = S.content; faults = S.faults })
        (record { bytes = R.content; faults = R.faults }) (asked_of (command_of (map string_bytes words.now))) result.status result.trace
        input.old input.new out result.out report.old report.new }
{
    let Answer { status, trace, out } = answer_words(alloc, words, input, out);
    let status = write_report(alloc, status, &trace, report);
    Answer { status, trace, out }
}

/// Answers the command `site` with `--workers 0` as `answer` does; other words are `Usage`.
pub fn answer_alone<I: Source, S: Sink, R: Sink>(
    alloc: Global,
    words: &[String],
    input: &mut I,
    out: S,
    report: &mut R,
) -> Answer<S>
    ensures { Promised (record { bytes = I.left; faults = I.faults }) I.ends (record { bytes = S.content; faults = S.faults })
        (record { bytes = R.content; faults = R.faults }) (asked_alone (command_of (map string_bytes words.now))) result.status result.trace
        input.old input.new out result.out report.old report.new }
{
    let Answer { status, trace, out } = answer_words_alone(alloc, words, input, out);
    let status = write_report(alloc, status, &trace, report);
    Answer { status, trace, out }
}
