//! Cases of reports: a status, and a record where there is one, parted by bars.
//!
//! A status is its name, with a place and a reason behind it where it has them. A record is the word `record`, and parts
//! `queued;LINK` and `entry;LINK;FOUND`. What was found is `document`, `moved;LINK`, `refused;WHY;NUMBER` or
//! `unreachable;CAUSE;TRIES`. A link is a field.

use crate::cases::{no_case, text};
use answer_core::{QueryWhy, Status, report_text};
use link_uri::link_of;
use rdf_terms::{ByteBuf, Memory, Seq, TextBuf};
use reachability::{Cause, Entry, Found, Outcome, Record, Why};
use std::alloc::Global;

/// The text of the report.
pub fn answer(alloc: Global, line: &str) -> Result<String, Memory> {
    match line.split_once('|') {
        Some((status, parts)) => answer_with(alloc, status, record_of(alloc, parts)),
        None => answer_without(alloc, line),
    }
}

fn reported(alloc: Global, text: Result<ByteBuf, Memory>) -> Result<String, Memory> {
    let text = text?;
    let digits = hex::encode(alloc, text.as_slice())?;
    Ok(format!(in alloc; "x{digits}")?)
}

fn answer_with(
    alloc: Global,
    status: &str,
    record: Result<Record, Memory>,
) -> Result<String, Memory> {
    let record = record?;
    recorded(alloc, status, &record)
}

fn recorded(alloc: Global, status: &str, record: &Record) -> Result<String, Memory> {
    let trace = Some(record);
    match status {
        "ok" => reported(alloc, report_text(alloc, &Status::Ok, trace)),
        "partial" => reported(alloc, report_text(alloc, &Status::Partial, trace)),
        "limit" => reported(alloc, report_text(alloc, &Status::Limit, trace)),
        "output" => reported(alloc, report_text(alloc, &Status::Output, trace)),
        "memory" => reported(alloc, report_text(alloc, &Status::Memory, trace)),
        "report" => reported(alloc, report_text(alloc, &Status::Report, trace)),
        _ => no_case(alloc),
    }
}

fn answer_without(alloc: Global, line: &str) -> Result<String, Memory> {
    match line {
        "usage" => reported(alloc, report_text(alloc, &Status::Usage, None)),
        "input" => reported(alloc, report_text(alloc, &Status::Input, None)),
        "memory" => reported(alloc, report_text(alloc, &Status::Memory, None)),
        _ => answer_at(alloc, line),
    }
}

fn answer_at(alloc: Global, line: &str) -> Result<String, Memory> {
    let Some((name, rest)) = line.split_once(' ') else {
        return no_case(alloc);
    };
    let (at, why) = match rest.split_once(' ') {
        Some(parts) => parts,
        None => (rest, ""),
    };
    match at.parse::<usize>() {
        Ok(at) => placed(alloc, name, at, why),
        Err(_) => no_case(alloc),
    }
}

fn placed(alloc: Global, name: &str, at: usize, why: &str) -> Result<String, Memory> {
    if name == "site" {
        return reported(alloc, report_text(alloc, &Status::Site { at }, None));
    }
    match why_of_query(why) {
        Some(why) => reported(alloc, report_text(alloc, &Status::Query { at, why }, None)),
        None => no_case(alloc),
    }
}

fn why_of_query(why: &str) -> Option<QueryWhy> {
    match why {
        "syntax" => Some(QueryWhy::Syntax),
        "unsupported" => Some(QueryWhy::Unsupported),
        "deep" => Some(QueryWhy::Deep),
        "long" => Some(QueryWhy::Long),
        _ => None,
    }
}

fn record_of(alloc: Global, parts: &str) -> Result<Record, Memory> {
    let mut record = Record {
        entries: Seq::new(alloc),
        queued: Seq::new(alloc),
    };
    for part in parts.split('|') {
        push_part(alloc, &mut record, part)?;
    }
    Ok(record)
}

fn push_part(alloc: Global, record: &mut Record, part: &str) -> Result<(), Memory> {
    let Some((word, rest)) = part.split_once(';') else {
        return Ok(());
    };
    if word == "queued" {
        return push_queued(record, link_text(alloc, rest));
    }
    match rest.split_once(';') {
        Some((link, found)) => push_entry(alloc, record, link_text(alloc, link), found),
        None => Ok(()),
    }
}

fn link_text(alloc: Global, field: &str) -> Result<TextBuf, Memory> {
    match text(alloc, field)? {
        Some(text) => TextBuf::from_string(text),
        None => TextBuf::from_str(alloc, ""),
    }
}

fn push_queued(record: &mut Record, link: Result<TextBuf, Memory>) -> Result<(), Memory> {
    let link = link?;
    record.queued.push(link)
}

fn push_entry(
    alloc: Global,
    record: &mut Record,
    link: Result<TextBuf, Memory>,
    found: &str,
) -> Result<(), Memory> {
    let link = link?;
    let found = found_of(alloc, found)?;
    record.entries.push(Entry { link, found })
}

// A document without triples where the words name nothing else.
fn found_of(alloc: Global, words: &str) -> Result<Found, Memory> {
    let Some((word, rest)) = words.split_once(';') else {
        return Ok(document(alloc));
    };
    match word {
        "moved" => moved(alloc, rest),
        "refused" => Ok(Found::Outcome(Outcome::Refused(why_of(rest)))),
        _ => Ok(unreachable_of(rest)),
    }
}

fn document(alloc: Global) -> Found {
    Found::Outcome(Outcome::Document(Seq::new(alloc)))
}

fn moved(alloc: Global, link: &str) -> Result<Found, Memory> {
    let link = link_text(alloc, link)?;
    match link_of(alloc, link.as_str())? {
        Some(link) => Ok(Found::Outcome(Outcome::Moved(link))),
        None => Ok(document(alloc)),
    }
}

fn number_behind(words: &str) -> usize {
    match words.split_once(';') {
        Some((_, number)) => number.parse::<usize>().unwrap_or(0),
        None => 0,
    }
}

fn word_of(words: &str) -> &str {
    match words.split_once(';') {
        Some((word, _)) => word,
        None => words,
    }
}

fn why_of(words: &str) -> Why {
    let number = number_behind(words);
    match word_of(words) {
        "status" => Why::Status(number.min(65535) as u16),
        "media" => Why::Media,
        "coding" => Why::Coding,
        "length" => Why::Length,
        "head" => Why::Head,
        "location" => Why::Location,
        "scheme" => Why::Scheme,
        "syntax" => Why::Syntax(number),
        _ => Why::Deep(number),
    }
}

fn unreachable_of(words: &str) -> Found {
    let tries = number_behind(words).min(255) as u8;
    Found::Unreachable {
        cause: cause_of(word_of(words)),
        tries,
    }
}

fn cause_of(word: &str) -> Cause {
    match word {
        "connect" => Cause::Connect,
        "broken" => Cause::Broken,
        "cut" => Cause::Cut,
        _ => Cause::Silent,
    }
}
