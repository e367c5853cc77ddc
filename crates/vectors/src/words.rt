use crate::cases::{append, no_case, plain, shown, texts};
use command_words::{Command, Settings, WordsFault, read_words};
use link_uri::Link;
use rdf_terms::Memory;
use reach_criteria::Criterion;
use std::alloc::Global;
use web_port::{FetchSettings, Via};

fn criterion_text(criterion: Criterion) -> &'static str {
    match criterion {
        Criterion::All => "all",
        Criterion::None => "none",
        Criterion::Match => "match",
    }
}

fn via_text(alloc: Global, via: &Option<Via>) -> Result<String, Memory> {
    match via {
        Some(via) => {
            let host = via.host.as_str();
            let port = via.port;
            Ok(format!(in alloc; "{host}:{port}")?)
        }
        None => plain(alloc, "none"),
    }
}

fn fetch_text(alloc: Global, fetch: &FetchSettings) -> Result<String, Memory> {
    let via = via_text(alloc, &fetch.via)?;
    let body = fetch.body;
    let lanes = fetch.lanes;
    let tries = fetch.tries;
    Ok(format!(in alloc; "{body} {lanes} {tries} {via}")?)
}

fn run_text(alloc: Global, settings: &Settings) -> Result<String, Memory> {
    let fetch = fetch_text(alloc, &settings.fetch)?;
    let criterion = criterion_text(settings.criterion);
    let limit = settings.limit;
    let workers = settings.workers;
    Ok(format!(in alloc; "{criterion} {limit} {workers} {fetch}")?)
}

fn append_seeds(alloc: Global, answer: &mut String, seeds: &[Link]) -> Result<(), Memory> {
    for seed in seeds {
        append(answer, " ", shown(alloc, seed.text.as_str()))?;
    }
    Ok(())
}

fn settings_text(alloc: Global, name: &str, settings: &Settings) -> Result<String, Memory> {
    let mut answer = plain(alloc, name)?;
    append(&mut answer, " ", run_text(alloc, settings))?;
    append(&mut answer, " ", shown(alloc, settings.query.as_str()))?;
    append_seeds(alloc, &mut answer, settings.seeds.as_slice())?;
    Ok(answer)
}

fn command_text(alloc: Global, command: Command) -> Result<String, Memory> {
    match command {
        Command::Site(settings) => settings_text(alloc, "site", &settings),
        Command::Web(settings) => settings_text(alloc, "web", &settings),
        Command::Generated { n, workers } => Ok(format!(in alloc; "self {n} {workers}")?),
    }
}

fn command_or_fault(alloc: Global, words: &[String]) -> Result<String, Memory> {
    match read_words(alloc, words) {
        Ok(command) => command_text(alloc, command),
        Err(WordsFault::Usage) => plain(alloc, "usage"),
        Err(WordsFault::Memory) => Err(Memory),
    }
}

/// The command of the fields as words: its name and values, or `usage`. No word at all is the empty line.
pub fn answer(alloc: Global, line: &str) -> Result<String, Memory> {
    if line.is_empty() {
        return command_or_fault(alloc, &[]);
    }
    match texts(alloc, line)? {
        Some(words) => command_or_fault(alloc, words.as_slice()),
        None => no_case(alloc),
    }
}
