//! Tests of `command_words`.
use command_words::{Command, Settings, WordsFault, read_words};
use link_uri::Link;
use reach_criteria::Criterion;
use std::alloc::Global;
use std::process::Abort;
use web_port::{FetchSettings, Via};

const REFUSED: &[&str] = &[
    "",
    "help",
    "site q",
    "site --help q http://a.test",
    "self -h 1",
    "site --limit 0 q http://a.test",
    "site --limit 100001 q http://a.test",
    "site --limit 999999999999999999999999999999 q http://a.test",
    "site --limit 5 --limit 5 q http://a.test",
    "site --limit -5 q http://a.test",
    "site --limit= q http://a.test",
    "site q http://a.test --limit",
    "site --body 17 q http://a.test",
    "site --criterion some q http://a.test",
    "site --lanes 1 q http://a.test",
    "site q http://a.test mailto:a@a.test",
    "web --workers 17 q http://a.test",
    "web --lanes 33 q http://a.test",
    "web --tries 11 q http://a.test",
    "web --via a q http://a.test",
    "web --via a_b:1 q http://a.test",
    "web --via a:65536 q http://a.test",
    "web --bogus q http://a.test",
    "self 0",
    "self 2001",
    "self 1 2",
];

// The words of a line, which are parted by single spaces.
fn words(alloc: Global, rt: &impl Abort, line: &str) -> Vec<String> {
    let mut words = Vec::new(alloc);
    for word in line.split(' ') {
        let word = String::from_str(alloc, word).expect(rt, "memory");
        words.push(word).expect(rt, "memory");
    }
    words
}

fn read(alloc: Global, rt: &impl Abort, line: &str) -> Result<Command, WordsFault> {
    let words = words(alloc, rt, line);
    read_words(alloc, words.as_slice())
}

fn is_refused(alloc: Global, rt: &impl Abort, line: &str) -> bool {
    match read(alloc, rt, line) {
        Err(WordsFault::Usage) => true,
        _ => false,
    }
}

fn are_refused(alloc: Global, rt: &impl Abort) -> bool {
    for line in REFUSED {
        if !is_refused(alloc, rt, *line) {
            return false;
        }
    }
    true
}

fn site(alloc: Global, rt: &impl Abort, line: &str) -> Option<Settings> {
    match read(alloc, rt, line) {
        Ok(Command::Site(settings)) => Some(settings),
        _ => None,
    }
}

fn web(alloc: Global, rt: &impl Abort, line: &str) -> Option<Settings> {
    match read(alloc, rt, line) {
        Ok(Command::Web(settings)) => Some(settings),
        _ => None,
    }
}

fn are_seeds(seeds: &[Link], text: &str, len: usize) -> bool {
    match seeds.first() {
        Some(seed) => seeds.len() == len && seed.text.as_str() == text,
        None => false,
    }
}

fn is_without_options(settings: &Settings) -> bool {
    settings.criterion == Criterion::Match && settings.limit == 500 && settings.workers == 4
}

fn is_fetched(fetch: &FetchSettings, lanes: u16, tries: u8, body: u64) -> bool {
    fetch.lanes == lanes && fetch.tries == tries && fetch.body == body
}

fn has_defaults(alloc: Global, rt: &impl Abort) -> bool {
    let settings = site(alloc, rt, "site q http://a.test/1#me http://b.test").expect(rt, "a site");
    settings.query.as_str() == "q"
        && are_seeds(settings.seeds.as_slice(), "http://a.test/1", 2)
        && is_without_options(&settings)
        && is_fetched(&settings.fetch, 8, 3, 1_048_576)
        && settings.fetch.via.is_none()
}

fn is_via(via: &Option<Via>, host: &str, port: u16) -> bool {
    match via {
        Some(via) => via.host.as_str() == host && via.port == port,
        None => false,
    }
}

fn has_options(alloc: Global, rt: &impl Abort) -> bool {
    let line =
        "web --criterion=none --limit 0100000 --body 16 q --workers 0 --lanes=32 --tries 000000010 --via A.b-9:065535 http://a.test";
    let settings = web(alloc, rt, line).expect(rt, "the web");
    settings.criterion == Criterion::None
        && settings.limit == 100_000
        && settings.workers == 0
        && is_fetched(&settings.fetch, 32, 10, 16_777_216)
        && is_via(&settings.fetch.via, "A.b-9", 65_535)
}

fn is_taken_behind_dashes(alloc: Global, rt: &impl Abort) -> bool {
    let settings = site(alloc, rt, "site --criterion all -- --limit http://a.test").expect(
        rt, "a site",
    );
    settings.criterion == Criterion::All && settings.query.as_str() == "--limit"
}

fn is_generated(alloc: Global, rt: &impl Abort, line: &str, count: u64, sharing: u16) -> bool {
    match read(alloc, rt, line) {
        Ok(Command::Generated { n, workers }) => n == count && workers == sharing,
        _ => false,
    }
}

// A line with that many seeds.
fn seeded(alloc: Global, rt: &impl Abort, seeds: usize) -> String {
    let mut line = String::from_str(alloc, "site q").expect(rt, "memory");
    for _ in 0..seeds {
        line.push_str(" http://a.test").expect(rt, "memory");
    }
    line
}

fn has_thousand_seeds(alloc: Global, rt: &impl Abort) -> bool {
    let line = seeded(alloc, rt, 1_000);
    let settings = site(alloc, rt, line.as_str()).expect(rt, "a site");
    are_seeds(settings.seeds.as_slice(), "http://a.test/", 1_000)
}

fn has_too_many_seeds(alloc: Global, rt: &impl Abort) -> bool {
    let line = seeded(alloc, rt, 1_001);
    is_refused(alloc, rt, line.as_str())
}

fn is_refused_without_words(alloc: Global) -> bool {
    match read_words(alloc, &[]) {
        Err(WordsFault::Usage) => true,
        _ => false,
    }
}

#[test]
fn words_of_no_command_are_usage(rt: HostRuntime) {
    let alloc = rt.alloc();
    assert!(rt; is_refused_without_words(alloc));
    assert!(rt; are_refused(alloc, &rt));
    assert!(rt; has_too_many_seeds(alloc, &rt));
}

#[test]
fn words_stand_for_their_command(rt: HostRuntime) {
    let alloc = rt.alloc();
    assert!(rt; has_defaults(alloc, &rt));
    assert!(rt; has_options(alloc, &rt));
    assert!(rt; is_taken_behind_dashes(alloc, &rt));
    assert!(rt; has_thousand_seeds(alloc, &rt));
    assert!(rt; is_generated(alloc, &rt, "self 1", 1, 4));
    assert!(rt; is_generated(alloc, &rt, "self --workers=16 002000", 2_000, 16));
}
