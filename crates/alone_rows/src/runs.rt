//! Whole runs over webs in memory.
ghost use Rattle.std.specs.Prelude.{◌≡◌, ◌<◌, [], None, Some, IfOk};
ghost use Rattle.link_uri.specs.Links.{AreLinks};
ghost use Rattle.reach_criteria.specs.declared.criterion.Criterion.TheVariants as criterion;

use crate::shown::run_text;
use crate::webs;
use algebra_core::Query;
use link_uri::Link;
use outer_ports::MemorySink;
use rdf_terms::{Memory, TextBuf};
use reach_criteria::Criterion;
use reachability::Web;
use std::alloc::Global;
use std::marker::Brand;
use traverse_core::{Finished, Job, Ran, Traversal};
use web_port::{FetchSettings, Fetcher, MemoryWeb};

/// The most bytes of a body.
const BODY: u64 = 1_048_576;

#[tactic(auto, using(traverse_core::proofs::Stepping::tells_same))]
fn run_named<J: Job, F: Fetcher>(
    alloc: Global,
    query: Query,
    seeds: Vec<Link>,
    limit: u64,
    out: MemorySink,
    fetcher: &mut F,
) -> Result<(Ran, Finished<MemorySink>), Memory>
    requires valid_links { AreLinks seeds.items }
    requires query { query ≡ J.run.query }
    requires seeds { seeds.items ≡ J.run.seeds }
    requires criterion { J.run.criterion ≡ criterion.None }
    requires limit { limit ≡ J.run.limit }
    requires body { J.run.body ≡ 1048576 }
    requires out { (J.run.content ≡ Some out.content) × (J.run.faults ≡ out.faults) }
    requires fetch { J.run.fetch ≡ F.fetch fetcher.old }
    requires idle { (F.port fetcher.old).flights ≡ [] }
{
    let _room = fetcher.room();
    match Traversal::<J, MemorySink>::open(alloc, query, seeds, Criterion::None, limit, out) {
        Ok(run) => {
            let mut run = run;
            let ran = run.run_alone(fetcher, BODY);
            Ok((ran, run.finish()))
        }
        Err(_) => Err(Memory),
    }
}

fn fetcher(
    alloc: Global,
    web: Web,
    tries: u8,
    turns: Vec<u16>,
    fails: Vec<(TextBuf, u8)>,
) -> MemoryWeb
    requires { 0 < tries }
    ensures { result.flying.flights ≡ [] }
{
    let settings = FetchSettings {
        lanes: 2,
        tries,
        body: BODY,
        via: None,
    };
    MemoryWeb::new(alloc, web, settings, turns, fails)
}

// What a run has come to, as text.
fn ran_text(
    alloc: Global,
    name: &str,
    ran: Result<(Ran, Finished<MemorySink>), Memory>,
    fetcher: &MemoryWeb,
) -> Result<String, Memory> {
    let (ran, finished) = ran?;
    run_text(alloc, name, ran, &finished, fetcher)
}

fn shown_query(
    alloc: Global,
    name: &str,
    fetcher: MemoryWeb,
    query: Query,
    seeds: Vec<Link>,
    limit: u64,
    room: u64,
) -> Result<String, Memory>
    requires idle { fetcher.flying.flights ≡ [] }
    requires valid_links { AreLinks seeds.items }
{
    let mut fetcher = fetcher;
    let out = MemorySink::new(alloc, room);
    let ran = run_named::<Brand, MemoryWeb>(alloc, query, seeds, limit, out, &mut fetcher);
    ran_text(alloc, name, ran, &fetcher)
}

// The run under its name; `room` is how many bytes its sink takes.
fn shown_run(
    alloc: Global,
    name: &str,
    fetcher: MemoryWeb,
    seeds: &[&str],
    limit: u64,
    room: u64,
) -> Result<String, Memory>
    requires { fetcher.flying.flights ≡ [] }
{
    let query = webs::names(alloc)?;
    let seeds = webs::links(alloc, seeds)?;
    shown_query(alloc, name, fetcher, query, seeds, limit, room)
}

// A fetcher of the redirects, with three tries, whose lanes take turns.
fn three_tries(alloc: Global) -> Result<MemoryWeb, Memory>
    ensures { IfOk result (λ fetcher. fetcher.flying.flights ≡ []) }
{
    let web = webs::redirects(alloc)?;
    Ok(fetcher(alloc, web, 3, Vec::new(alloc), Vec::new(alloc)))
}

const SEEDS: [&'static str; 4] = [
    "http://a.test/r",
    "http://a.test/1",
    "http://a.test/self",
    "http://a.test/x",
];

/// Redirects, over two lanes that take turns; one poll tries no lane.
pub(crate) fn redirects(alloc: Global) -> Result<String, Memory> {
    let turns = vec![in alloc; 1, 0, 65_535, 0]?;
    let web = webs::redirects(alloc)?;
    let fetcher = fetcher(alloc, web, 3, turns, Vec::new(alloc));
    shown_run(alloc, "redirects", fetcher, &SEEDS, 100, 10_000)
}

/// The sink fails while the head is written.
pub(crate) fn fails_at_once(alloc: Global) -> Result<String, Memory> {
    let fetcher = three_tries(alloc)?;
    shown_run(alloc, "a sink that fails at once", fetcher, &SEEDS, 100, 10)
}

/// The sink fails while the rows are written.
pub(crate) fn fails_at_the_end(alloc: Global) -> Result<String, Memory> {
    let fetcher = three_tries(alloc)?;
    let name = "a sink that fails at the end";
    shown_run(alloc, name, fetcher, &SEEDS, 100, 60)
}

/// No link is answered.
pub(crate) fn never_answers(alloc: Global) -> Result<String, Memory> {
    let fetcher = fetcher(
        alloc,
        webs::silent(alloc),
        3,
        Vec::new(alloc),
        Vec::new(alloc),
    );
    let seeds = ["http://a.test/1", "http://a.test/2"];
    shown_run(
        alloc,
        "a web that never answers",
        fetcher,
        &seeds,
        100,
        10_000,
    )
}

fn push_fail(
    alloc: Global,
    fails: &mut Vec<(TextBuf, u8)>,
    link: &str,
    tries: u8,
) -> Result<(), Memory> {
    let link = TextBuf::from_str(alloc, link)?;
    fails.push((link, tries))?;
    Ok(())
}

fn fails(alloc: Global) -> Result<Vec<(TextBuf, u8)>, Memory> {
    let mut fails = Vec::new(alloc);
    push_fail(alloc, &mut fails, "http://a.test/r", 1)?;
    push_fail(alloc, &mut fails, "http://a.test/x", 9)?;
    Ok(fails)
}

/// One link fails to connect in its first try, and one in each.
pub(crate) fn fails_to_connect(alloc: Global) -> Result<String, Memory> {
    let fails = fails(alloc)?;
    let web = webs::redirects(alloc)?;
    let fetcher = fetcher(alloc, web, 2, Vec::new(alloc), fails);
    let name = "links that fail to connect";
    shown_run(alloc, name, fetcher, &SEEDS, 100, 10_000)
}

/// A link that is not looked up.
pub(crate) fn refuses_a_scheme(alloc: Global) -> Result<String, Memory> {
    let fetcher = three_tries(alloc)?;
    let seeds = ["https://a.test/1"];
    shown_run(alloc, "an https link", fetcher, &seeds, 100, 10_000)
}

/// Fewer links may be looked up than there are.
pub(crate) fn stops_at_the_limit(alloc: Global) -> Result<String, Memory> {
    let fetcher = three_tries(alloc)?;
    shown_run(alloc, "a limit", fetcher, &SEEDS, 2, 10_000)
}
