//! Settles documents that lead to one another, under the criterion of all links. The first word says how: `make` makes the
//! commands of the steps alone, `settle` has a traversal follow them. The second word is the number of links of one
//! traversal; the third is how many new links a document names, until there are so many; the fourth is the number of
//! traversals. The answer is how many commands were made, or how many links were settled.
ghost use Rattle.std.specs.Prelude.{◌≡◌, ◌∷◌, [], None, Some, false, IfOk, IfSome, OnOk};
ghost use Rattle.link_uri.specs.Links.{IsLink, AreLinks};
ghost use Rattle.reach_criteria.specs.declared.criterion.Criterion.TheVariants as criterion;
ghost use Rattle.traverse_core.specs.Steps.{AllMayBe, MayBe};

mod tree;

use crate::fault::Fault;
use crate::settling::tree::{document, link_text, query};
use algebra_core::Query;
use link_uri::{Link, Scheme, link_of};
use outer_ports::MemorySink;
use rdf_terms::Memory;
use reach_criteria::Criterion;
use reachability::{Found, Outcome};
use std::alloc::Global;
use std::collections::VecDeque;
use std::marker::Brand;
use traverse_core::{Command, Job, Traversal, follow_all};

// The command that settles the link of a number, where it is looked up.
#[tactic(auto, using(traverse_core::proofs::Stepping::told_fits))]
fn settling<J: Job>(
    alloc: Global,
    number: u32,
    links: u32,
    named: u32,
) -> Result<Option<Command>, Memory>
    requires untold { J.run.fetch.web ≡ None }
    ensures { IfOk result (λ found. IfSome found (MayBe J.run)) }
{
    let text = link_text(alloc, number)?;
    let Some(link) = link_of(alloc, text.as_str())? else {
        return Ok(None);
    };
    match link.scheme {
        Scheme::Https => Ok(None),
        Scheme::Http => {
            let triples = document(alloc, number, links, named)?;
            Ok(Some(Command::Settle {
                number: u64::from(number),
                link,
                found: Found::Outcome(Outcome::Document(triples)),
            }))
        }
    }
}

#[tactic(auto, using(traverse_core::proofs::Stepping::all_push))]
fn push_draws<J: Job>(commands: &mut VecDeque<Command>, named: u32) -> Result<(), Memory>
    requires may { AllMayBe J.run commands.old.items }
    ensures { OnOk result (AllMayBe J.run commands.new.items) }
{
    for _triple in 0..named {
        commands.push_back(Command::Draw)?;
    }
    Ok(())
}

#[tactic(auto, using(traverse_core::proofs::Stepping::all_push))]
fn push_settling<J: Job>(
    alloc: Global,
    commands: &mut VecDeque<Command>,
    number: u32,
    links: u32,
    named: u32,
) -> Result<(), Memory>
    requires untold { J.run.fetch.web ≡ None }
    requires may { AllMayBe J.run commands.old.items }
    ensures { OnOk result (AllMayBe J.run commands.new.items) }
{
    let Some(command) = settling::<J>(alloc, number, links, named)? else {
        return Ok(());
    };
    commands.push_back(Command::Take)?;
    commands.push_back(command)?;
    push_draws::<J>(commands, named)
}

// The head is written, and each link in turn is taken and settled, and its triples are drawn.
#[tactic(auto, using(traverse_core::proofs::Stepping::all_none, traverse_core::proofs::Stepping::all_push))]
fn commands<J: Job>(alloc: Global, links: u32, named: u32) -> Result<VecDeque<Command>, Memory>
    requires untold { J.run.fetch.web ≡ None }
    ensures { IfOk result (λ commands. AllMayBe J.run commands.items) }
{
    let mut commands = VecDeque::new(alloc);
    commands.push_back(Command::Write)?;
    for number in 0..links {
        push_settling::<J>(alloc, &mut commands, number, links, named)?;
    }
    Ok(commands)
}

fn one_link(alloc: Global, link: Link) -> Result<Vec<Link>, Memory>
    requires { IsLink link }
    ensures links { IfOk result (λ links. links.items ≡ link ∷ []) }
    ensures valid_links { IfOk result (λ links. AreLinks links.items) }
{
    let mut links = Vec::new(alloc);
    links.push(link)?;
    Ok(links)
}

fn seeds(alloc: Global) -> Result<Vec<Link>, Memory>
    ensures { IfOk result (λ links. AreLinks links.items) }
{
    match link_of(alloc, "http://a.test/0")? {
        Some(link) => one_link(alloc, link),
        None => Ok(Vec::new(alloc)),
    }
}

// How many links a traversal has settled, where nothing is in flight.
fn settled_by<J: Job>(run: Traversal<J, MemorySink>) -> usize {
    if run.in_flight() > 0 {
        return 0;
    }
    run.finish().trace.entries.len()
}

// How many links a traversal of the commands has settled, where nothing is in flight.
#[tactic(auto, using(traverse_core::proofs::Stepping::tells_unsure))]
fn followed<J: Job>(
    alloc: Global,
    query: Query,
    seeds: Vec<Link>,
    out: MemorySink,
    links: u32,
    named: u32,
) -> Result<usize, Memory>
    requires valid_links { AreLinks seeds.items }
    requires query { query ≡ J.run.query }
    requires seeds { seeds.items ≡ J.run.seeds }
    requires criterion { J.run.criterion ≡ criterion.All }
    requires limit { J.run.limit ≡ 1000000 }
    requires out { (J.run.content ≡ Some out.content) × (J.run.faults ≡ out.faults) }
    requires untold { J.run.fetch.web ≡ None }
    requires unsure { J.run.fetch.sure ≡ false }
{
    let commands = commands::<J>(alloc, links, named)?;
    match Traversal::<J, MemorySink>::open(alloc, query, seeds, Criterion::All, 1_000_000, out) {
        Ok(run) => {
            let mut run = run;
            match follow_all(&mut run, commands) {
                Ok(()) => Ok(settled_by(run)),
                Err(Memory) => Err(Memory),
            }
        }
        Err(_) => Err(Memory),
    }
}

// How many links a traversal has settled.
fn settled(alloc: Global, links: u32, named: u32) -> Result<usize, Memory> {
    let query = query(alloc)?;
    let seeds = seeds(alloc)?;
    let out = MemorySink::new(alloc, 1000);
    followed::<Brand>(alloc, query, seeds, out, links, named)
}

// How many commands there are for a run without a web.
fn made_for<J: Job>(alloc: Global, links: u32, named: u32) -> Result<usize, Memory>
    requires untold { J.run.fetch.web ≡ None }
{
    let commands = commands::<J>(alloc, links, named)?;
    Ok(commands.len())
}

// How many commands are made.
fn made(alloc: Global, links: u32, named: u32) -> Result<usize, Memory> {
    made_for::<Brand>(alloc, links, named)
}

fn count_once(alloc: Global, way: &str, links: u32, named: u32) -> Result<usize, Fault> {
    match way {
        "settle" => Ok(settled(alloc, links, named)?),
        "make" => Ok(made(alloc, links, named)?),
        _ => Err(Fault::Words),
    }
}

fn count(alloc: Global, way: &str, links: u32, named: u32, times: u32) -> Result<usize, Fault> {
    let mut count = 0usize;
    for _time in 0..times {
        count = count.saturating_add(count_once(alloc, way, links, named)?);
    }
    Ok(count)
}

fn number(word: &str) -> Result<u32, Fault> {
    match word.parse::<u32>() {
        Ok(number) => Ok(number),
        Err(_) => Err(Fault::Words),
    }
}

pub(crate) fn answer(alloc: Global, words: &[String]) -> Result<String, Fault> {
    let [way, links, named, times] = words else {
        return Err(Fault::Words);
    };
    let links = number(links.as_str())?;
    let named = number(named.as_str())?;
    let times = number(times.as_str())?;
    let count = count(alloc, way.as_str(), links, named, times)?;
    Ok(format!(in alloc; "{count}")?)
}
