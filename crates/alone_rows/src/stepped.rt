//! Traversals whose calls are made one by one, and by a list of commands.
ghost use Rattle.std.specs.Prelude.{◌≡◌, None, Some, false, IfOk, IfSome, OnOk};
ghost use Rattle.link_uri.specs.Links.{AreLinks};
ghost use Rattle.reach_criteria.specs.declared.criterion.Criterion.TheVariants as criterion;
ghost use Rattle.traverse_core.specs.Steps.{AllMayBe, MayBe};

use crate::calls::{Call, What, fits, made, outcome};
use crate::shown::{halt_text, record_text, sink_text};
use crate::webs;
use algebra_core::Query;
use link_uri::{Link, link_of};
use outer_ports::MemorySink;
use rdf_terms::Memory;
use reach_criteria::Criterion;
use reachability::{Found, Why};
use std::alloc::Global;
use std::collections::VecDeque;
use std::marker::Brand;
use traverse_core::{Command, Finished, Job, Traversal, follow_all};

const ONE: &str = "http://a.test/1";

const NAME: &str = "http://v.test/name";

const MOVED: &str = "http://a.test/r";

const SECURE: &str = "https://a.test/1";

// One document, and its predicate, which has none.
const ONE_DOCUMENT: [Call; 30] = [
    Call::InFlight,
    Call::Write,
    Call::Write,
    Call::CanTake,
    Call::Take,
    Call::IsOut(0, ONE),
    Call::FirstOut,
    Call::InFlight,
    Call::CanTake,
    Call::Close,
    Call::GiveBack(0, ONE),
    Call::FirstOut,
    Call::Take,
    Call::Take,
    Call::Settle(0, ONE, What::Document),
    Call::Settle(0, ONE, What::Document),
    Call::Draw,
    Call::Draw,
    Call::Write,
    Call::Take,
    Call::Settle(1, NAME, What::Refused(Why::Status(404))),
    Call::Take,
    Call::Halted,
    Call::IsClosed,
    Call::Close,
    Call::IsClosed,
    Call::Write,
    Call::Write,
    Call::Take,
    Call::Draw,
];

// A redirect, and an https link, which is not looked up.
const REDIRECT: [Call; 21] = [
    Call::Write,
    Call::Take,
    Call::Take,
    Call::IsOut(1, ONE),
    Call::InFlight,
    Call::FirstOut,
    Call::Settle(1, SECURE, What::Document),
    Call::Settle(1, SECURE, What::Refused(Why::Scheme)),
    Call::Settle(0, MOVED, What::Moved(ONE)),
    Call::Draw,
    Call::Take,
    Call::Settle(2, ONE, What::Document),
    Call::Take,
    Call::Draw,
    Call::Draw,
    Call::Settle(3, NAME, What::Refused(Why::Status(404))),
    Call::Take,
    Call::Close,
    Call::Write,
    Call::Write,
    Call::InFlight,
];

// A halt for want of memory, with a link in flight.
const HALTED: [Call; 14] = [
    Call::Write,
    Call::Take,
    Call::Halted,
    Call::Halt,
    Call::Halted,
    Call::CanTake,
    Call::Take,
    Call::Settle(0, MOVED, What::Moved(ONE)),
    Call::Draw,
    Call::Write,
    Call::Close,
    Call::GiveBack(0, MOVED),
    Call::GiveBack(0, MOVED),
    Call::FirstOut,
];

// A sink that fails in the head.
const FAILED: [Call; 7] = [
    Call::Write,
    Call::Write,
    Call::Halted,
    Call::Write,
    Call::Halt,
    Call::Halted,
    Call::Take,
];

// How the calls are made.
#[derive(Clone, Copy, Drop)]
enum Way {
    OneByOne,
    AsCommands,
}

// The calls with their answers, each on a line.
fn make_calls<J: Job>(
    alloc: Global,
    run: &mut Traversal<J, MemorySink>,
    calls: &[Call],
) -> Result<String, Memory>
    requires untold { J.run.fetch.web ≡ None }
{
    let mut text = String::new(alloc);
    for call in calls {
        let line = made(alloc, run, *call)?;
        text.push_str(line.as_str())?;
        text.push_str("\n")?;
    }
    Ok(text)
}

// The command that settles the link of a text, where it may have the outcome.
#[tactic(auto, using(traverse_core::proofs::Stepping::told_fits))]
fn settling<J: Job>(
    alloc: Global,
    number: u64,
    text: &str,
    what: What,
) -> Result<Option<Command>, Memory>
    requires untold { J.run.fetch.web ≡ None }
    ensures { IfOk result (λ found. IfSome found (MayBe J.run)) }
{
    let Some(link) = link_of(alloc, text)? else {
        return Ok(None);
    };
    let outcome = outcome(alloc, what)?;
    if !fits(&link, &outcome) {
        return Ok(None);
    }
    let found = Found::Outcome(outcome);
    Ok(Some(Command::Settle {
        number,
        link,
        found,
    }))
}

// The command of a call that changes something.
fn command_of<J: Job>(alloc: Global, call: Call) -> Result<Option<Command>, Memory>
    requires untold { J.run.fetch.web ≡ None }
    ensures { IfOk result (λ found. IfSome found (MayBe J.run)) }
{
    match call {
        Call::Take => Ok(Some(Command::Take)),
        Call::GiveBack(number, _) => Ok(Some(Command::GiveBack { number })),
        Call::Settle(number, text, what) => settling::<J>(alloc, number, text, what),
        Call::Draw => Ok(Some(Command::Draw)),
        Call::Write => Ok(Some(Command::Write)),
        Call::Halt => Ok(Some(Command::Halt)),
        Call::Close => Ok(Some(Command::Close)),
        _ => Ok(None),
    }
}

#[tactic(auto, using(traverse_core::proofs::Stepping::all_push))]
fn push_command<J: Job>(
    alloc: Global,
    commands: &mut VecDeque<Command>,
    call: Call,
) -> Result<(), Memory>
    requires untold { J.run.fetch.web ≡ None }
    requires may { AllMayBe J.run commands.old.items }
    ensures { OnOk result (AllMayBe J.run commands.new.items) }
{
    if let Some(command) = command_of::<J>(alloc, call)? {
        commands.push_back(command)?;
    }
    Ok(())
}

#[tactic(auto, using(traverse_core::proofs::Stepping::all_none))]
fn commands_of<J: Job>(alloc: Global, calls: &[Call]) -> Result<VecDeque<Command>, Memory>
    requires untold { J.run.fetch.web ≡ None }
    ensures { IfOk result (λ commands. AllMayBe J.run commands.items) }
{
    let mut commands = VecDeque::new(alloc);
    for call in calls {
        push_command::<J>(alloc, &mut commands, *call)?;
    }
    Ok(commands)
}

fn follow_calls<J: Job>(
    alloc: Global,
    run: &mut Traversal<J, MemorySink>,
    calls: &[Call],
) -> Result<String, Memory>
    requires untold { J.run.fetch.web ≡ None }
{
    let commands = commands_of::<J>(alloc, calls)?;
    follow_all(run, commands)?;
    Ok(String::new(alloc))
}

fn make<J: Job>(
    alloc: Global,
    way: Way,
    run: &mut Traversal<J, MemorySink>,
    calls: &[Call],
) -> Result<String, Memory>
    requires untold { J.run.fetch.web ≡ None }
{
    match way {
        Way::OneByOne => make_calls(alloc, run, calls),
        Way::AsCommands => follow_calls(alloc, run, calls),
    }
}

// What a traversal ends with, where nothing is in flight.
fn end_of<J: Job>(run: Traversal<J, MemorySink>) -> Option<Finished<MemorySink>> {
    if run.in_flight() == 0 {
        Some(run.finish())
    } else {
        None
    }
}

fn end_text(alloc: Global, end: &Option<Finished<MemorySink>>) -> Result<String, Memory> {
    let Some(finished) = end else {
        return Ok(String::from_str(alloc, "finish: may not\n")?);
    };
    let record = record_text(alloc, &finished.trace)?;
    let halted = halt_text(finished.halted);
    let out = sink_text(&finished.out);
    Ok(format!(in alloc; "finish: halted {halted}\n{record}{out}")?)
}

// The calls and the end, under a name.
fn ended_text(
    alloc: Global,
    name: &str,
    lines: Result<String, Memory>,
    end: &Option<Finished<MemorySink>>,
) -> Result<String, Memory> {
    let lines = lines?;
    let end = end_text(alloc, end)?;
    Ok(format!(in alloc; "{name}:\n{lines}{end}")?)
}

// How the calls went on a new traversal, and what it ends with. It gives up nothing while the
// traversal is open.
#[tactic(auto, using(traverse_core::proofs::Stepping::tells_unsure))]
fn run_calls<J: Job>(
    alloc: Global,
    way: Way,
    calls: &[Call],
    query: Query,
    seeds: Vec<Link>,
    out: MemorySink,
) -> (Result<String, Memory>, Option<Finished<MemorySink>>)
    requires valid_links { AreLinks seeds.items }
    requires query { query ≡ J.run.query }
    requires seeds { seeds.items ≡ J.run.seeds }
    requires criterion { J.run.criterion ≡ criterion.All }
    requires limit { J.run.limit ≡ 100 }
    requires out { (J.run.content ≡ Some out.content) × (J.run.faults ≡ out.faults) }
    requires untold { J.run.fetch.web ≡ None }
    requires unsure { J.run.fetch.sure ≡ false }
{
    match Traversal::<J, MemorySink>::open(alloc, query, seeds, Criterion::All, 100, out) {
        Ok(run) => {
            let mut run = run;
            let lines = make(alloc, way, &mut run, calls);
            (lines, end_of(run))
        }
        Err(_) => (Err(Memory), None),
    }
}

// The calls on a traversal of these seeds, under a name; `room` is how many bytes its sink takes.
fn shown(
    alloc: Global,
    name: &str,
    way: Way,
    calls: &[Call],
    seeds: &[&str],
    room: u64,
) -> Result<String, Memory> {
    let query = webs::names(alloc)?;
    let seeds = webs::links(alloc, seeds)?;
    let out = MemorySink::new(alloc, room);
    let (lines, end) = run_calls::<Brand>(alloc, way, calls, query, seeds, out);
    ended_text(alloc, name, lines, &end)
}

/// One document, by its calls one by one.
pub(crate) fn one_document(alloc: Global) -> Result<String, Memory> {
    let seeds = ["http://a.test/1#me", ONE];
    shown(
        alloc,
        "one document, step by step",
        Way::OneByOne,
        &ONE_DOCUMENT,
        &seeds,
        1000,
    )
}

/// The same as commands.
pub(crate) fn one_document_as_commands(alloc: Global) -> Result<String, Memory> {
    let seeds = ["http://a.test/1#me", ONE];
    shown(
        alloc,
        "one document, by commands",
        Way::AsCommands,
        &ONE_DOCUMENT,
        &seeds,
        1000,
    )
}

/// A redirect and an https link, by their calls one by one.
pub(crate) fn redirect(alloc: Global) -> Result<String, Memory> {
    shown(
        alloc,
        "a redirect, step by step",
        Way::OneByOne,
        &REDIRECT,
        &[MOVED, SECURE],
        1000,
    )
}

/// The same as commands.
pub(crate) fn redirect_as_commands(alloc: Global) -> Result<String, Memory> {
    shown(
        alloc,
        "a redirect, by commands",
        Way::AsCommands,
        &REDIRECT,
        &[MOVED, SECURE],
        1000,
    )
}

/// A halt for want of memory.
pub(crate) fn halted(alloc: Global) -> Result<String, Memory> {
    shown(
        alloc,
        "a halt, step by step",
        Way::OneByOne,
        &HALTED,
        &[MOVED, SECURE],
        1000,
    )
}

/// A sink that takes ten bytes.
pub(crate) fn failed(alloc: Global) -> Result<String, Memory> {
    shown(
        alloc,
        "a sink that fails, step by step",
        Way::OneByOne,
        &FAILED,
        &[MOVED],
        10,
    )
}
