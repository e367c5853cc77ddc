//! The calls of a traversal one by one, each on a line with what it answers.
ghost use Rattle.std.specs.Prelude.{◌≡◌, None, Ok, IsTrue, true, OnOk, IfOk};
ghost use Rattle.link_uri.specs.declared.link.Scheme.TheVariants.{Https};
ghost use Rattle.reachability.specs.declared.outcome.Outcome.TheVariants.{Refused};
ghost use Rattle.reachability.specs.declared.outcome.Why.TheVariants as why;
ghost use Rattle.doc_reader.specs.Outcome.{HasLinks};
ghost use Rattle.result_writer.specs.Output.{IsClear};
ghost use Rattle.traverse_core.specs.Run.{HasLinks as FoundHasLinks, MayFind};
ghost use Rattle.traverse_core.specs.State.{is_running, IsDry};

use crate::shown::halt_text;
use doc_reader::read_ntriples;
use link_uri::{Link, Scheme, link_of};
use outer_ports::MemorySink;
use rdf_terms::{Memory, Seq};
use reachability::{Found, Outcome, Why};
use std::alloc::Global;
use traverse_core::{Drawn, Job, Traversal, Written};
use turtle_reader::ReadFault;

/// What a link is settled with.
#[derive(Clone, Copy, Drop)]
pub(crate) enum What {
    /// The document of one triple.
    Document,
    Moved(&'static str),
    Refused(Why),
}

/// A call, with the text of the link that a number is to have.
#[derive(Clone, Copy, Drop)]
pub(crate) enum Call {
    CanTake,
    Take,
    IsOut(u64, &'static str),
    FirstOut,
    InFlight,
    GiveBack(u64, &'static str),
    Settle(u64, &'static str, What),
    Draw,
    Write,
    Halt,
    Halted,
    Close,
    IsClosed,
}

const LINE: &[u8] = b"<http://a.test/1#me> <http://v.test/name> \"Ann\" .\n";

// Said of a call whose conditions don't hold, which isn't made.
const MAY_NOT: &str = "may not";

const MADE: &str = "made";

fn document(alloc: Global) -> Result<Outcome, Memory>
    ensures { IfOk result HasLinks }
{
    match read_ntriples(alloc, "http://a.test/1", LINE) {
        Ok(triples) => Ok(Outcome::Document(Seq::from_vec(triples))),
        Err(ReadFault::Syntax { at }) => Ok(Outcome::Refused(Why::Syntax(at))),
        Err(ReadFault::Deep { at }) => Ok(Outcome::Refused(Why::Deep(at))),
        Err(ReadFault::Memory) => Err(Memory),
    }
}

fn moved(alloc: Global, text: &str) -> Result<Outcome, Memory>
    ensures { IfOk result HasLinks }
{
    match link_of(alloc, text)? {
        Some(link) => Ok(Outcome::Moved(link)),
        None => Ok(Outcome::Refused(Why::Location)),
    }
}

/// What a link is settled with, as an outcome.
pub(crate) fn outcome(alloc: Global, what: What) -> Result<Outcome, Memory>
    ensures { IfOk result HasLinks }
{
    match what {
        What::Document => document(alloc),
        What::Moved(text) => moved(alloc, text),
        What::Refused(why) => Ok(Outcome::Refused(why)),
    }
}

/// Whether the link may have the outcome, for all that its scheme says.
pub(crate) fn fits(link: &Link, outcome: &Outcome) -> bool
    ensures { IsTrue result → link.now.scheme ≡ Https → outcome.now ≡ Refused why.Scheme }
{
    match link.scheme {
        Scheme::Http => true,
        Scheme::Https => matches!(outcome, Outcome::Refused(Why::Scheme)),
    }
}

fn answer(holds: bool) -> &'static str {
    if holds { "yes" } else { "no" }
}

fn is_running<J: Job>(run: &Traversal<J, MemorySink>) -> bool
    ensures runs { IsTrue result → IsTrue (is_running run.now) }
    ensures whole { IsTrue result → run.now.halted ≡ None }
{
    !run.is_closed() && run.halted().is_none()
}

// Whether all is drawn. A draw shows it, which changes nothing where it is so.
fn is_dry<J: Job>(run: &mut Traversal<J, MemorySink>) -> Result<bool, Memory>
    requires { IsTrue (is_running run.old) }
    ensures dry { result ≡ Ok true → IsDry run.new }
    ensures same { result ≡ Ok true → run.new ≡ run.old }
{
    match run.draw()? {
        Drawn::One => Ok(false),
        Drawn::Dry => Ok(true),
    }
}

// Whether all is written. A write shows it, which changes nothing where it is so.
fn is_clear<J: Job>(run: &mut Traversal<J, MemorySink>) -> Result<bool, Memory>
    requires { run.old.halted ≡ None }
    ensures clear { result ≡ Ok true → IsClear run.new.out }
    ensures same { result ≡ Ok true → run.new ≡ run.old }
{
    match run.write()? {
        Written::Clear => Ok(true),
        _ => Ok(false),
    }
}

// Whether it runs, with all drawn and written; nothing is changed where it is so.
fn is_ready<J: Job>(run: &mut Traversal<J, MemorySink>) -> Result<bool, Memory>
    ensures runs { result ≡ Ok true → IsTrue (is_running run.new) }
    ensures dry { result ≡ Ok true → IsDry run.new }
    ensures clear { result ≡ Ok true → IsClear run.new.out }
    ensures same { result ≡ Ok true → run.new ≡ run.old }
{
    if !is_running(run) {
        return Ok(false);
    }
    if !is_dry(run)? {
        return Ok(false);
    }
    is_clear(run)
}

fn take<J: Job>(alloc: Global, run: &mut Traversal<J, MemorySink>) -> Result<String, Memory> {
    match run.take() {
        Some(number) => Ok(format!(in alloc; "take: {number}")?),
        None => Ok(String::from_str(alloc, "take: none")?),
    }
}

fn is_out<J: Job>(
    alloc: Global,
    run: &Traversal<J, MemorySink>,
    number: u64,
    text: &str,
) -> Result<String, Memory> {
    let Some(link) = link_of(alloc, text)? else {
        return Ok(String::from_str(alloc, "no link")?);
    };
    let out = answer(run.is_out(number, &link));
    Ok(format!(in alloc; "is_out {number} {text}: {out}")?)
}

#[tactic(auto, using(link_queue::proofs::Places::state_within))]
fn first_out<J: Job>(alloc: Global, run: &Traversal<J, MemorySink>) -> Result<String, Memory> {
    let Some(number) = run.first_out() else {
        return Ok(String::from_str(alloc, "first_out: none")?);
    };
    let link = run.link(number).text.as_str();
    Ok(format!(in alloc; "first_out: {number} {link}")?)
}

fn give_back<J: Job>(run: &mut Traversal<J, MemorySink>, number: u64, link: &Link) -> &'static str {
    if !run.is_out(number, link) {
        return MAY_NOT;
    }
    run.give_back(number);
    MADE
}

fn settle<J: Job>(
    run: &mut Traversal<J, MemorySink>,
    number: u64,
    link: &Link,
    found: Found,
) -> Result<&'static str, Memory>
    requires links { FoundHasLinks found }
    requires may { MayFind J.run link.now found }
{
    if !run.is_out(number, link) {
        return Ok(MAY_NOT);
    }
    if !is_ready(run)? {
        return Ok(MAY_NOT);
    }
    run.settle(number, found)?;
    Ok(MADE)
}

#[tactic(auto, using(traverse_core::proofs::Stepping::told_fits))]
fn settle_with<J: Job>(
    run: &mut Traversal<J, MemorySink>,
    number: u64,
    link: &Link,
    outcome: Outcome,
) -> Result<&'static str, Memory>
    requires untold { J.run.fetch.web ≡ None }
    requires links { HasLinks outcome }
{
    if !fits(link, &outcome) {
        return Ok(MAY_NOT);
    }
    settle(run, number, link, Found::Outcome(outcome))
}

fn draw<J: Job>(run: &mut Traversal<J, MemorySink>) -> Result<&'static str, Memory> {
    if !is_running(run) {
        return Ok(MAY_NOT);
    }
    match run.draw()? {
        Drawn::One => Ok("one"),
        Drawn::Dry => Ok("dry"),
    }
}

fn write<J: Job>(run: &mut Traversal<J, MemorySink>) -> Result<&'static str, Memory> {
    if run.halted().is_some() {
        return Ok(MAY_NOT);
    }
    match run.write()? {
        Written::Wrote => Ok("wrote"),
        Written::Clear => Ok("clear"),
        Written::Failed => Ok("failed"),
    }
}

fn close<J: Job>(run: &mut Traversal<J, MemorySink>) -> Result<&'static str, Memory> {
    if run.in_flight() != 0 {
        return Ok(MAY_NOT);
    }
    if run.can_take() {
        return Ok(MAY_NOT);
    }
    if !is_ready(run)? {
        return Ok(MAY_NOT);
    }
    run.close()?;
    Ok(MADE)
}

// A call that names a link, where its text has one.
fn of_link<J: Job>(
    alloc: Global,
    run: &mut Traversal<J, MemorySink>,
    number: u64,
    text: &str,
    what: Option<What>,
) -> Result<&'static str, Memory>
    requires untold { J.run.fetch.web ≡ None }
{
    let Some(link) = link_of(alloc, text)? else {
        return Ok("no link");
    };
    match what {
        Some(what) => settle_with(run, number, &link, outcome(alloc, what)?),
        None => Ok(give_back(run, number, &link)),
    }
}

fn line(alloc: Global, name: &str, answer: &str) -> Result<String, Memory> {
    Ok(format!(in alloc; "{name}: {answer}")?)
}

// The line of a call that can fail.
fn line_of(
    alloc: Global,
    name: &str,
    answer: Result<&'static str, Memory>,
) -> Result<String, Memory> {
    line(alloc, name, answer?)
}

// The line of a call with a number that can fail.
fn numbered_line(
    alloc: Global,
    name: &str,
    number: u64,
    answer: Result<&'static str, Memory>,
) -> Result<String, Memory> {
    let answer = answer?;
    Ok(format!(in alloc; "{name} {number}: {answer}")?)
}

fn in_flight<J: Job>(alloc: Global, run: &Traversal<J, MemorySink>) -> Result<String, Memory> {
    let number = run.in_flight();
    Ok(format!(in alloc; "in_flight: {number}")?)
}

fn halt<J: Job>(run: &mut Traversal<J, MemorySink>) -> &'static str {
    run.halt();
    MADE
}

/// Makes a call, where its conditions hold, and says what it answers.
pub(crate) fn made<J: Job>(
    alloc: Global,
    run: &mut Traversal<J, MemorySink>,
    call: Call,
) -> Result<String, Memory>
    requires untold { J.run.fetch.web ≡ None }
{
    match call {
        Call::CanTake => line(alloc, "can_take", answer(run.can_take())),
        Call::Take => take(alloc, run),
        Call::IsOut(number, text) => is_out(alloc, run, number, text),
        Call::FirstOut => first_out(alloc, run),
        Call::InFlight => in_flight(alloc, run),
        Call::GiveBack(number, text) => {
            let answer = of_link(alloc, run, number, text, None);
            numbered_line(alloc, "give_back", number, answer)
        }
        Call::Settle(number, text, what) => {
            let answer = of_link(alloc, run, number, text, Some(what));
            numbered_line(alloc, "settle", number, answer)
        }
        Call::Draw => line_of(alloc, "draw", draw(run)),
        Call::Write => line_of(alloc, "write", write(run)),
        Call::Halt => line(alloc, "halt", halt(run)),
        Call::Halted => line(alloc, "halted", halt_text(run.halted())),
        Call::Close => line_of(alloc, "close", close(run)),
        Call::IsClosed => line(alloc, "is_closed", answer(run.is_closed())),
    }
}
