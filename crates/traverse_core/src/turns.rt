//! Turns of a run with one fetcher: each begins a link or settles one.
ghost use Rattle.std.specs.Prelude.{◌≡◌, ◌<◌, ◌⊎◌, [], length, true, false, Ok, Some, None, IsTrue, OnOk, OnErr};
ghost use Rattle.rdf_terms.specs.Lists.{IsIn};
ghost use Rattle.link_uri.specs.declared.link.Link.{Link as link};
ghost use Rattle.link_queue.specs.declared.state.LinkState.TheVariants.{InFlight};
ghost use Rattle.link_queue.specs.Table.{link_at, state_at};
ghost use Rattle.reachability.specs.declared.record.Found.{Found as found};
ghost use Rattle.web_port.specs.Flights.{numbers};
ghost use Rattle.web_port.specs.Port.{Stays};
ghost use Rattle.traverse_core.specs.Run.{MayFind};
ghost use Rattle.traverse_core.specs.State.{next_of, is_running, MayClose};
ghost use Rattle.traverse_core.specs.Totals.{Paid, Covered, tallies};
ghost use Rattle.traverse_core.specs.Alone.{IsReady, InStep, RunsOn, TakesTurn, BeginsBy, SettlesGot, IsAnswer, found_of};

use crate::catching_up::catch_up;
use crate::job::Job;
use crate::steps::Halt;
use crate::traversal::Traversal;
use link_uri::Scheme;
use outer_ports::Sink;
use rdf_terms::Memory;
use reachability::{Found, Outcome, Why};
use web_port::{Fetcher, Got, next_landed};

// Starts a link that was taken; one that is not looked up for its scheme is settled at once.
fn start_taken<J: Job, S: Sink, F: Fetcher>(
    run: &mut Traversal<J, S>,
    fetcher: &mut F,
    number: u64,
) -> Result<(), Memory>
    requires ready { IsReady run.old }
    requires out { state_at run.old.table number ≡ Some InFlight }
    requires room { length (F.port fetcher.old).flights < F.lanes fetcher.old }
    requires fresh { IsIn (numbers (F.port fetcher.old).flights) number → ⊥ }
    ensures same { (F.fetch fetcher.new ≡ F.fetch fetcher.old)
        × (F.lanes fetcher.new ≡ F.lanes fetcher.old) }
    ensures ok { OnOk result ((u : link) → link_at run.old.table number ≡ Some u
        → BeginsBy u.scheme J.run number u.text run.old (F.port fetcher.old) run.new (F.port fetcher.new)) }
    ensures err { OnErr result ((run.new ≡ run.old) × Stays (F.port fetcher.old) (F.port fetcher.new)) }
{
    let link = run.link(number);
    match link.scheme {
        Scheme::Http => fetcher.start(number, link),
        Scheme::Https => run.settle(number, Found::Outcome(Outcome::Refused(Why::Scheme))),
    }
}

// Takes a link and begins it, where the fetcher has room and the run may take one.
fn begin<J: Job, S: Sink, F: Fetcher>(
    run: &mut Traversal<J, S>,
    fetcher: &mut F,
) -> Result<bool, Memory>
    requires ready { IsReady run.old }
    requires step { InStep J.run (F.fetch fetcher.old) (F.lanes fetcher.old) run.old (F.port fetcher.old) }
    ensures same { (F.fetch fetcher.new ≡ F.fetch fetcher.old)
        × (F.lanes fetcher.new ≡ F.lanes fetcher.old) }
    ensures on { RunsOn run.old run.new }
    ensures none { result ≡ Ok false → (run.new ≡ run.old) × (fetcher.new ≡ fetcher.old) }
    // where nothing was begun, a link is open or none may be taken
    ensures full { result ≡ Ok false → (0 < length (F.port fetcher.old).flights)
        ⊎ (next_of J.run run.old ≡ None) }
    ensures step { result ≡ Ok true → InStep J.run (F.fetch fetcher.new) (F.lanes fetcher.new) run.new (F.port fetcher.new) }
    ensures turn { result ≡ Ok true → TakesTurn J.run run.old (F.port fetcher.old) run.new (F.port fetcher.new) }
    ensures err { OnErr result (Covered (F.lanes fetcher.old) (F.port fetcher.old) (tallies run.old.entries)
        (F.port fetcher.new) (tallies run.new.entries)) }
{
    if !fetcher.room() {
        return Ok(false);
    }
    match run.take() {
        None => Ok(false),
        Some(number) => {
            start_taken(run, fetcher, number)?;
            Ok(true)
        }
    }
}

// Settles the link that landed with what was got for it.
fn settle_got<J: Job, S: Sink>(
    run: &mut Traversal<J, S>,
    number: u64,
    got: Got,
    body: u64,
) -> Result<(), Memory>
    requires ready { IsReady run.old }
    requires out { state_at run.old.table number ≡ Some InFlight }
    requires answered { IsAnswer got }
    requires may { (u : link) (f : found) → link_at run.old.table number ≡ Some u
        → found_of u body got ≡ Some f → MayFind J.run u f }
    ensures ok { OnOk result ((u : link) → link_at run.old.table number ≡ Some u
        → SettlesGot J.run number u body got run.old run.new) }
    ensures err { OnErr result (run.new ≡ run.old) }
{
    let found = run.found_at(number, got, body)?;
    run.settle(number, found)
}

// Settles the next link that lands, where one is open.
fn settle_next<J: Job, S: Sink, F: Fetcher>(
    run: &mut Traversal<J, S>,
    fetcher: &mut F,
    body: u64,
) -> Result<bool, Memory>
    requires ready { IsReady run.old }
    requires step { InStep J.run (F.fetch fetcher.old) (F.lanes fetcher.old) run.old (F.port fetcher.old) }
    requires body { body ≡ J.run.body }
    ensures same { (F.fetch fetcher.new ≡ F.fetch fetcher.old)
        × (F.lanes fetcher.new ≡ F.lanes fetcher.old) }
    ensures on { RunsOn run.old run.new }
    ensures none { result ≡ Ok false → (run.new ≡ run.old)
        × ((F.port fetcher.old).flights ≡ []) × ((F.port fetcher.new).flights ≡ []) }
    ensures paid { result ≡ Ok false → Paid (F.port fetcher.old) (tallies run.old.entries)
        (F.port fetcher.new) (tallies run.new.entries) }
    ensures step { result ≡ Ok true → InStep J.run (F.fetch fetcher.new) (F.lanes fetcher.new) run.new (F.port fetcher.new) }
    ensures turn { result ≡ Ok true → TakesTurn J.run run.old (F.port fetcher.old) run.new (F.port fetcher.new) }
    ensures err { OnErr result (Covered (F.lanes fetcher.old) (F.port fetcher.old) (tallies run.old.entries)
        (F.port fetcher.new) (tallies run.new.entries)) }
{
    let _room = fetcher.room();
    let _in_flight = run.in_flight();
    match next_landed(fetcher)? {
        None => Ok(false),
        Some((number, got)) => {
            settle_got(run, number, got, body)?;
            Ok(true)
        }
    }
}

/// Draws and writes what there is, and then begins a link or settles one. False: the run may be
/// closed.
pub(crate) fn turn<J: Job, S: Sink, F: Fetcher>(
    run: &mut Traversal<J, S>,
    fetcher: &mut F,
    body: u64,
) -> Result<bool, Halt>
    requires step { InStep J.run (F.fetch fetcher.old) (F.lanes fetcher.old) run.old (F.port fetcher.old) }
    requires body { body ≡ J.run.body }
    ensures same { (F.fetch fetcher.new ≡ F.fetch fetcher.old)
        × (F.lanes fetcher.new ≡ F.lanes fetcher.old) }
    ensures on { RunsOn run.old run.new }
    ensures none { result ≡ Ok false → IsTrue (is_running run.new) × MayClose J.run run.new
        × ((F.port fetcher.new).flights ≡ []) }
    ensures paid { result ≡ Ok false → Paid (F.port fetcher.old) (tallies run.old.entries)
        (F.port fetcher.new) (tallies run.new.entries) }
    ensures step { result ≡ Ok true → InStep J.run (F.fetch fetcher.new) (F.lanes fetcher.new) run.new (F.port fetcher.new) }
    ensures turn { result ≡ Ok true → TakesTurn J.run run.old (F.port fetcher.old) run.new (F.port fetcher.new) }
    ensures err { OnErr result (Covered (F.lanes fetcher.old) (F.port fetcher.old) (tallies run.old.entries)
        (F.port fetcher.new) (tallies run.new.entries)) }
{
    catch_up(run)?;
    if begin(run, fetcher)? {
        return Ok(true);
    }
    let settled = settle_next(run, fetcher, body)?;
    Ok(settled)
}
