//! A run by one caller, with one fetcher: it waits for nobody, and returns.
ghost use Rattle.std.specs.Prelude.{◌≡◌, ◌≢◌, ◌≤◌, ◌↔◌, ◌++◌, [], None, Some, IsTrue, OnOk, OnErr};
ghost use Rattle.link_queue.specs.Table.{flying};
ghost use Rattle.outer_ports.specs.Causes.{RoseOnce};
ghost use Rattle.traverse_core.specs.State.{is_running};
ghost use Rattle.traverse_core.specs.Kept.{IsKept};
ghost use Rattle.traverse_core.specs.Totals.{Paid, Covered, Totals, StartsExactly, tallies};
ghost use Rattle.traverse_core.specs.Alone.{Serves, InStep, IsDone, RunsOn, entries_since};

use crate::catching_up::close_all;
use crate::job::Job;
use crate::steps::Halt;
use crate::traversal::Traversal;
use crate::turns::turn;
use outer_ports::Sink;
use web_port::Fetcher;

/// How a run ended.
#[derive(Clone, Copy, Debug, PartialEq, Eq, Drop)]
pub enum Ran {
    /// It is closed, and all is written.
    Done,
    /// The sink failed.
    Output,
    /// Memory was wanting.
    Memory,
}

// Takes turns until none is left, and closes.
//
// It returns: a turn begins a link or settles one. Each link is begun at most once and settled at
// most once, and no more links are begun than the limit allows; so 2 * (limit - settled) - in flight
// falls with each turn. Within a turn each loop has a number that falls too: the triples left to
// draw, the bytes left to write, and how often the fetcher may still be pending.
fn take_turns<J: Job, S: Sink, F: Fetcher>(
    run: &mut Traversal<J, S>,
    fetcher: &mut F,
    body: u64,
) -> Result<(), Halt>
    requires step { InStep J.run (F.fetch fetcher.old) (F.lanes fetcher.old) run.old (F.port fetcher.old) }
    requires body { body ≡ J.run.body }
    ensures same { (F.fetch fetcher.new ≡ F.fetch fetcher.old)
        × (F.lanes fetcher.new ≡ F.lanes fetcher.old) }
    ensures on { RunsOn run.old run.new }
    ensures done { OnOk result (IsDone run.new) }
    ensures idle { OnOk result ((F.port fetcher.new).flights ≡ []) }
    ensures paid { OnOk result (Paid (F.port fetcher.old) (tallies run.old.entries)
        (F.port fetcher.new) (tallies run.new.entries)) }
    ensures err { OnErr result (Covered (F.lanes fetcher.old) (F.port fetcher.old) (tallies run.old.entries)
        (F.port fetcher.new) (tallies run.new.entries)) }
{
    loop {
        if !turn(run, fetcher, body)? {
            return close_all(run);
        }
    }
}

// Runs until it is over, or halts.
fn run_to_end<J: Job, S: Sink, F: Fetcher>(run: &mut Traversal<J, S>, fetcher: &mut F, body: u64)
    requires step { InStep J.run (F.fetch fetcher.old) (F.lanes fetcher.old) run.old (F.port fetcher.old) }
    requires body { body ≡ J.run.body }
    ensures same { (F.fetch fetcher.new ≡ F.fetch fetcher.old)
        × (F.lanes fetcher.new ≡ F.lanes fetcher.old) }
    ensures on { RunsOn run.old run.new }
    ensures done { run.new.halted ≡ None → IsDone run.new }
    ensures idle { run.new.halted ≡ None → (F.port fetcher.new).flights ≡ [] }
    ensures paid { run.new.halted ≡ None → Paid (F.port fetcher.old) (tallies run.old.entries)
        (F.port fetcher.new) (tallies run.new.entries) }
    ensures covered { Covered (F.lanes fetcher.old) (F.port fetcher.old) (tallies run.old.entries)
        (F.port fetcher.new) (tallies run.new.entries) }
{
    let ended = take_turns(run, fetcher, body);
    if ended.is_err() {
        run.halt();
        return;
    }
}

/// Gives back all that is in flight. It returns, since less is then in flight each time. No memory
/// is taken.
#[tactic(auto, using(crate::proofs::Sharing::less_flies))]
pub fn give_all_back<J: Job, S: Sink>(run: &mut Traversal<J, S>)
    ensures landed { flying run.new.table ≡ 0 }
    ensures same { run.new ≡ record run.old { table = run.new.table } }
{
    while let Some(number) = run.first_out() {
        run.give_back(number);
    }
}

fn ran_of(halted: Option<Halt>) -> Ran
    ensures done { (result ≡ Ran.Done) ↔ (halted ≡ None) }
    ensures output { (result ≡ Ran.Output) ↔ (halted ≡ Some Halt.Output) }
    ensures memory { (result ≡ Ran.Memory) ↔ (halted ≡ Some Halt.Memory) }
{
    match halted {
        None => Ran::Done,
        Some(Halt::Output) => Ran::Output,
        Some(Halt::Memory) => Ran::Memory,
    }
}

impl<J: Job, S: Sink> Traversal<J, S> {
    /// Runs to the end with one fetcher, whose links that are in flight at a halt are given back.
    /// It waits for nobody, and costs what its look-ups, its text and its answers cost.
    pub fn run_alone<F: Fetcher>(&mut self, fetcher: &mut F, body: u64) -> Ran
        requires runs { IsTrue (is_running self.old) }
        requires landed { flying self.old.table ≡ 0 }
        requires idle { (F.port fetcher.old).flights ≡ [] }
        requires serves { Serves J.run (F.fetch fetcher.old) }
        requires body { body ≡ J.run.body }

        // How it ends.
        ensures ran { (result ≡ Ran.Done) ↔ (self.new.halted ≡ None) }
        ensures done { result ≡ Ran.Done → IsDone self.new }
        ensures output { result ≡ Ran.Output → (self.new.halted ≡ Some Halt.Output)
            × RoseOnce self.old.out.faults self.new.out.faults }
        ensures memory { result ≡ Ran.Memory → self.new.halted ≡ Some Halt.Memory }
        ensures calm { result ≢ Ran.Output → self.new.out.faults ≡ self.old.out.faults }
        ensures later { self.old.out.faults ≤ self.new.out.faults }
        ensures given_back { flying self.new.table ≡ 0 }

        // What every state keeps, and what is added.
        ensures kept { IsKept J.run self.new }
        ensures entries { self.new.entries ≡ self.old.entries ++ entries_since self.old self.new }

        // How the fetcher's counts went with what the entries count for.
        ensures same { (F.fetch fetcher.new ≡ F.fetch fetcher.old)
            × (F.lanes fetcher.new ≡ F.lanes fetcher.old) }
        ensures closed { result ≡ Ran.Done → (F.port fetcher.new).flights ≡ [] }
        ensures exact { result ≡ Ran.Done → StartsExactly (F.port fetcher.old) (tallies self.old.entries)
            (F.port fetcher.new) (tallies self.new.entries) }
        ensures totals { Totals (F.lanes fetcher.old) (F.port fetcher.old) (tallies self.old.entries)
            (F.port fetcher.new) (tallies self.new.entries) }
    {
        run_to_end(self, fetcher, body);
        give_all_back(self);
        let _in_flight = self.in_flight();
        ran_of(self.halted())
    }
}
