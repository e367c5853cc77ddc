//! Drawing and writing until nothing is left to do.
ghost use Rattle.std.specs.Prelude.{◌≡◌, Err, None, IsTrue, OnOk, OnErr};
ghost use Rattle.traverse_core.specs.Alone.{IsDone, IsReady, RunsOn, SameLinks};
ghost use Rattle.traverse_core.specs.State.{is_running, IsDry, MayClose};
ghost use Rattle.traverse_core.specs.Steps.{DrawsOn};
ghost use Rattle.result_writer.specs.Output.{IsClear};

use crate::job::Job;
use crate::steps::{Drawn, Halt};
use crate::traversal::Traversal;
use outer_ports::Sink;
use rdf_terms::Memory;
use result_writer::Written;

impl From<Memory> for Halt {
    fn from(_error: Memory) -> Halt {
        Halt::Memory
    }
}

/// Draws every logged triple. After `Memory` some may be drawn, and nothing else happened.
#[tactic(auto, using(crate::proofs::RunningOn::draws_none, crate::proofs::RunningOn::draws_more, crate::proofs::RunningOn::draws_less, crate::proofs::RunningOn::drew_on, crate::proofs::RunningOn::drew_same, crate::proofs::RunningOn::drew_running))]
pub fn draw_all<J: Job, S: Sink>(run: &mut Traversal<J, S>) -> Result<(), Memory>
    requires { IsTrue (is_running run.old) }
    ensures dry { OnOk result (IsDry run.new) }
    ensures draws { DrawsOn run.old run.new }
    ensures running { IsTrue (is_running run.new) }
    ensures on { RunsOn run.old run.new }
    ensures same { SameLinks run.old run.new }
{
    loop {
        match run.draw()? {
            Drawn::One => {}
            Drawn::Dry => return Ok(()),
        }
    }
}

/// Writes all text that is pending or waits. Where the sink fails the run is halted by it; after
/// `Halt::Memory` some may be written, and the run is not halted.
pub fn write_all<J: Job, S: Sink>(run: &mut Traversal<J, S>) -> Result<(), Halt>
    requires { run.old.halted ≡ None }
    ensures clear { OnOk result (IsClear run.new.out × (run.new.halted ≡ None)) }
    ensures memory { result ≡ Err Halt.Memory → run.new.halted ≡ None }
    ensures on { RunsOn run.old run.new }
    ensures same { SameLinks run.old run.new }
    ensures drawn { run.new.drawn ≡ run.old.drawn }
{
    loop {
        match run.write()? {
            Written::Wrote => {}
            Written::Clear => return Ok(()),
            Written::Failed => return Err(Halt::Output),
        }
    }
}

/// Draws all that is logged, and writes all that waits, as between two look-ups; it ends as
/// `draw_all` and `write_all` do.
#[tactic(auto, using(crate::proofs::RunningOn::runs_on, crate::proofs::RunningOn::same_on))]
pub fn catch_up<J: Job, S: Sink>(run: &mut Traversal<J, S>) -> Result<(), Halt>
    requires { IsTrue (is_running run.old) }
    ensures ready { OnOk result (IsReady run.new) }
    ensures on { RunsOn run.old run.new }
    ensures same { SameLinks run.old run.new }
{
    draw_all(run)?;
    write_all(run)
}

/// Closes, and writes the rest.
pub(crate) fn close_all<J: Job, S: Sink>(run: &mut Traversal<J, S>) -> Result<(), Halt>
    requires runs { IsTrue (is_running run.old) }
    requires may { MayClose J.run run.old }
    ensures done { OnOk result (IsDone run.new) }
    ensures on { RunsOn run.old run.new }
    ensures same { run.new.entries ≡ run.old.entries }
{
    run.close()?;
    write_all(run)
}
