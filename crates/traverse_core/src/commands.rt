//! Lists of steps: whatever they are, the traversal keeps what every state keeps.
ghost use Rattle.traverse_core.specs.Run.{HasLinks, MayFind};
ghost use Rattle.traverse_core.specs.Kept.{IsKept};
ghost use Rattle.traverse_core.specs.Steps.{AllMayBe, Does, Follows, FollowsInPart, MayBe, Wants};
ghost use Rattle.std.specs.Prelude.{◌≡◌, OnOk, OnErr};

use crate::job::Job;
use crate::steps::Command;
use crate::traversal::Traversal;
use link_queue::LinkState;
use link_uri::Link;
use outer_ports::Sink;
use rdf_terms::Memory;
use reachability::Found;
use std::collections::VecDeque;

pub(crate) fn take<J: Job, S: Sink>(run: &mut Traversal<J, S>)
    ensures { Does J.run Command.Take run.old run.new }
{
    let _number = run.take();
}

pub(crate) fn settle<J: Job, S: Sink>(
    run: &mut Traversal<J, S>,
    number: u64,
    link: &Link,
    found: Found,
) -> Result<(), Memory>
    requires links { HasLinks found }
    requires may { MayFind J.run link.now found }
    ensures ok { OnOk result (Does J.run (Command.Settle number link.now found) run.old run.new) }
    ensures err { OnErr result (Wants J.run (Command.Settle number link.now found) run.old × (run.new ≡ run.old)) }
{
    if !run.is_running() {
        return Ok(());
    }
    if !run.is_out(number, link) {
        return Ok(());
    }
    if !run.is_dry() {
        return Ok(());
    }
    if !run.is_clear() {
        return Ok(());
    }
    run.settle(number, found)
}

pub(crate) fn give_back<J: Job, S: Sink>(run: &mut Traversal<J, S>, number: u64)
    ensures { Does J.run (Command.GiveBack number) run.old run.new }
{
    if let Some(LinkState::InFlight) = run.state(number) {
        run.give_back(number);
    }
}

pub(crate) fn draw<J: Job, S: Sink>(run: &mut Traversal<J, S>) -> Result<(), Memory>
    ensures ok { OnOk result (Does J.run Command.Draw run.old run.new) }
    ensures err { OnErr result (Wants J.run Command.Draw run.old × (run.new ≡ run.old)) }
{
    if !run.is_running() {
        return Ok(());
    }
    let _drawn = run.draw()?;
    Ok(())
}

pub(crate) fn write<J: Job, S: Sink>(run: &mut Traversal<J, S>) -> Result<(), Memory>
    ensures ok { OnOk result (Does J.run Command.Write run.old run.new) }
    ensures err { OnErr result (Wants J.run Command.Write run.old × (run.new ≡ run.old)) }
{
    if run.halted().is_some() {
        return Ok(());
    }
    let _written = run.write()?;
    Ok(())
}

pub(crate) fn close<J: Job, S: Sink>(run: &mut Traversal<J, S>) -> Result<(), Memory>
    ensures ok { OnOk result (Does J.run Command.Close run.old run.new) }
    ensures err { OnErr result (Wants J.run Command.Close run.old × (run.new ≡ run.old)) }
{
    if !run.is_running() {
        return Ok(());
    }
    if run.in_flight() != 0 {
        return Ok(());
    }
    if !run.is_dry() {
        return Ok(());
    }
    if !run.is_clear() {
        return Ok(());
    }
    if run.can_take() {
        return Ok(());
    }
    run.close()
}

pub(crate) fn halt<J: Job, S: Sink>(run: &mut Traversal<J, S>)
    ensures { Does J.run Command.Halt run.old run.new }
{
    run.halt();
}

// Makes one step, where its conditions hold.
fn follow<J: Job, S: Sink>(run: &mut Traversal<J, S>, command: Command) -> Result<(), Memory>
    requires { MayBe J.run command }
    ensures ok { OnOk result (Does J.run command run.old run.new) }
    ensures err { OnErr result (Wants J.run command run.old × (run.new ≡ run.old)) }
{
    match command {
        Command::Take => take(run),
        Command::Settle {
            number,
            link,
            found,
        } => return settle(run, number, &link, found),
        Command::GiveBack { number } => give_back(run, number),
        Command::Draw => return draw(run),
        Command::Write => return write(run),
        Command::Close => return close(run),
        Command::Halt => halt(run),
    }
    Ok(())
}

/// Makes the steps of a list, in its order, and skips just those whose conditions don't hold; it
/// ends before the first step for which memory is wanting. Whatever the list, the traversal then
/// keeps what every state keeps.
pub fn follow_all<J: Job, S: Sink>(
    run: &mut Traversal<J, S>,
    commands: VecDeque<Command>,
) -> Result<(), Memory>
    requires { AllMayBe J.run commands.items }
    ensures follows { OnOk result (Follows J.run commands.items run.old run.new) }
    ensures err { OnErr result (FollowsInPart J.run commands.items run.old run.new) }
    ensures kept { IsKept J.run run.new }
{
    let followed = follow_each(run, commands);
    let _in_flight = run.in_flight();
    followed
}

fn follow_each<J: Job, S: Sink>(
    run: &mut Traversal<J, S>,
    commands: VecDeque<Command>,
) -> Result<(), Memory>
    requires { AllMayBe J.run commands.items }
    ensures follows { OnOk result (Follows J.run commands.items run.old run.new) }
    ensures err { OnErr result (FollowsInPart J.run commands.items run.old run.new) }
{
    let mut commands = commands;
    while let Some(command) = commands.pop_front() {
        follow(run, command)?;
    }
    Ok(())
}
