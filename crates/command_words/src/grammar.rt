//! The words of each command, as `clap` reads them.
ghost use Rattle.std.specs.Prelude.{◌≡◌, IfOk, false};
ghost use Rattle.clap.specs.Words.{app_of, rule_of, with_rule};
ghost use Rattle.command_words.specs.Grammar as spec;

use clap::{Arg, ArgAction, Command};
use rdf_terms::Memory;
use std::alloc::Global;

// `--name VALUE`, at most once.
fn option<'a>(alloc: Global, name: &'a str) -> Arg<'a>
    ensures rule { rule_of result ≡ spec.option name.entry.now }
    ensures local { result.global ≡ false }
{
    Arg::new(alloc, name).long(name).action(ArgAction::Set)
}

// A word that is wanted, by its place, or with `Append` one or more.
fn place<'a>(alloc: Global, name: &'a str, action: ArgAction) -> Arg<'a>
    ensures rule { rule_of result ≡ spec.place name.entry.now action }
    ensures local { result.global ≡ false }
{
    Arg::new(alloc, name).required(true).action(action)
}

fn with_arg<'a>(command: Command<'a>, arg: Arg<'a>) -> Result<Command<'a>, Memory>
    requires { arg.global ≡ false }
    ensures { IfOk result (λ c. app_of c ≡ with_rule (app_of command.entry) (rule_of arg.entry)) }
{
    Ok(command.arg(arg)?)
}

fn with_option<'a>(
    alloc: Global,
    command: Command<'a>,
    name: &'a str,
) -> Result<Command<'a>, Memory>
    ensures { IfOk result (λ c. app_of c ≡ with_rule (app_of command.entry) (spec.option name.entry.now)) }
{
    with_arg(command, option(alloc, name))
}

fn with_reach_options<'a>(alloc: Global, command: Command<'a>) -> Result<Command<'a>, Memory>
    ensures { IfOk result (λ c. app_of c ≡ spec.with_reach_options (app_of command.entry)) }
{
    let command = with_option(alloc, command, "criterion")?;
    with_option(alloc, command, "limit")
}

fn with_run_options<'a>(alloc: Global, command: Command<'a>) -> Result<Command<'a>, Memory>
    ensures { IfOk result (λ c. app_of c ≡ spec.with_run_options (app_of command.entry)) }
{
    let command = with_reach_options(alloc, command)?;
    let command = with_option(alloc, command, "body")?;
    with_option(alloc, command, "workers")
}

fn with_fetch_options<'a>(alloc: Global, command: Command<'a>) -> Result<Command<'a>, Memory>
    ensures { IfOk result (λ c. app_of c ≡ spec.with_fetch_options (app_of command.entry)) }
{
    let command = with_option(alloc, command, "lanes")?;
    let command = with_option(alloc, command, "tries")?;
    with_option(alloc, command, "via")
}

fn with_places<'a>(alloc: Global, command: Command<'a>) -> Result<Command<'a>, Memory>
    ensures { IfOk result (λ c. app_of c ≡ spec.with_places (app_of command.entry)) }
{
    let command = with_arg(command, place(alloc, "query", ArgAction::Set))?;
    with_arg(command, place(alloc, "seed", ArgAction::Append))
}

/// `site [--criterion C] [--limit N] [--body N] [--workers N] QUERY SEED...`
pub(crate) fn site<'a>(alloc: Global) -> Result<Command<'a>, Memory>
    ensures { IfOk result (λ c. app_of c ≡ spec.site) }
{
    let command = with_run_options(alloc, Command::new(alloc, "site"))?;
    with_places(alloc, command)
}

/// `web`, with the words of `site` and `[--lanes N] [--tries N] [--via HOST:PORT]`
pub(crate) fn web<'a>(alloc: Global) -> Result<Command<'a>, Memory>
    ensures { IfOk result (λ c. app_of c ≡ spec.web) }
{
    let command = with_run_options(alloc, Command::new(alloc, "web"))?;
    let command = with_fetch_options(alloc, command)?;
    with_places(alloc, command)
}

/// `self [--workers N] N`
pub(crate) fn generated<'a>(alloc: Global) -> Result<Command<'a>, Memory>
    ensures { IfOk result (λ c. app_of c ≡ spec.generated) }
{
    let command = with_option(alloc, Command::new(alloc, "self"), "workers")?;
    with_arg(command, place(alloc, "n", ArgAction::Set))
}
