ghost use Rattle.std.specs.Prelude.{◌≡◌, IfOk, IfSome};
ghost use Rattle.clap.specs.Words.{found_of, rows_of};
ghost use Rattle.command_words.specs.Ready.{IsReady, IsReadySettings};
ghost use Rattle.command_words.specs.Words as spec;

use crate::fetching::fetch_of;
use crate::seeds::seeds_of;
use crate::values::{count_of, criterion_of, first, limit_of, workers_of};
use crate::{Command, Settings};
use clap::ArgMatches;
use rdf_terms::{Memory, TextBuf};
use std::alloc::Global;

/// The settings of `site` and `web`, or none where a value is of another form or out of its range.
pub(crate) fn settings_of(
    alloc: Global,
    matches: &ArgMatches<'_>,
) -> Result<Option<Settings>, Memory>
    ensures value { IfOk result (λ s. s ≡ spec.settings_of (rows_of (found_of matches.now))) }
    ensures ready { IfOk result (λ s. IfSome s IsReadySettings) }
{
    let Some(criterion) = criterion_of(matches) else {
        return Ok(None);
    };
    let Some(limit) = limit_of(matches) else {
        return Ok(None);
    };
    let Some(workers) = workers_of(matches) else {
        return Ok(None);
    };
    let Some(query) = first(matches, "query") else {
        return Ok(None);
    };
    let query = TextBuf::from_str(alloc, query)?;
    let Some(fetch) = fetch_of(alloc, matches)? else {
        return Ok(None);
    };
    match seeds_of(alloc, matches)? {
        Some(seeds) => Ok(Some(Settings {
            query,
            seeds,
            criterion,
            limit,
            workers,
            fetch,
        })),
        None => Ok(None),
    }
}

/// The command of `self`, or none where a number is out of its range.
pub(crate) fn generated_of(matches: &ArgMatches<'_>) -> Option<Command>
    ensures value { result ≡ spec.generated_of (rows_of (found_of matches.now)) }
    ensures ready { IfSome result IsReady }
{
    let workers = workers_of(matches)?;
    let n = count_of(matches)?;
    Some(Command::Generated { n, workers })
}
