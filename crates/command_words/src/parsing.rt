ghost use Rattle.std.specs.Prelude.{◌≡◌, IfOk, map, string_bytes, option_map, true};
ghost use Rattle.clap.specs.Words.{app_of, found_of, is_simple_and_free, rows_of};
ghost use Rattle.command_words.specs.Grammar as spec;

use clap::error::ErrorKind;
use clap::{ArgMatches, Command};
use rdf_terms::Memory;

/// What `clap` finds in the words, whose first is the command's own, or none where it refuses them.
pub(crate) fn matches_of<'a>(
    command: Command<'a>,
    words: &'a [String],
) -> Result<Option<ArgMatches<'a>>, Memory>
    requires { is_simple_and_free (app_of command) ≡ true }
    ensures { IfOk result (λ found. option_map (λ m. rows_of (found_of m)) found
        ≡ spec.rows_if (app_of command.entry) (map string_bytes words.entry.now)) }
{
    match command.try_get_matches_from(words) {
        Ok(matches) => Ok(Some(matches)),
        Err(error) => match error.kind() {
            ErrorKind::OutOfMemory => Err(Memory),
            _ => Ok(None),
        },
    }
}
