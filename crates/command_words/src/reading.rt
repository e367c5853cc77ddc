ghost use Rattle.std.specs.Prelude.{◌≡◌, Err, IfOk, IfSome, None, Some, map, option_and_then, option_map, string_bytes};
ghost use Rattle.command_words.specs.Grammar as grammar;
ghost use Rattle.command_words.specs.declared.command.Command.TheVariants.{Site, Web};
ghost use Rattle.command_words.specs.Ready.{IsReady, IsReadySettings};
ghost use Rattle.command_words.specs.Words.{command_named, command_of, generated_of as generated_command, settings_of as settings_found};

use crate::grammar::{generated, site, web};
use crate::parsing::matches_of;
use crate::settings::{generated_of, settings_of};
use crate::{Command, Settings, WordsFault};
use rdf_terms::Memory;
use std::alloc::Global;

fn site_settings(alloc: Global, words: &[String]) -> Result<Option<Settings>, Memory>
    ensures value { IfOk result (λ s. s ≡ option_and_then settings_found (grammar.rows_if grammar.site (map string_bytes words.now))) }
    ensures ready { IfOk result (λ s. IfSome s IsReadySettings) }
{
    match matches_of(site(alloc)?, words)? {
        Some(matches) => settings_of(alloc, &matches),
        None => Ok(None),
    }
}

fn web_settings(alloc: Global, words: &[String]) -> Result<Option<Settings>, Memory>
    ensures value { IfOk result (λ s. s ≡ option_and_then settings_found (grammar.rows_if grammar.web (map string_bytes words.now))) }
    ensures ready { IfOk result (λ s. IfSome s IsReadySettings) }
{
    match matches_of(web(alloc)?, words)? {
        Some(matches) => settings_of(alloc, &matches),
        None => Ok(None),
    }
}

fn site_command(alloc: Global, words: &[String]) -> Result<Option<Command>, Memory>
    ensures value { IfOk result (λ c. c ≡ option_map Site (option_and_then settings_found (grammar.rows_if grammar.site (map string_bytes words.now)))) }
    ensures ready { IfOk result (λ c. IfSome c IsReady) }
{
    match site_settings(alloc, words)? {
        Some(settings) => Ok(Some(Command::Site(settings))),
        None => Ok(None),
    }
}

fn web_command(alloc: Global, words: &[String]) -> Result<Option<Command>, Memory>
    ensures value { IfOk result (λ c. c ≡ option_map Web (option_and_then settings_found (grammar.rows_if grammar.web (map string_bytes words.now)))) }
    ensures ready { IfOk result (λ c. IfSome c IsReady) }
{
    match web_settings(alloc, words)? {
        Some(settings) => Ok(Some(Command::Web(settings))),
        None => Ok(None),
    }
}

fn self_command(alloc: Global, words: &[String]) -> Result<Option<Command>, Memory>
    ensures value { IfOk result (λ c. c ≡ option_and_then generated_command (grammar.rows_if grammar.generated (map string_bytes words.now))) }
    ensures ready { IfOk result (λ c. IfSome c IsReady) }
{
    match matches_of(generated(alloc)?, words)? {
        Some(matches) => Ok(generated_of(&matches)),
        None => Ok(None),
    }
}

fn named_command(alloc: Global, name: &str, words: &[String]) -> Result<Option<Command>, Memory>
    ensures value { IfOk result (λ c. c ≡ command_named name.now (map string_bytes words.now)) }
    ensures ready { IfOk result (λ c. IfSome c IsReady) }
{
    if name == "site" {
        site_command(alloc, words)
    } else if name == "web" {
        web_command(alloc, words)
    } else if name == "self" {
        self_command(alloc, words)
    } else {
        Ok(None)
    }
}

fn command_or_none(alloc: Global, words: &[String]) -> Result<Option<Command>, Memory>
    ensures value { IfOk result (λ c. c ≡ command_of (map string_bytes words.now)) }
    ensures ready { IfOk result (λ c. IfSome c IsReady) }
{
    match words {
        [name, ..] => named_command(alloc, name.as_str(), words),
        [] => Ok(None),
    }
}

/// The command that the words stand for: those of a command line without the program's own name. It costs time and memory in
/// their lengths and, for each seed, what its link costs.
///
/// # Errors
///
/// `Usage` where they stand for none; a request for help is such a line.
pub fn read_words(alloc: Global, words: &[String]) -> Result<Command, WordsFault>
    ensures value { IfOk result (λ c. command_of (map string_bytes words.now) ≡ Some c) }
    ensures usage { result ≡ Err WordsFault.Usage → command_of (map string_bytes words.now) ≡ None }
    ensures ready { IfOk result IsReady }
{
    match command_or_none(alloc, words) {
        Ok(Some(command)) => Ok(command),
        Ok(None) => Err(WordsFault::Usage),
        Err(Memory) => Err(WordsFault::Memory),
    }
}
