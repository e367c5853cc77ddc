//! The values of the options that `site`, `web` and `self` may have.
ghost use Rattle.std.specs.Prelude.{◌≡◌, ◌≤◌, ◌<◌, IfSome, map, option_map};
ghost use Rattle.clap.specs.Words.{all_of, first_of, found_of, rows_of};
ghost use Rattle.command_words.specs.Values as spec;

use crate::numbers::number_in;
use clap::ArgMatches;
use reach_criteria::Criterion;

const MEBIBYTE: u64 = 1_048_576;

/// The first word that stands for the argument, or none where no word does.
pub(crate) fn first<'a>(matches: &ArgMatches<'a>, id: &str) -> Option<&'a str>
    ensures { option_map (λ text. text.now) result ≡ first_of id.now (rows_of (found_of matches.now)) }
{
    matches.get_str(id)
}

/// The words that stand for the argument, or none where no word does.
pub(crate) fn all<'m, 'a>(matches: &'m ArgMatches<'a>, id: &str) -> Option<&'m [&'a str]>
    ensures { option_map (λ texts. map (λ text. text.now) texts.now) result
        ≡ all_of id.now (rows_of (found_of matches.now)) }
{
    matches.get_strs(id)
}

// The number of an option, or its default where the words don't name it.
fn number_or(matches: &ArgMatches<'_>, id: &str, default: u64, least: u64, most: u64) -> Option<u64>
    requires default { (least ≤ default) × (default ≤ most) }
    requires most { most < 18446744073709551615 }
    ensures value { result ≡ spec.number_or id.now default least most (rows_of (found_of matches.now)) }
    ensures range { IfSome result (λ n. (least ≤ n) × (n ≤ most)) }
{
    match first(matches, id) {
        Some(text) => number_in(text, least, most),
        None => Some(default),
    }
}

fn criterion_named(name: &str) -> Option<Criterion>
    ensures { result ≡ spec.criterion_named name.now }
{
    if name == "all" {
        Some(Criterion::All)
    } else if name == "none" {
        Some(Criterion::None)
    } else if name == "match" {
        Some(Criterion::Match)
    } else {
        None
    }
}

/// The criterion of `--criterion`.
pub(crate) fn criterion_of(matches: &ArgMatches<'_>) -> Option<Criterion>
    ensures { result ≡ spec.criterion_of (rows_of (found_of matches.now)) }
{
    match first(matches, "criterion") {
        Some(name) => criterion_named(name),
        None => Some(Criterion::Match),
    }
}

/// The number of `--limit`.
pub(crate) fn limit_of(matches: &ArgMatches<'_>) -> Option<u64>
    ensures value { result ≡ spec.limit_of (rows_of (found_of matches.now)) }
    ensures range { IfSome result (λ n. (1 ≤ n) × (n ≤ 100000)) }
{
    number_or(matches, "limit", 500, 1, 100_000)
}

/// The number of `--body`, in bytes.
pub(crate) fn body_of(matches: &ArgMatches<'_>) -> Option<u64>
    ensures { result ≡ spec.body_of (rows_of (found_of matches.now)) }
{
    match number_or(matches, "body", 1, 1, 16) {
        Some(number) => Some(number * MEBIBYTE),
        None => None,
    }
}

/// The number of `--workers`.
pub(crate) fn workers_of(matches: &ArgMatches<'_>) -> Option<u16>
    ensures { result ≡ spec.workers_of (rows_of (found_of matches.now)) }
{
    match number_or(matches, "workers", 4, 0, 16) {
        Some(number) => Some(number as u16),
        None => None,
    }
}

/// The number of `--lanes`.
pub(crate) fn lanes_of(matches: &ArgMatches<'_>) -> Option<u16>
    ensures value { result ≡ spec.lanes_of (rows_of (found_of matches.now)) }
    ensures least { IfSome result (λ n. 0 < n) }
{
    match number_or(matches, "lanes", 8, 1, 32) {
        Some(number) => Some(number as u16),
        None => None,
    }
}

/// The number of `--tries`.
pub(crate) fn tries_of(matches: &ArgMatches<'_>) -> Option<u8>
    ensures value { result ≡ spec.tries_of (rows_of (found_of matches.now)) }
    ensures least { IfSome result (λ n. 0 < n) }
{
    match number_or(matches, "tries", 3, 1, 10) {
        Some(number) => Some(number as u8),
        None => None,
    }
}

/// The number of documents that `self` is given.
pub(crate) fn count_of(matches: &ArgMatches<'_>) -> Option<u64>
    ensures value { result ≡ spec.count_of (rows_of (found_of matches.now)) }
    ensures range { IfSome result (λ n. (1 ≤ n) × (n ≤ 2000)) }
{
    match first(matches, "n") {
        Some(text) => number_in(text, 1, 2_000),
        None => None,
    }
}
