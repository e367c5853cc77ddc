//! How links are looked up: `--lanes`, `--tries`, `--body` and `--via`.
ghost use Rattle.std.specs.Prelude.{◌≡◌, IfOk, IfSome, option_map};
ghost use Rattle.std.specs.List.{list_all};
ghost use Rattle.clap.specs.Words.{found_of, rows_of};
ghost use Rattle.web_port.specs.Settings.{AreSettings};
ghost use Rattle.command_words.specs.Values as spec;

use crate::numbers::number_in;
use crate::values::{body_of, first, lanes_of, tries_of};
use clap::ArgMatches;
use rdf_terms::{Memory, TextBuf};
use std::alloc::Global;
use web_port::{FetchSettings, Via};

fn is_host_byte(byte: u8) -> bool
    ensures { result ≡ spec.is_host_byte byte }
{
    b'0' <= byte && byte <= b'9'
        || (b'A' <= byte && byte <= b'Z'
            || (b'a' <= byte && byte <= b'z' || (byte == b'.' || byte == b'-')))
}

fn all_host_bytes(bytes: &[u8]) -> bool
    ensures { result ≡ list_all spec.is_host_byte bytes.now }
{
    bytes.iter().all(|byte| is_host_byte(*byte))
}

fn is_host(text: &[u8]) -> bool
    ensures { result ≡ spec.is_host text.now }
{
    !text.is_empty() && all_host_bytes(text)
}

fn port_of(text: &str) -> Option<u16>
    ensures { result ≡ spec.number_in 1 65535 text.now }
{
    match number_in(text, 1, 65_535) {
        Some(number) => Some(number as u16),
        None => None,
    }
}

fn via_with(alloc: Global, host: &str, port: &str) -> Result<Option<Via>, Memory>
    ensures { IfOk result (λ via. via ≡ spec.via_with host.now port.now) }
{
    if !is_host(host.as_bytes()) {
        return Ok(None);
    }
    match port_of(port) {
        Some(port) => Ok(Some(Via {
            host: TextBuf::from_str(alloc, host)?,
            port,
        })),
        None => Ok(None),
    }
}

// The host and the port of `HOST:PORT`.
fn via_named(alloc: Global, text: &str) -> Result<Option<Via>, Memory>
    ensures { IfOk result (λ via. via ≡ spec.via_named text.now) }
{
    match text.split_once(':') {
        Some((host, port)) => via_with(alloc, host, port),
        None => Ok(None),
    }
}

// None where the text is of another form, and `Some(None)` where there is no text.
fn via_of(alloc: Global, text: Option<&str>) -> Result<Option<Option<Via>>, Memory>
    ensures { IfOk result (λ via. via ≡ spec.via_of (option_map (λ t. t.now) text.entry)) }
{
    let Some(text) = text else {
        return Ok(Some(None));
    };
    match via_named(alloc, text)? {
        Some(via) => Ok(Some(Some(via))),
        None => Ok(None),
    }
}

/// The settings of a fetcher, or none where a value is of another form.
pub(crate) fn fetch_of(
    alloc: Global,
    matches: &ArgMatches<'_>,
) -> Result<Option<FetchSettings>, Memory>
    ensures value { IfOk result (λ fetch. fetch ≡ spec.fetch_of (rows_of (found_of matches.now))) }
    ensures ready { IfOk result (λ fetch. IfSome fetch AreSettings) }
{
    let Some(lanes) = lanes_of(matches) else {
        return Ok(None);
    };
    let Some(tries) = tries_of(matches) else {
        return Ok(None);
    };
    let Some(body) = body_of(matches) else {
        return Ok(None);
    };
    match via_of(alloc, first(matches, "via"))? {
        Some(via) => Ok(Some(FetchSettings {
            lanes,
            tries,
            body,
            via,
        })),
        None => Ok(None),
    }
}
