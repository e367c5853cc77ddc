ghost use Rattle.std.specs.Prelude.{◌≡◌, ◌<◌, ◌-◌, ◌==◌, ◌&&◌, ◌||◌, not, true, length, slice_index, IfOk, option_map};
ghost use Rattle.std.specs.Option.{option_copied};
ghost use Rattle.std.specs.List.{list_all};
ghost use Rattle.std.specs.Str.Parse.{digits_value};
ghost use Rattle.link_uri.specs.Links as links;
ghost use Rattle.site_core.specs.Fields as spec;
ghost use Rattle.site_core.specs.Lines.{value_behind};
ghost use Rattle.site_core.specs.Capped.{capped_number};

use link_uri::{Scheme, link_of};
use rdf_terms::Memory;
use std::alloc::Global;

fn is_printable(byte: u8) -> bool
    ensures { result ≡ spec.is_printable byte }
{
    byte >= 32 && byte <= 126
}

fn is_visible(byte: u8) -> bool
    ensures { result ≡ spec.is_visible byte }
{
    byte >= 33 && byte <= 126
}

pub(crate) fn is_digit(byte: u8) -> bool
    ensures { result ≡ spec.is_digit byte }
{
    byte >= b'0' && byte <= b'9'
}

pub(crate) fn all_printable(bytes: &[u8]) -> bool
    ensures { result ≡ list_all spec.is_printable bytes.now }
{
    bytes.iter().all(|byte| is_printable(*byte))
}

fn all_visible(bytes: &[u8]) -> bool
    ensures { result ≡ list_all spec.is_visible bytes.now }
{
    bytes.iter().all(|byte| is_visible(*byte))
}

fn all_digits(bytes: &[u8]) -> bool
    ensures { result ≡ list_all spec.is_digit bytes.now }
{
    bytes.iter().all(|byte| is_digit(*byte))
}

/// Whether the bytes may stand as the value of a line.
pub(crate) fn is_value(value: &[u8]) -> bool
    ensures { result ≡ spec.is_value value.now }
{
    !value.is_empty() && (all_printable(value) && !has_outer_space(value))
}

fn has_outer_space(value: &[u8]) -> bool
    requires { 0 < length value.now }
    ensures { not result ≡ (not (slice_index value.now 0 == 32)
        && not (slice_index value.now (length value.now - 1) == 32)) }
{
    value[0] == b' ' || value[value.len() - 1] == b' '
}

pub(crate) fn is_number(digits: &[u8]) -> bool
    ensures { result ≡ spec.is_number digits.now }
{
    !digits.is_empty() && (all_digits(digits) && begins_as_number(digits))
}

fn begins_as_number(digits: &[u8]) -> bool
    requires { 0 < length digits.now }
    ensures { result ≡ (not (slice_index digits.now 0 == 48) || (length digits.now == 1)) }
{
    digits[0] != b'0' || digits.len() == 1
}

/// The number that a text writes; one that is too large for the type is the greatest of it.
pub(crate) fn number_of(text: &[u8]) -> Option<usize>
    ensures { result ≡ option_map capped_number (spec.number_of text.now) }
{
    if is_number(text) {
        Some(value_of(text))
    } else {
        None
    }
}

fn value_of(digits: &[u8]) -> usize
    requires { list_all spec.is_digit digits.now ≡ true }
    ensures { result ≡ capped_number (digits_value 10 digits.now) }
{
    let mut value: usize = 0;
    for digit in digits {
        value = value
            .saturating_mul(10)
            .saturating_add((*digit - b'0') as usize);
    }
    value
}

pub(crate) fn is_status(number: usize) -> bool
    ensures { result ≡ spec.is_status number }
{
    number >= 200 && (number <= 599 && !(number == 204 || number == 304))
}

/// What stands behind a word that the line begins with.
pub(crate) fn behind<'a>(word: &[u8], line: &'a [u8]) -> Option<&'a [u8]>
    ensures { option_copied result ≡ spec.behind word.now line.entry.now }
{
    line.strip_prefix(word)
}

/// The value behind a word.
pub(crate) fn value_behind<'a>(word: &[u8], line: &'a [u8]) -> Option<&'a [u8]>
    ensures { option_copied result ≡ value_behind word.now line.entry.now }
{
    match behind(word, line) {
        Some(value) if is_value(value) => Some(value),
        _ => None,
    }
}

/// Whether the bytes are the text of their own link, of the scheme http.
#[tactic(auto, unfolding(crate::specs::Fields::is_site_link))]
pub(crate) fn is_site_link(alloc: Global, bytes: &[u8]) -> Result<bool, Memory>
    ensures { IfOk result (λ b. b ≡ spec.is_site_link bytes.now) }
{
    if !all_visible(bytes) {
        return Ok(false);
    }
    match str::from_utf8(bytes) {
        Ok(text) => is_own_link(alloc, text),
        Err(_) => Ok(false),
    }
}

fn is_own_link(alloc: Global, text: &str) -> Result<bool, Memory>
    ensures { IfOk result (λ b. b ≡ spec.is_own_http text.now (links.link_of text.now)) }
{
    match link_of(alloc, text)? {
        Some(link) => Ok(is_http(link.scheme) && link.text.as_str() == text),
        None => Ok(false),
    }
}

fn is_http(scheme: Scheme) -> bool
    ensures { result ≡ spec.is_http scheme }
{
    match scheme {
        Scheme::Http => true,
        Scheme::Https => false,
    }
}
