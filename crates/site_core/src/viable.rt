ghost use Rattle.std.specs.Prelude.{◌≡◌, true, false, None, codes, IfOk, MatchBool};
ghost use Rattle.site_core.specs.Fields.{number_of};
ghost use Rattle.site_core.specs.Growth as spec;
ghost use Rattle.site_core.specs.Text.{is_site_from};
ghost use Rattle.site_core.specs.declared.expected.Expected.TheVariants.{Between};

use crate::expected::Expected;
use crate::fields::{all_printable, behind, is_digit, is_number, is_status, number_of};
use crate::link_part::link_grows;
use link_uri::Reply;
use rdf_terms::{Memory, TextBuf};
use std::alloc::Global;

/// Whether a line that may stand at the spot begins with this part of one.
pub(crate) fn is_viable_prefix(
    alloc: Global,
    entries: &[(TextBuf, Reply)],
    expected: &Expected,
    part: &[u8],
) -> Result<bool, Memory>
    requires { is_site_from None entries.now ≡ true }
    ensures { IfOk result (λ grows. MatchBool grows (spec.CanGrow entries.now expected.now part.now) (spec.CannotGrow entries.now expected.now part.now)) }
{
    match expected {
        Expected::First => Ok(begins(b"site 1", part)),
        Expected::Between => {
            if begins(b"end", part) {
                return Ok(true);
            }
            link_line_is_viable(alloc, entries, part)
        }
        Expected::Named(_) => Ok(status_line_grows(part)),
        Expected::Headed(_, reply) => Ok(field_grows(reply, part)),
    }
}

fn link_line_is_viable(
    alloc: Global,
    entries: &[(TextBuf, Reply)],
    part: &[u8],
) -> Result<bool, Memory>
    requires site { is_site_from None entries.now ≡ true }
    requires other { spec.begins (codes "end") part.now ≡ false }
    ensures { IfOk result (λ grows. MatchBool grows (spec.CanGrow entries.now Between part.now) (spec.CannotGrow entries.now Between part.now)) }
{
    if begins(b"link ", part) {
        return Ok(true);
    }
    match behind(b"link ", part) {
        Some(text) => link_grows(alloc, entries, text),
        None => Ok(false),
    }
}

pub(crate) fn begins(word: &[u8], part: &[u8]) -> bool
    ensures { result ≡ spec.begins word.now part.now }
{
    word.starts_with(part)
}

fn status_line_grows(part: &[u8]) -> bool
    ensures { result ≡ spec.word_grows spec.status_begins (codes "status ") part.now }
{
    if begins(b"status ", part) {
        return true;
    }
    match behind(b"status ", part) {
        Some(digits) => status_begins(digits),
        None => false,
    }
}

fn status_begins(digits: &[u8]) -> bool
    ensures { result ≡ spec.status_begins digits.now }
{
    if digits.is_empty() {
        true
    } else if digits.len() == 1 {
        is_hundred(digits[0])
    } else if digits.len() == 2 {
        is_hundred(digits[0]) && is_digit(digits[1])
    } else {
        is_status_text(digits)
    }
}

// Whether a final status begins with the digit.
fn is_hundred(byte: u8) -> bool
    ensures { result ≡ spec.is_hundred byte }
{
    byte >= b'2' && byte <= b'5'
}

fn is_status_text(digits: &[u8]) -> bool
    ensures { result ≡ spec.is_status_of (number_of digits.now) }
{
    match number_of(digits) {
        Some(number) => is_status(number),
        None => false,
    }
}

fn field_grows(reply: &Reply, part: &[u8]) -> bool
    ensures { result ≡ spec.field_grows reply.now part.now }
{
    let located = reply.location.is_none();
    let coded = reply.coding.is_none() && located;
    let typed = reply.media.is_none() && coded;
    (typed && value_line_grows(b"type ", part))
        || ((coded && value_line_grows(b"coding ", part))
            || ((located && value_line_grows(b"location ", part)) || body_line_grows(part)))
}

fn value_line_grows(word: &[u8], part: &[u8]) -> bool
    ensures { result ≡ spec.word_grows spec.value_begins word.now part.now }
{
    if begins(word, part) {
        return true;
    }
    match behind(word, part) {
        Some(value) => value_begins(value),
        None => false,
    }
}

// The part may end in a space, since another byte may follow.
fn value_begins(value: &[u8]) -> bool
    ensures { result ≡ spec.value_begins value.now }
{
    value.is_empty() || (all_printable(value) && value[0] != b' ')
}

fn body_line_grows(part: &[u8]) -> bool
    ensures { result ≡ spec.word_grows spec.number_begins (codes "body ") part.now }
{
    if begins(b"body ", part) {
        return true;
    }
    match behind(b"body ", part) {
        Some(digits) => digits.is_empty() || is_number(digits),
        None => false,
    }
}
