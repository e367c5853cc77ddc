ghost use Rattle.std.specs.Prelude.{◌≡◌, ◌≤◌, length, codes};
ghost use Rattle.link_uri.specs.Heard.{is_blank};
ghost use Rattle.http_header.specs.HeaderMap.{get_all};
ghost use Rattle.http_message.specs.Lengths as spec;

use crate::fields::first_value;
use crate::lines::tail;
use http_header::HeaderMap;

/// The bytes without the spaces and tabs at both ends.
pub fn trim(bytes: &[u8]) -> &[u8]
    ensures { result.now ≡ spec.trimmed bytes.now }
{
    let front = bytes.iter().take_while(|&&b| is_space(b)).count();
    let rest = &bytes[front..];
    let back = rest.iter().rev().take_while(|&&b| is_space(b)).count();
    &rest[..rest.len() - back]
}

fn is_space(byte: u8) -> bool
    ensures { result ≡ is_blank byte }
{
    byte == b' ' || byte == b'\t'
}

// The number that digits give, where it fits.
fn number_of(digits: &[u8]) -> Option<u64>
    ensures { result ≡ spec.number_of digits.now }
{
    if digits.is_empty() {
        return None;
    }
    let mut n: u64 = 0;
    for b in digits {
        if *b < b'0' || *b > b'9' {
            return None;
        }
        let digit = u64::from(*b - b'0');
        n = n.checked_mul(10)?.checked_add(digit)?;
    }
    Some(n)
}

// Whether a member of a list is the number.
fn is_stated(length: u64, member: &[u8]) -> bool
    ensures { result ≡ spec.states length member.now }
{
    match number_of(trim(member)) {
        Some(n) => n == length,
        None => false,
    }
}

// Where the first member of a list ends: at its first comma, or at its end.
fn end_of_member(list: &[u8]) -> usize
    ensures first { result ≡ spec.first_len list.now }
    ensures within { result ≤ length list.now }
{
    for (i, b) in list.iter().enumerate() {
        if *b == b',' {
            return i;
        }
    }
    list.len()
}

// Whether each member of a list is the number.
#[tactic(auto, using(crate::proofs::LengthLemmas::more_false, crate::proofs::LengthLemmas::more_true, crate::proofs::LengthLemmas::one_left))]
fn all_state(length: u64, list: &[u8]) -> bool
    ensures { result ≡ spec.all_state length (spec.members list.now) }
{
    let mut rest = list;
    let mut at = end_of_member(rest);
    while at < rest.len() {
        if !is_stated(length, &rest[..at]) {
            return false;
        }
        rest = tail(tail(rest, at), 1);
        at = end_of_member(rest);
    }
    is_stated(length, rest)
}

// Whether each member of each Content-Length is the number.
#[tactic(auto, using(crate::proofs::LengthLemmas::values_false, crate::proofs::LengthLemmas::values_true))]
fn each_states(length: u64, fields: &HeaderMap) -> bool
    ensures { result ≡ spec.all_state length (spec.all_members (get_all fields.now (codes "content-length"))) }
{
    for list in fields.get_all("content-length") {
        if !all_state(length, list.as_bytes()) {
            return false;
        }
    }
    true
}

// The number that the first member of a list is.
fn first_number(list: &[u8]) -> Option<u64>
    ensures { result ≡ spec.first_number list.now }
{
    number_of(trim(&list[..end_of_member(list)]))
}

/// The one length that the fields state, or none where they state none or several.
#[tactic(auto, using(crate::proofs::LengthLemmas::no_values, crate::proofs::LengthLemmas::stated_none, crate::proofs::LengthLemmas::stated_yes, crate::proofs::LengthLemmas::stated_not))]
pub fn stated_length(fields: &HeaderMap) -> Option<u64>
    ensures { result ≡ spec.length_of (get_all fields.now (codes "content-length")) }
{
    let first = first_value(fields, "content-length")?;
    let length = first_number(first)?;
    if each_states(length, fields) {
        Some(length)
    } else {
        None
    }
}
