//! Escapes undone.

ghost use Rattle.std.specs.Prelude.{◌≡◌, ◌+◌, ◌-◌, ◌<◌, ◌≤◌, ◌^◌, ◌∷◌, ◌++◌, [], take, drop, length, slice_index, IfOk, OnOk, option_map};
ghost use Rattle.terminals.specs.Values as value;
ghost use Rattle.terminals.specs.Texts.{FirstIs, digit_of};

use crate::class::class_of;
use crate::escape::{is_scalar, with_digit};
use rdf_terms::Memory;
use std::alloc::Global;

/// The first byte and those behind it.
pub fn first(bytes: &[u8]) -> Option<(u8, &[u8])>
    ensures { FirstIs bytes.now (option_map (λ x. (x.0, x.1.now)) result) }
{
    match bytes {
        [] => None,
        [byte, rest @ ..] => Some((*byte, rest)),
    }
}

/// The bytes without the first so many.
pub fn behind(bytes: &[u8], count: usize) -> &[u8]
    ensures { result.now ≡ drop count bytes.now }
{
    &bytes[count.min(bytes.len())..]
}

/// The first so many bytes.
pub fn front(bytes: &[u8], count: usize) -> &[u8]
    ensures { result.now ≡ take count bytes.now }
{
    &bytes[..count.min(bytes.len())]
}

fn first_or_zero(bytes: &[u8]) -> u8
    ensures { result ≡ slice_index bytes.now 0 }
{
    if bytes.is_empty() { 0 } else { bytes[0] }
}

fn digit_of(byte: u8) -> u8
    ensures { result ≡ digit_of byte }
{
    match class_of(u32::from(byte)).hex_value() {
        Some(value) => value,
        None => 0,
    }
}

/// The number that the bytes make as hexadecimal digits.
fn number(digits: &[u8]) -> u32
    ensures { result ≡ value.number_from 0 digits.now }
{
    let mut number = 0;
    for byte in digits {
        number = with_digit(number, digit_of(*byte));
    }
    number
}

fn push_scalar(alloc: Global, out: &mut Vec<u8>, number: u32) -> Result<(), Memory>
    ensures { OnOk result (out.new.items ≡ out.old.items ++ value.scalar_text number) }
{
    if is_scalar(number) {
        if let Some(scalar) = char::from_u32(number) {
            let mut text = String::new(alloc);
            text.push(scalar)?;
            out.extend_from_slice(text.as_bytes())?;
        }
    }
    Ok(())
}

fn escaped(byte: u8) -> u8
    ensures { result ≡ value.escaped byte }
{
    match byte {
        b't' => b'\t',
        b'b' => 8,
        b'n' => b'\n',
        b'r' => b'\r',
        b'f' => 12,
        _ => byte,
    }
}

fn escape_width(byte: u8) -> usize
    ensures { result ≡ value.escape_width byte }
{
    match byte {
        b'u' => 5,
        b'U' => 9,
        _ => 1,
    }
}

// Appends what the escape stands for whose backslash these bytes follow.
fn push_escape(alloc: Global, out: &mut Vec<u8>, bytes: &[u8]) -> Result<(), Memory>
    ensures { OnOk result (out.new.items ≡ out.old.items ++ value.escape_text bytes.now) }
{
    let byte = first_or_zero(bytes);
    if byte == b'u' {
        return push_scalar(alloc, out, number(front(behind(bytes, 1), 4)));
    }
    if byte == b'U' {
        return push_scalar(alloc, out, number(front(behind(bytes, 1), 8)));
    }
    out.push(escaped(byte))?;
    Ok(())
}

/// The bytes with their escapes undone.
#[tactic(auto, unfolding(crate::specs::Values::unescaped_upto))]
pub fn unescaped(alloc: Global, bytes: &[u8]) -> Result<Vec<u8>, Memory>
    ensures { IfOk result (λ v. v.items ≡ value.unescaped bytes.now) }
{
    let mut out = Vec::new(alloc);
    let mut rest = bytes;
    while let Some((byte, after)) = first(rest) {
        if byte == b'\\' {
            push_escape(alloc, &mut out, after)?;
            rest = behind(after, escape_width(first_or_zero(after)));
        } else {
            out.push(byte)?;
            rest = after;
        }
    }
    Ok(out)
}
