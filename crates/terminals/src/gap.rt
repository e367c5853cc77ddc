ghost use Rattle.std.specs.Prelude.{◌≡◌, ◌≤◌, length, drop, false};
ghost use Rattle.terminals.specs.Utf8.{symbols_of};
ghost use Rattle.terminals.specs.Gap as spec;

use crate::class::Class;
use crate::utf8::symbol_at;

/// What ends a gap of white space and comments, and where.
#[derive(Clone, Copy, Debug, PartialEq, Eq)]
pub enum Gap {
    /// A character that is neither white space nor the beginning of a comment.
    Token(usize),
    /// An ill-formed byte in a comment.
    Ill(usize),
    /// The text's end.
    End(usize),
}

// Whether the character belongs to the gap, inside a comment or outside.
fn is_gap(comment: bool, x: Class) -> bool
    ensures { result ≡ spec.is_gap comment x }
{
    if comment {
        !x.is_ill()
    } else {
        x.is_hash() || x.is_white()
    }
}

// Whether a comment goes on behind the character.
fn goes_on(comment: bool, x: Class) -> bool
    ensures { result ≡ spec.goes_on comment x }
{
    if comment {
        !x.is_line_end()
    } else {
        x.is_hash()
    }
}

fn gap_stop(comment: bool, at: usize) -> Gap
    ensures value { result ≡ spec.gap_stop comment at }
    ensures place { spec.place_of result ≡ at }
{
    if comment {
        Gap::Ill(at)
    } else {
        Gap::Token(at)
    }
}

/// What ends the gap that begins at the place.
pub fn gap_at(bytes: &[u8], from: usize) -> Gap
    requires { from ≤ length bytes.now }
    ensures value { result ≡ spec.gap_of false from (symbols_of (drop from bytes.now)) }
    ensures within { spec.place_of result ≤ length bytes.now }
{
    let mut at = from;
    let mut comment = false;
    while let Some((class, width)) = symbol_at(&bytes[at..]) {
        if !is_gap(comment, class) {
            return gap_stop(comment, at);
        }
        comment = goes_on(comment, class);
        at += width;
    }
    Gap::End(at)
}
