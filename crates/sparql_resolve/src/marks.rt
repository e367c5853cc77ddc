//! Marks.

ghost use Rattle.std.specs.Prelude.{◌≡◌, ◌<◌, ◌==◌, length, slice_index};
ghost use Rattle.sparql_resolve.specs.Marks as spec;

use crate::kind::Kind;
use expr_eval::{CompareOp, Sign};

fn long_mark(first: u8) -> Kind
    ensures { result ≡ spec.long_mark first }
{
    match first {
        b'!' => Kind::Compare(CompareOp::NotEqual),
        b'<' => Kind::Compare(CompareOp::LessEqual),
        b'>' => Kind::Compare(CompareOp::GreaterEqual),
        b'&' => Kind::And,
        b'|' => Kind::Or,
        b'^' => Kind::Carets,
        _ => Kind::Unknown,
    }
}

fn short_mark(first: u8) -> Kind
    ensures { result ≡ spec.short_mark first }
{
    match first {
        b'{' => Kind::OpenBrace,
        b'}' => Kind::ShutBrace,
        b'(' => Kind::OpenParen,
        b')' => Kind::ShutParen,
        b'[' => Kind::OpenSquare(0),
        b']' => Kind::ShutSquare,
        b'.' => Kind::Dot,
        b';' => Kind::Semicolon,
        b',' => Kind::Comma,
        b'*' => Kind::Star,
        b'+' => Kind::Sign(Sign::Plus),
        b'-' => Kind::Sign(Sign::Minus),
        b'!' => Kind::Bang,
        b'=' => Kind::Compare(CompareOp::Equal),
        b'<' => Kind::Compare(CompareOp::Less),
        b'>' => Kind::Compare(CompareOp::Greater),
        b'/' | b'|' | b'^' | b'?' => Kind::Unsupported,
        _ => Kind::Unknown,
    }
}

/// What the bytes of a Mark are.
pub fn mark_kind(mark: &[u8]) -> Kind
    ensures { result ≡ spec.mark_kind mark.now }
{
    match mark {
        [first] => short_mark(*first),
        [first, _] => long_mark(*first),
        _ => Kind::Unknown,
    }
}
