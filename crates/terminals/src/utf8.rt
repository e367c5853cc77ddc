ghost use Rattle.std.specs.Prelude.{◌≡◌, ◌<◌, ◌≤◌, length, drop, IfSome, option_map};
ghost use Rattle.terminals.specs.Utf8.{decoded, follows, first_symbol, symbol_of};

use crate::class::{Class, class_of};

/// The code point at the front of the bytes, and how many bytes it takes beside the first; `None`
/// where the bytes are empty or begin with no character.
#[tactic(auto, unfolding(crate::specs::Utf8::decoded))]
pub fn char_at(bytes: &[u8]) -> Option<(u32, usize)>
    ensures value { result ≡ decoded bytes.now }
    ensures within { IfSome result (λ x. x.1 < length bytes.now) }
{
    match bytes {
        [a, ..] if *a < 128 => Some((u32::from(*a), 0)),
        [a, b, ..] if 0xc2 <= *a && *a < 0xe0 && follows(*b) => {
            Some(((u32::from(*a) - 0xc0) * 64 + (u32::from(*b) - 128), 1))
        }
        [a, b, c, ..] if 0xe0 <= *a && *a < 0xf0 && follows(*b) && follows(*c) => {
            let code = (u32::from(*a) - 0xe0) * 4096
                + (u32::from(*b) - 128) * 64
                + (u32::from(*c) - 128);
            if code < 0x800 || 0xd800 <= code && code < 0xe000 {
                return None;
            }
            Some((code, 2))
        }
        [a, b, c, d, ..] if 0xf0 <= *a && *a < 0xf5 && follows(*b) && follows(*c) && follows(*d) =>
            {
                let code = (u32::from(*a) - 0xf0) * 262144
                    + (u32::from(*b) - 128) * 4096
                    + (u32::from(*c) - 128) * 64
                    + (u32::from(*d) - 128);
                if code < 0x10000 || 0x110000 <= code {
                    return None;
                }
                Some((code, 3))
            }
        _ => None,
    }
}

fn follows(b: u8) -> bool
    ensures { result ≡ follows b }
{
    128 <= b && b < 192
}

/// The class of the first character and how many bytes it takes; a byte at which none begins is
/// `Ill` and takes one. `None` at the end.
pub fn symbol_at(bytes: &[u8]) -> Option<(Class, usize)>
    ensures value { option_map symbol_of result ≡ first_symbol bytes.now }
    ensures within { IfSome result (λ x. (0 < x.1) × (x.1 ≤ length bytes.now)) }
{
    if bytes.is_empty() {
        return None;
    }
    match char_at(bytes) {
        Some((code, extra)) => Some((class_of(code), extra + 1)),
        None => Some((Class::Ill, 1)),
    }
}
