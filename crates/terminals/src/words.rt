//! Keywords, which are read in any case.

ghost use Rattle.std.specs.Prelude.{◌≡◌};
ghost use Rattle.terminals.specs.Words as spec;

use crate::texts::lower;
use crate::unescaping::first;

/// Whether the bytes are this word in any case, which is given in lower case. It takes as many calls
/// as that one has letters.
pub fn is_word(bytes: &[u8], wanted: &[u8]) -> bool
    ensures { result ≡ spec.is_word bytes.now wanted.now }
{
    match first(bytes) {
        None => first(wanted).is_none(),
        Some((a, bytes)) => match first(wanted) {
            None => false,
            Some((b, wanted)) => lower(a) == b && is_word(bytes, wanted),
        },
    }
}
