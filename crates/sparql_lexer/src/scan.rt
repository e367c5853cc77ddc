//! The longest token from a place on.

ghost use Rattle.std.specs.Prelude.{◌≡◌, ◌<◌, ◌≤◌, length, drop, None, IfSome, if◌then◌else◌};
ghost use Rattle.terminals.specs.Utf8.{symbols_of};
ghost use Rattle.terminals.specs.Scan.{scan};
ghost use Rattle.sparql_lexer.specs.State as spec;

use crate::kind::QueryKind;
use crate::state::{State, is_waiting, kind_of, step};
use terminals::symbol_at;

/// The kind of the longest token that begins at `from` and the place behind it, and the new `no_colon_before`.
///
/// Up to `no_colon_before` no colon comes that makes a name of a prefix, as an earlier scan has seen; so no
/// byte is read again and again for a name that does not come.
pub fn longest(
    bytes: &[u8],
    from: usize,
    no_colon_before: usize,
) -> (Option<(QueryKind, usize)>, usize)
    requires place { from ≤ length bytes.now }
    requires nameless { spec.HasNoPrefixedName no_colon_before from (symbols_of (drop from bytes.now)) }
    ensures within { IfSome result.0 (λ x. (from < x.1) × (x.1 ≤ length bytes.now)) }
    ensures found { result.0 ≡ scan spec.stepped spec.kind_of State.Start from None (symbols_of (drop from bytes.now)) }
    ensures nameless { spec.HasNoPrefixedName result.1 from (symbols_of (drop from bytes.now)) }
{
    let mut state = State::Start;
    let mut at = from;
    let mut best = None;
    while let Some((class, width)) = symbol_at(&bytes[at..]) {
        let Some(next) = step(state, class) else {
            return (best, no_colon_behind(state, at, no_colon_before));
        };
        state = next;
        at += width;
        if from < no_colon_before && is_waiting(next) {
            return (best, no_colon_before);
        }
        if let Some(kind) = kind_of(next) {
            best = Some((kind, at));
        }
    }
    (best, no_colon_behind(state, at, no_colon_before))
}

// `no_colon_before` where the automaton stops in a state.
fn no_colon_behind(state: State, at: usize, no_colon_before: usize) -> usize
    ensures { result ≡ (if spec.is_waiting state then at else no_colon_before) }
{
    if is_waiting(state) {
        at
    } else {
        no_colon_before
    }
}
