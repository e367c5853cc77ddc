ghost use Rattle.std.specs.Prelude.{◌≡◌, IfOk, bytes_eq};
ghost use Rattle.std.specs.String.{string_bytes};
ghost use Rattle.std.specs.Cmp.{partial_order_from_own_ties, partial_equiv_from_equiv};
ghost use Rattle.std.specs.Cmp.Rules.{comparing, hashing};
ghost use Rattle.std.specs.Hash as fed;
ghost use Rattle.std.specs.Cmp.Lexicographic.{slice_cmp, nat_list_eq_equiv};
ghost use Rattle.std.specs.Ordering.{nat_cmp, as_partial_cmp};
ghost use Rattle.std.proofs.Common.{rules};

use crate::Memory;
use std::alloc::Global;
use std::cmp::Ordering;
use std::hash::{Hash, Hasher};
use std::marker::Model;
use std::sync::ArcStr;

/// A text in UTF-8 that contracts see as the list of its bytes.
///
/// The bytes are shared and counted: a `copy` costs no memory and no time that depends on the
/// length, and texts may cross threads.
#[derive(Debug, Drop)]
pub struct TextBuf {
    text: ArcStr<Global>,
}

impl Model for TextBuf {
    ghost use Rattle.std.specs.Prelude.{List, ℕ};
    ghost use Rattle.std.specs.Arc.{arc_str_bytes};

    ghost Value = { List ℕ };

    ghost view = { λ t. arc_str_bytes t.text };
}

impl TextBuf {
    /// The same text, in memory of its own.
    pub fn from_str(alloc: Global, text: &str) -> Result<TextBuf, Memory>
        ensures { IfOk result (λ t. t ≡ text.now) }
    {
        Ok(TextBuf {
            text: ArcStr::from_str(alloc, text)?,
        })
    }

    /// The same text. The `String`'s spare room is kept with it.
    pub fn from_string(text: String) -> Result<TextBuf, Memory>
        ensures { IfOk result (λ t. t ≡ string_bytes text) }
    {
        Ok(TextBuf {
            text: ArcStr::from_string(text)?,
        })
    }

    /// The text itself, lent.
    pub fn as_str(&self) -> &str
        ensures { result.now ≡ self.now }
    {
        self.text.as_str()
    }

    /// An equal text, which shares its bytes with this one.
    pub fn copy(&self) -> Result<TextBuf, Memory>
        ensures { IfOk result (λ t. t ≡ self.now) }
    {
        Ok(TextBuf {
            text: self.text.clone()?,
        })
    }
}

impl PartialEq for TextBuf {
    ghost eq = { bytes_eq };

    ghost laws = { partial_equiv_from_equiv nat_list_eq_equiv };

    fn eq(&self, other: &TextBuf) -> bool {
        self.text == other.text
    }
}

impl Eq for TextBuf {
    ghost laws = { nat_list_eq_equiv };
}

impl Ord for TextBuf {
    ghost cmp = { slice_cmp nat_cmp };

    ghost total = { Prim.search (comparing, rules) };

    ghost matches_partial_cmp = { Prim.search (comparing, rules) };

    ghost matches_eq = { Prim.search (comparing, rules) };

    fn cmp(&self, other: &TextBuf) -> Ordering {
        self.text.cmp(&other.text)
    }
}

impl PartialOrd for TextBuf {
    ghost partial_cmp = { as_partial_cmp (slice_cmp nat_cmp) };

    ghost laws = { partial_order_from_own_ties (Prim.search (comparing, rules)) (Prim.search (comparing, rules)) };

    fn partial_cmp(&self, other: &TextBuf) -> Option<Ordering> {
        Some(self.cmp(other))
    }
}

impl Hash for TextBuf {
    ghost hash_input = { fed.str };

    ghost respects_eq = { Prim.search (hashing, rules) };

    fn hash<H: Hasher>(&self, state: &mut H) {
        self.text.as_str().hash(state);
    }
}
