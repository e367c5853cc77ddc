ghost use Rattle.std.specs.Prelude.{◌≡◌, ◌↔◌, IsTrue, IfOk, bytes_eq};
ghost use Rattle.std.proofs.Common.{rules};
ghost use Rattle.std.specs.Hash as fed;
ghost use Rattle.std.specs.Cmp.{on_equiv, on_per, partial_equiv_from_equiv};
ghost use Rattle.std.specs.Cmp.Lexicographic.{nat_list_eq_equiv};
ghost use Rattle.std.specs.Cmp.Rules.{hashing};

use rdf_terms::{Memory, TextBuf};
use std::hash::{Hash, Hasher};

/// The scheme of a link.
#[derive(Clone, Copy, Debug, PartialEq, Eq, Drop)]
pub enum Scheme {
    Http,
    Https,
}

/// A web URL without its fragment, with the parts that a look-up needs.
///
/// `==` and the hash go by the text alone: two links are one where their texts are equal.
#[derive(Debug, Drop)]
pub struct Link {
    /// The whole URL, as the URL Standard serializes it with its fragment left out.
    pub text: TextBuf,
    pub scheme: Scheme,
    /// The host; an IPv6 address keeps its brackets.
    pub host: TextBuf,
    /// The port to connect to: the one in the URL, or the scheme's own.
    pub port: u16,
    /// The path, and `?` and the query where there is one.
    pub target: TextBuf,
}

impl Link {
    /// An equal link. Its texts are shared with this one.
    pub fn copy(&self) -> Result<Link, Memory>
        ensures { IfOk result (λ link. link ≡ self.now) }
    {
        Ok(Link {
            text: self.text.copy()?,
            scheme: self.scheme,
            host: self.host.copy()?,
            port: self.port,
            target: self.target.copy()?,
        })
    }
}

/// Whether two links are equal in all parts, be they links of a text or not.
pub fn is_same_link(a: &Link, b: &Link) -> bool
    ensures { IsTrue result ↔ (a.now ≡ b.now) }
{
    a.text == b.text
        && (a.scheme == b.scheme
            && (a.host == b.host && (a.port == b.port && a.target == b.target)))
}

impl PartialEq for Link {
    ghost eq = { λ a b. bytes_eq a.text b.text };

    ghost laws = { on_per (λ a. a.text) (partial_equiv_from_equiv nat_list_eq_equiv) };

    fn eq(&self, other: &Link) -> bool {
        self.text == other.text
    }
}

impl Eq for Link {
    ghost laws = { on_equiv (λ a. a.text) nat_list_eq_equiv };
}

impl Hash for Link {
    ghost hash_input = { λ a. fed.str a.text };

    ghost respects_eq = { Prim.search (hashing, rules) };

    fn hash<H: Hasher>(&self, state: &mut H) {
        self.text.hash(state);
    }
}
