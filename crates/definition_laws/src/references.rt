//! References and their parts.
ghost use Rattle.std.specs.Prelude.{◌≡◌, ℕ, List, codes};
ghost use Rattle.std.specs.Option.{ForSome};
ghost use Rattle.iri_core.specs.Resolution.{components, recomposed};
ghost use Rattle.definition_laws.specs.References.{HasNone};

/// The parts of a reference, put together again with their marks (RFC 3986, section 5.3), are the text, and no part holds a
/// mark that would end it (appendix B).
pub fn parts_make_up_the_text()
    ensures whole { (text : List ℕ) → recomposed (components text) ≡ text }
    ensures scheme { (text : List ℕ) → ForSome (components text).scheme (HasNone (codes ":/?#")) }
    ensures authority { (text : List ℕ) → ForSome (components text).authority (HasNone (codes "/?#")) }
    ensures path { (text : List ℕ) → HasNone (codes "?#") (components text).path }
    ensures query { (text : List ℕ) → ForSome (components text).query (HasNone (codes "#")) }
{}
