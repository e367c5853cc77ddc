ghost use Rattle.std.specs.Prelude.{◌≡◌, ℕ, List, []};
ghost use Rattle.iri_core.specs.Dots.{without_dots};
ghost use Rattle.iri_core.specs.DotRules.{Removes};

/// The rules of RFC 3986, section 5.2.4, lead from a path to the path without its dot segments, and
/// to nothing else.
pub fn dots_go_by_the_rules()
    ensures lead { (path : List ℕ) → Removes path [] (without_dots path) }
    ensures alone { (path r : List ℕ) → Removes path [] r → r ≡ without_dots path }
{}
