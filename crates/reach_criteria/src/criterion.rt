ghost use Rattle.std.specs.Prelude.{◌≡◌, IsTrue, ◌↔◌};
ghost use Rattle.std.specs.List.{list_any};
ghost use Rattle.rows_core.specs.Patterns.{matches};
ghost use Rattle.reach_criteria.specs.Follow.{Selects};
ghost use Rattle.reach_criteria.specs.Follow as spec;

use rdf_terms::Triple;
use rows_core::{TriplePattern, match_triple};

/// Which triples a run follows: all, none, or those that match a pattern of the query.
#[derive(Clone, Copy, Debug, PartialEq, Eq, Drop)]
pub enum Criterion {
    All,
    None,
    Match,
}

fn is_matched(triple: &Triple, patterns: &[TriplePattern]) -> bool
    ensures { result ≡ list_any (λ p. matches p triple.now) patterns.now }
{
    patterns.iter().any(
        |pattern|
            ensures { result ≡ matches pattern.now triple.entry.now }
        { match_triple(pattern, triple) },
    )
}

// The test of the criterion.
fn is_selected(criterion: Criterion, triple: &Triple, patterns: &[TriplePattern]) -> bool
    ensures { result ≡ spec.selects criterion patterns.now triple.now }
{
    match criterion {
        Criterion::All => true,
        Criterion::None => false,
        Criterion::Match => is_matched(triple, patterns),
    }
}

/// Whether the criterion selects the triple, for the patterns of a query. With `Match` it costs a test of each pattern up to the
/// first that matches. No memory.
pub fn selects(criterion: Criterion, triple: &Triple, patterns: &[TriplePattern]) -> bool
    ensures test { result ≡ spec.selects criterion patterns.now triple.now }
    ensures meaning { IsTrue result ↔ Selects criterion patterns.now triple.now }
{
    is_selected(criterion, triple, patterns)
}
