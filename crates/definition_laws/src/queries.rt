//! Queries and the names of their variables.
ghost use Rattle.std.specs.Prelude.{◌≡◌, ◌+◌, ◌<◌, ◌≤◌, ℕ, List, Some, length, map, slice_get};
ghost use Rattle.algebra_core.specs.declared.query.Query.{Query};
ghost use Rattle.algebra_core.specs.Query.{IsValid};
ghost use Rattle.sparql_lexer.specs.declared.token.QueryToken.{QueryToken};
ghost use Rattle.sparql_lexer.specs.Tokens.{QueryTokens};
ghost use Rattle.sparql_resolve.specs.Names.{most_names};
ghost use Rattle.sparql_resolve.specs.Resolving.{names_of, resolving};
ghost use Rattle.traverse_core.specs.Query.{selected_names};

/// A query of at most 65,536 bytes has fewer variables than may be numbered: each name takes two bytes or more, so that none is
/// left out.
pub fn a_query_has_fewer_names_than_the_limit()
    ensures { (bytes : List ℕ) (ts : List QueryToken) → QueryTokens bytes ts → length bytes ≤ 65536
        → length (names_of bytes ts) < most_names }
{}

/// The names and the blank nodes of such a query are together fewer than may be numbered, so that no number is refused: at most 32
/// brackets are open at once, so each blank node but these takes two bytes or more.
pub fn no_variable_is_left_without_a_number()
    ensures { (bytes : List ℕ) (ts : List QueryToken) → QueryTokens bytes ts → length bytes ≤ 65536
        → length (names_of bytes ts) + (resolving bytes ts).blanks < most_names }
{}

/// Each variable that a valid query selects has its name, so that the head of its results names them all.
pub fn each_selected_variable_has_its_name()
    ensures { (query : Query) → IsValid query
        → map (λ name. Some name) (selected_names query) ≡ map (λ number. slice_get query.names number) query.select }
{}
