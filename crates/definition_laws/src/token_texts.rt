//! Tokens and the texts that they stand for.
ghost use Rattle.std.specs.Prelude.{ℕ, List, slice_range};
ghost use Rattle.rdf_terms.specs.Lists.{IsIn};
ghost use Rattle.turtle_lexer.specs.declared.token.Token.{Token};
ghost use Rattle.turtle_lexer.specs.Tokens.{TurtleTokens, NTriplesTokens};
ghost use Rattle.sparql_lexer.specs.declared.token.QueryToken.{QueryToken};
ghost use Rattle.sparql_lexer.specs.Tokens.{QueryTokens};
ghost use Rattle.definition_laws.specs.TokenTexts.{HasTurtleText, HasQueryText};

/// Each token of a Turtle text has the text that its kind asks for, in UTF-8, so that none is refused for it.
pub fn each_token_of_turtle_has_a_text()
    ensures { (bytes : List ℕ) (ts : List Token) → TurtleTokens bytes ts → (t : Token) → IsIn ts t
        → HasTurtleText t.kind (slice_range bytes t.from t.to) }
{}

/// So has each token of an N-Triples text.
pub fn each_token_of_ntriples_has_a_text()
    ensures { (bytes : List ℕ) (ts : List Token) → NTriplesTokens bytes ts → (t : Token) → IsIn ts t
        → HasTurtleText t.kind (slice_range bytes t.from t.to) }
{}

/// And so has each token of a query.
pub fn each_token_of_a_query_has_a_text()
    ensures { (bytes : List ℕ) (ts : List QueryToken) → QueryTokens bytes ts → (t : QueryToken) → IsIn ts t
        → HasQueryText t.kind (slice_range bytes t.from t.to) }
{}
