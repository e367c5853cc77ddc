ghost use Rattle.std.specs.Prelude.{◌≡◌, ℕ, List};
ghost use Rattle.turtle_lexer.specs.declared.token.Token.{Token};
ghost use Rattle.turtle_lexer.specs.Tokens.{TurtleTokens, NTriplesTokens};

/// A text has exactly one token list of Turtle.
pub fn one_token_list()
    ensures present { (bytes : List ℕ) → (tokens : List Token) × TurtleTokens bytes tokens }
    ensures only { (bytes : List ℕ) (a b : List Token) → TurtleTokens bytes a → TurtleTokens bytes b → a ≡ b }
{}

/// A text has exactly one token list of N-Triples.
pub fn one_ntriples_token_list()
    ensures present { (bytes : List ℕ) → (tokens : List Token) × NTriplesTokens bytes tokens }
    ensures only { (bytes : List ℕ) (a b : List Token) → NTriplesTokens bytes a → NTriplesTokens bytes b → a ≡ b }
{}
