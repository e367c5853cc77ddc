ghost use Rattle.std.specs.Prelude.{◌≡◌, ℕ, List};
ghost use Rattle.sparql_lexer.specs.declared.token.QueryToken.{QueryToken};
ghost use Rattle.sparql_lexer.specs.Tokens.{QueryTokens};

/// A text has exactly one token list.
pub fn one_token_list()
    ensures present { (bytes : List ℕ) → (tokens : List QueryToken) × QueryTokens bytes tokens }
    ensures only { (bytes : List ℕ) (a b : List QueryToken) → QueryTokens bytes a → QueryTokens bytes b → a ≡ b }
{}
