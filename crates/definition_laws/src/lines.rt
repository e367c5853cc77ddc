//! Lines of N-Triples.
ghost use Rattle.std.specs.Prelude.{ℕ, List};
ghost use Rattle.turtle_lexer.specs.declared.token.Token.{Token};
ghost use Rattle.turtle_lexer.specs.Tokens.{NTriplesTokens};
ghost use Rattle.ntriples_reader.specs.Lines.{lines_of};
ghost use Rattle.definition_laws.specs.TextLines.{AreOnOneLine, AreCut, all_lines};

/// The lines that are told by the gaps between tokens are those of the text: the tokens of a statement stand on one line, with no
/// CR or LF between them or in them, and each line ends at a CR or LF, or where the text does.
pub fn tokens_stand_on_lines()
    ensures one { (bytes : List ℕ) (ts : List Token) → NTriplesTokens bytes ts → AreOnOneLine bytes (all_lines (lines_of bytes ts)) }
    ensures cut { (bytes : List ℕ) (ts : List Token) → NTriplesTokens bytes ts → AreCut bytes (all_lines (lines_of bytes ts)) }
{}
