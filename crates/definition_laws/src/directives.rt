//! Directives of Turtle.
ghost use Rattle.std.specs.Prelude.{◌≡◌, ◌++◌, ℕ, List};
ghost use Rattle.rdf_terms.specs.declared.triple.Triple.{Triple};
ghost use Rattle.grammar_model.specs.Parsers.{Done, Reads};
ghost use Rattle.turtle_reader.specs.declared.token_fault.Fault.{Fault};
ghost use Rattle.turtle_reader.specs.declared.kind.Token.{Token};
ghost use Rattle.turtle_reader.specs.Grammar.{TurtleDoc, body, turtle};
ghost use Rattle.definition_laws.specs.Directives.{DirectivesFit};

/// In the tokens that the grammar of Turtle reads as a document, what a directive names stands just behind its word: so the IRIREF
/// that the resolver takes as a new base, or as a prefix's IRI, by the word before it, is the one that the directive's production
/// consumes.
pub fn what_a_directive_names_stands_behind_its_word()
    ensures { (doc : List ℕ) (stop : Fault) (before triples : List Triple) (ts rest : List Token)
        → Reads (turtle doc stop) (TurtleDoc before) (body doc (TurtleDoc before)) ts (Done triples rest)
        → (read : List Token) × (ts ≡ read ++ rest) × DirectivesFit read }
{}
