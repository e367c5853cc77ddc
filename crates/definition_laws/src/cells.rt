//! Cells of lists of Turtle.
ghost use Rattle.std.specs.Prelude.{◌≡◌, ◌++◌, ℕ, List, [], false};
ghost use Rattle.rdf_terms.specs.declared.triple.Triple.{Triple};
ghost use Rattle.grammar_model.specs.Parsers.{Done, Reads};
ghost use Rattle.turtle_lexer.specs.declared.token.Token.{Token as Lexed};
ghost use Rattle.turtle_reader.specs.declared.token_fault.Fault.{Fault};
ghost use Rattle.turtle_reader.specs.declared.kind.Token.{Token};
ghost use Rattle.turtle_reader.specs.Grammar.{TurtleDoc, body, turtle};
ghost use Rattle.turtle_reader.specs.Resolving.{begin, resolving};
ghost use Rattle.definition_laws.specs.Cells.{cells_from, cells_resolved, items_begun};

/// In the tokens that the grammar of Turtle reads as a document, an item of a list begins exactly at those that can begin an object,
/// stand directly in a list by the brackets before them, and are no literal's datatype. Those are the tokens for which the resolver
/// counts a cell: so the cells that are numbered are those that the production of lists consumes.
pub fn cells_begin_where_items_do()
    ensures items { (doc : List ℕ) (stop : Fault) (before triples : List Triple) (ts rest : List Token)
        → (r : Reads (turtle doc stop) (TurtleDoc before) (body doc (TurtleDoc before)) ts (Done triples rest))
        → (read : List Token) × (ts ≡ read ++ rest)
        × (cells_from [] false read ≡ items_begun doc stop (TurtleDoc before) (body doc (TurtleDoc before)) ts (Done triples rest) r) }
    ensures cells { (base bytes : List ℕ) (ts : List Lexed)
        → cells_resolved bytes (begin base) ts ≡ cells_from [] false (resolving base bytes ts).tokens }
{}
