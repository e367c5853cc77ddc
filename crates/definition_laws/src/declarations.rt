//! Declarations of queries.
ghost use Rattle.std.specs.Prelude.{◌≡◌, ◌++◌, List};
ghost use Rattle.grammar_model.specs.Parsers.{Done, Reads};
ghost use Rattle.sparql_resolve.specs.declared.fault.Fault.{Fault};
ghost use Rattle.sparql_resolve.specs.declared.kind.Token.{Token};
ghost use Rattle.sparql_parser.specs.Grammar.{QueryUnit, Request, body, sparql};
ghost use Rattle.definition_laws.specs.Declarations.{DeclarationsFit};

/// In the tokens that the grammar of queries reads as a query, what a declaration names stands just behind its word: so the IRIREF
/// that is taken as the base, or as a prefix's IRI, by the word before it, is the one that the declaration's production consumes.
pub fn what_a_declaration_names_stands_behind_its_word()
    ensures { (stop : Fault) (request : Request) (ts rest : List Token)
        → Reads (sparql stop) QueryUnit (body QueryUnit) ts (Done request rest)
        → (read : List Token) × (ts ≡ read ++ rest) × DeclarationsFit read }
{}
