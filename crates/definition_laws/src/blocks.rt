//! Basic graph patterns of queries.
ghost use Rattle.std.specs.Prelude.{List, true};
ghost use Rattle.grammar_model.specs.Parsers.{Done, Reads};
ghost use Rattle.sparql_resolve.specs.declared.fault.Fault.{Fault};
ghost use Rattle.sparql_resolve.specs.declared.kind.Token.{Token};
ghost use Rattle.sparql_parser.specs.Grammar.{QueryUnit, Request, body, sparql};
ghost use Rattle.definition_laws.specs.Blocks.{BlocksFit};

/// Where the grammar reads a query, a block of triples goes on with the triple patterns before it exactly if no brace stands
/// between it and the block before: so two labels of blank nodes have the same brace before them exactly where their
/// patterns lie in one basic graph pattern.
pub fn blocks_are_apart_where_a_brace_stands()
    ensures { (stop : Fault) (request : Request) (ts rest : List Token)
        → (r : Reads (sparql stop) QueryUnit (body QueryUnit) ts (Done request rest))
        → BlocksFit stop QueryUnit (body QueryUnit) ts (Done request rest) r true }
{}
