//! What the definitions say by themselves.

ghost use Rattle.std.specs.Prelude.{◌≡◌, ℕ, List, Result};
ghost use Rattle.algebra_core.specs.declared.query.Query.{Query};
ghost use Rattle.sparql_parser.specs.declared.fault.QueryFault.{QueryFault};
ghost use Rattle.sparql_parser.specs.Answer.{IsAnswer};

/// Each text has exactly one answer.
pub fn one_answer()
    ensures present { (bytes : List ℕ) → (a : Result Query QueryFault) × IsAnswer bytes a }
    ensures only { (bytes : List ℕ) (a b : Result Query QueryFault) → IsAnswer bytes a → IsAnswer bytes b → a ≡ b }
{}
