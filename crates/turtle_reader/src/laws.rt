ghost use Rattle.std.specs.Prelude.{◌≡◌, ℕ, List, Result};
ghost use Rattle.rdf_terms.specs.declared.triple.Triple.{Triple};
ghost use Rattle.turtle_reader.specs.declared.token_fault.Fault.{Fault};
ghost use Rattle.turtle_reader.specs.Reading.{IsTurtle, turtle_reading};

/// A text has exactly one answer: its triples, or its fault with its place.
pub fn one_answer()
    ensures present { (doc base bytes : List ℕ) → IsTurtle doc base bytes (turtle_reading doc base bytes) }
    ensures only { (doc base bytes : List ℕ) (a b : Result (List Triple) Fault) → IsTurtle doc base bytes a → IsTurtle doc base bytes b → a ≡ b }
{}
