ghost use Rattle.std.specs.Prelude.{◌≡◌, ℕ, List, Result};
ghost use Rattle.rdf_terms.specs.declared.triple.Triple.{Triple};
ghost use Rattle.ntriples_reader.specs.Reading.{Reads, ntriples_reading};

/// A text is read in exactly one way: it has its triples, or the first place that doesn't fit.
pub fn one_reading()
    ensures present { (doc bytes : List ℕ) → Reads doc bytes (ntriples_reading doc bytes) }
    ensures only { (doc bytes : List ℕ) (a b : Result (List Triple) ℕ) → Reads doc bytes a → Reads doc bytes b → a ≡ b }
{}
