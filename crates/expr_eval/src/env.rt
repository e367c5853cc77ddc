ghost use Rattle.std.specs.Prelude.{◌≡◌};
ghost use Rattle.std.specs.Option.{option_copied};

use rdf_terms::Term;

/// Bindings of variables, as the row that a filter looks at.
pub trait Env {
    ghost use Rattle.std.specs.Prelude.{ℕ};
    ghost use Rattle.std.specs.declared.option.Option.{Option};
    ghost use Rattle.rdf_terms.specs.declared.term.Term.{Term};

    /// The term of each variable that is bound: a map from variables, of which there are 65,536.
    ghost bindings: { Self → ℕ → Option Term };

    /// The term that the variable is bound to. No memory is taken.
    fn get(&self, var: u16) -> Option<&Term>
        ensures { option_copied result ≡ bindings self.now var };
}
