//! Laws of the definitions. Each function's contract is one law, and its body is empty.
ghost use Rattle.std.specs.Prelude.{◌≡◌, Option};
ghost use Rattle.std.specs.Cmp.{IsTotalOrder};
ghost use Rattle.std.specs.declared.cmp.Ordering.TheVariants.{Equal};
ghost use Rattle.rdf_terms.specs.declared.term.Term.{Term};
ghost use Rattle.expr_eval.specs.Order.{term_order};

/// The order of terms is total, and only equal terms tie in it.
pub fn the_order_is_total()
    ensures total { IsTotalOrder term_order }
    ensures ties { (a b : Option Term) → term_order a b ≡ Equal → a ≡ b }
{}
