//! Laws of the definitions. Each function's contract is one law, and its body is empty.
ghost use Rattle.std.specs.Prelude.{◌≡◌};
ghost use Rattle.link_uri.specs.declared.link.Link.{Link};
ghost use Rattle.link_uri.specs.Links.{IsLink};

/// The text of a link decides all of its parts.
#[tactic(auto, using(crate::proofs::LinkLemmas::equal_by_text))]
pub fn links_of_equal_text_are_equal()
    ensures { (a b : Link) → IsLink a → IsLink b → a.text ≡ b.text → a ≡ b }
{}
