//! Laws of the definitions. Each function's contract is one law, and its body is empty.
ghost use Rattle.std.specs.Prelude.{◌≡◌, ℕ, List, Option, []};
ghost use Rattle.link_uri.specs.declared.link.Link.{Link};
ghost use Rattle.reachability.specs.declared.outcome.Outcome.{Outcome};
ghost use Rattle.reachability.specs.declared.record.Record.{Record};
ghost use Rattle.reachability.specs.Reach.{Text, Rule};
ghost use Rattle.reachability.specs.Record.{IsTraversed, IsFaithful, LooksUpReachable};

/// The closure law: a traversed, faithful record with nothing queued names exactly the reachable
/// links. Its `out` is any function that gives a link's outcome, or none.
pub fn looked_up_is_reachable()
    ensures { (out : Link → Option Outcome) (r : Record) (seeds : List Text) (rule : Rule) (limit : ℕ)
        → IsTraversed r seeds rule limit → r.queued ≡ [] → IsFaithful out r
        → LooksUpReachable out r seeds rule }
{}
