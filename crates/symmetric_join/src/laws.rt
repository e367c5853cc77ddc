ghost use Rattle.std.specs.Prelude.{ℕ, ◌≡◌, ◌++◌, List, []};
ghost use Rattle.std.specs.List.Sorted.{IsPermutation};
ghost use Rattle.symmetric_join.specs.declared.fed.Fed.TheVariants.{Left, Right};
ghost use Rattle.symmetric_join.specs.Feeds.{Feed, fed_to, given_by, after};
ghost use Rattle.symmetric_join.specs.Joins.{join};
ghost use Rattle.symmetric_join.specs.Sides.{Sides, output};

/// Whatever the order in which rows come to the two sides: what all feeds of a new node gave together
/// is, as a bag, the join of the rows fed to the left with those fed to the right; and from any node
/// on, what its join gains.
///
/// A law: it does nothing. What one feed gives is said by the calls, clause `order`.
pub fn feeds_add_up()
    ensures all { (width : ℕ) (feeds : List Feed) → IsPermutation (given_by feeds (record { width = width; lefts = []; rights = [] })) (join (fed_to Left feeds) (fed_to Right feeds)) }
    ensures gain { (feeds : List Feed) (sides : Sides) → IsPermutation (output (after feeds sides)) (output sides ++ given_by feeds sides) }
{}
