//! Numbers and their texts.
ghost use Rattle.std.specs.Prelude.{◌≡◌, ◌*◌, ◌^◌, ℕ, None, Some, true, false, unsigned_abs};
ghost use Rattle.value_core.specs.declared.numbers.Number.{Number};
ghost use Rattle.value_core.specs.Numbers.{fits, integer_number, decimal_number};
ghost use Rattle.expr_eval.specs.Written.{number_text};

/// The text that is written for a computed number is read back as that number: an integer's by xsd:integer, any other by xsd:decimal
/// (XML Schema Part 2: Datatypes, sections 3.2.3.2 and 3.3.13.2).
pub fn a_written_number_reads_back()
    ensures integer { (n : Number) (units : ℕ) → n.whole ≡ true → fits n.scaled ≡ true → unsigned_abs n.scaled ≡ units * 10 ^ 18
        → integer_number None None (number_text n) ≡ Some n }
    ensures decimal { (n : Number) → n.whole ≡ false → fits n.scaled ≡ true → decimal_number (number_text n) ≡ Some n }
{}
