//! Number words: one or more ASCII digits, of any length, whose value is in a range.
ghost use Rattle.std.specs.Prelude.{◌≡◌, ◌≤◌, ◌<◌, IfSome, true};
ghost use Rattle.std.specs.List.{list_all};
ghost use Rattle.std.specs.Str.Parse.{digits_value};
ghost use Rattle.site_core.specs.Capped.{capped_number};
ghost use Rattle.site_core.specs.Fields.{is_digit as is_digit_byte};
ghost use Rattle.command_words.specs.Values as spec;

fn is_digit(byte: u8) -> bool
    ensures { result ≡ is_digit_byte byte }
{
    b'0' <= byte && byte <= b'9'
}

fn all_digits(bytes: &[u8]) -> bool
    ensures { result ≡ list_all is_digit_byte bytes.now }
{
    bytes.iter().all(|byte| is_digit(*byte))
}

fn is_number(digits: &[u8]) -> bool
    ensures { result ≡ spec.is_number digits.now }
{
    !digits.is_empty() && all_digits(digits)
}

// One that is too large for the type counts as the greatest of it.
fn value_of(digits: &[u8]) -> u64
    requires { list_all is_digit_byte digits.now ≡ true }
    ensures { result ≡ capped_number (digits_value 10 digits.now) }
{
    let mut value: u64 = 0;
    for digit in digits {
        value = value
            .saturating_mul(10)
            .saturating_add((*digit - b'0') as u64);
    }
    value
}

fn in_range(value: u64, least: u64, most: u64) -> Option<u64>
    ensures value { result ≡ spec.in_range least most value }
    ensures range { IfSome result (λ n. (least ≤ n) × (n ≤ most)) }
{
    if least <= value && value <= most {
        Some(value)
    } else {
        None
    }
}

/// The number that a word writes, where it writes one of the range. No memory is taken.
pub(crate) fn number_in(text: &str, least: u64, most: u64) -> Option<u64>
    requires { most < 18446744073709551615 }
    ensures value { result ≡ spec.number_in least most text.now }
    ensures range { IfSome result (λ n. (least ≤ n) × (n ≤ most)) }
{
    if is_number(text.as_bytes()) {
        in_range(value_of(text.as_bytes()), least, most)
    } else {
        None
    }
}
