//! What the words ask for.
ghost use Rattle.std.specs.Prelude.{◌≡◌, ◌≤◌, ◌<◌, IfSome, true, map};
ghost use Rattle.std.specs.List.{list_all};
ghost use Rattle.std.specs.Str.Parse.{digits_value};
ghost use Rattle.std.specs.String.{string_bytes};
ghost use Rattle.site_core.specs.Capped.{capped_number};
ghost use Rattle.site_core.specs.Fields.{is_digit as is_digit_byte};
ghost use Rattle.doc_server.specs.Words as spec;

fn is_digit(byte: u8) -> bool
    ensures { result ≡ is_digit_byte byte }
{
    b'0' <= byte && byte <= b'9'
}

fn all_digits(bytes: &[u8]) -> bool
    ensures { result ≡ list_all is_digit_byte bytes.now }
{
    bytes.iter().all(|byte| is_digit(*byte))
}

fn is_number(digits: &[u8]) -> bool
    ensures { result ≡ spec.is_number digits.now }
{
    !digits.is_empty() && all_digits(digits)
}

// One that is too large for the type counts as the greatest of it.
fn value_of(digits: &[u8]) -> u64
    requires { list_all is_digit_byte digits.now ≡ true }
    ensures { result ≡ capped_number (digits_value 10 digits.now) }
{
    let mut value: u64 = 0;
    for digit in digits {
        value = value
            .saturating_mul(10)
            .saturating_add((*digit - b'0') as u64);
    }
    value
}

// The number that a word writes, where it writes one from 1 on that is no greater than this.
fn number_to(text: &str, most: u64) -> Option<u64>
    requires { most < 18446744073709551615 }
    ensures value { result ≡ spec.number_in 1 most text.now }
    ensures range { IfSome result (λ n. n ≤ most) }
{
    let digits = text.as_bytes();
    if !is_number(digits) {
        return None;
    }
    let value = value_of(digits);
    if 1 <= value && value <= most {
        Some(value)
    } else {
        None
    }
}

/// The port that the first of the words names, if it names one. No memory is taken.
pub fn asked_port(words: &[String]) -> Option<u16>
    ensures { result ≡ spec.port_of (map string_bytes words.now) }
{
    match words {
        [] => None,
        [port, ..] => match number_to(port.as_str(), 65_535) {
            Some(port) => Some(port as u16),
            None => None,
        },
    }
}

/// The number of connections, where the words are a port and such a number. No memory is taken.
pub fn asked_count(words: &[String]) -> Option<u64>
    ensures { result ≡ spec.count_of (map string_bytes words.now) }
{
    match words {
        [port, count] => match number_to(port.as_str(), 65_535) {
            Some(_) => number_to(count.as_str(), 1_000_000),
            None => None,
        },
        _ => None,
    }
}
