ghost use Rattle.std.specs.Prelude.{◌≡◌, ◌<◌, IfSome};
ghost use Rattle.http_message.specs.Chunks.{hex_value};
ghost use Rattle.http_message.specs.LineStates as spec;

/// Where the reading of a chunk's line stands, with the size that its digits give.
#[derive(Clone, Copy)]
pub enum ChunkLine {
    /// No byte has come.
    Front,
    /// In the digits.
    Digits(u64),
    /// In spaces and tabs after the digits.
    Blanks(u64),
    /// In an extension.
    Extension(u64),
    /// After the CR.
    Cr(u64),
    /// The line is no chunk line, whatever follows.
    Bad,
}

// The value of a hexadecimal digit.
fn hex_digit(b: u8) -> Option<u8>
    ensures value { result ≡ hex_value b }
    ensures small { IfSome result (λ d. d < 16) }
{
    match b {
        b'0'..=b'9' => Some(b - b'0'),
        b'a'..=b'f' => Some(b - 87),
        b'A'..=b'F' => Some(b - 55),
        _ => None,
    }
}

fn after_size(size: u64, b: u8) -> ChunkLine
    ensures { result ≡ spec.after_size size b }
{
    if b == b' ' || b == b'\t' {
        ChunkLine::Blanks(size)
    } else if b == b';' {
        ChunkLine::Extension(size)
    } else if b == b'\r' {
        ChunkLine::Cr(size)
    } else {
        ChunkLine::Bad
    }
}

// The digits with one more, where their value fits.
fn with_digit(size: u64, digit: u8) -> ChunkLine
    requires { digit < 16 }
    ensures { result ≡ spec.with_digit size digit }
{
    match size.checked_mul(16) {
        None => ChunkLine::Bad,
        Some(product) => match product.checked_add(u64::from(digit)) {
            None => ChunkLine::Bad,
            Some(size) => ChunkLine::Digits(size),
        },
    }
}

fn after_digits(size: u64, b: u8) -> ChunkLine
    ensures { result ≡ spec.after_digits size b }
{
    match hex_digit(b) {
        Some(digit) => with_digit(size, digit),
        None => after_size(size, b),
    }
}

/// The state after a byte other than LF.
pub fn next_in_line(line: ChunkLine, b: u8) -> ChunkLine
    ensures { result ≡ spec.next_in_line line b }
{
    match line {
        ChunkLine::Front => match hex_digit(b) {
            Some(digit) => ChunkLine::Digits(u64::from(digit)),
            None => ChunkLine::Bad,
        },
        ChunkLine::Digits(size) => after_digits(size, b),
        ChunkLine::Blanks(size) => after_size(size, b),
        ChunkLine::Extension(size) => {
            if b == b'\r' {
                ChunkLine::Cr(size)
            } else {
                ChunkLine::Extension(size)
            }
        }
        ChunkLine::Cr(_) | ChunkLine::Bad => ChunkLine::Bad,
    }
}

/// The size that the line gives where its LF comes next.
pub fn size_at_end(line: ChunkLine) -> Option<u64>
    ensures { result ≡ spec.size_at_end line }
{
    match line {
        ChunkLine::Cr(size) => Some(size),
        _ => None,
    }
}
