ghost use Rattle.std.specs.Prelude.{◌≡◌, ◌<◌};
ghost use Rattle.terminals.specs.Class.{classified, ascii_class, wide_class};

/// What the rules for tokens can tell of a character.
///
/// Two characters are in one class where no rule of either language tells them apart.
#[derive(Clone, Copy, Debug, PartialEq, Eq)]
pub enum Class {
    /// `0` to `9`, with the value.
    Digit(u8),
    /// `A`, `B`, `C`, `D`, `F`, `a`, `c` or `d`, with the value as a hexadecimal digit.
    HexLetter(u8),
    /// `b` or `f`, which also name an escape, with the value as a hexadecimal digit.
    HexEscape(u8),
    /// `E` or `e`.
    E,
    /// `u`, of an escape by four digits.
    LowerU,
    /// `U`, of an escape by eight digits.
    UpperU,
    /// `n`, `r` or `t`, which also name an escape.
    Escape,
    /// Any other letter `A` to `Z` or `a` to `z`.
    Letter,
    Underscore,
    /// A letter beyond ASCII: `PN_CHARS_BASE` of the grammars.
    WideLetter,
    /// What may stand in a name, and not at its beginning, beyond ASCII.
    WideMid,
    Minus,
    Plus,
    Dot,
    Colon,
    Percent,
    Backslash,
    Quote,
    Apostrophe,
    Less,
    Greater,
    At,
    Hash,
    Caret,
    /// `[` or `]`.
    Square,
    /// `(`, `)`, `,` or `;`.
    Separator,
    /// `{` or `}`.
    Brace,
    /// `*` or `/`.
    Operator,
    Bang,
    Equals,
    Ampersand,
    Bar,
    Question,
    Dollar,
    Tilde,
    /// CR or LF.
    LineEnd,
    /// A space or a tab.
    Space,
    /// What no rule names, and an IRI may not have: a backquote or another control character.
    Excluded,
    /// What no rule names, and an IRI may have.
    Other,
    /// A byte at which no character begins.
    Ill,
}

/// The class of a code point.
pub fn class_of(code: u32) -> Class
    ensures { result ≡ classified code }
{
    if code < 128 { ascii(code) } else { wide(code) }
}

#[tactic(auto, unfolding(crate::specs::Class::ascii_class))]
fn ascii(code: u32) -> Class
    requires { code < 128 }
    ensures { result ≡ ascii_class code }
{
    let byte = code as u8;
    match byte {
        b'0'..=b'9' => Class::Digit(byte - b'0'),
        b'A'..=b'D' | b'F' => Class::HexLetter(byte - b'A' + 10),
        b'a' | b'c' | b'd' => Class::HexLetter(byte - b'a' + 10),
        b'b' | b'f' => Class::HexEscape(byte - b'a' + 10),
        b'E' | b'e' => Class::E,
        b'u' => Class::LowerU,
        b'U' => Class::UpperU,
        b'n' | b'r' | b't' => Class::Escape,
        b'A'..=b'Z' | b'a'..=b'z' => Class::Letter,
        b'_' => Class::Underscore,
        b'-' => Class::Minus,
        b'+' => Class::Plus,
        b'.' => Class::Dot,
        b':' => Class::Colon,
        b'%' => Class::Percent,
        b'\\' => Class::Backslash,
        b'"' => Class::Quote,
        b'\'' => Class::Apostrophe,
        b'<' => Class::Less,
        b'>' => Class::Greater,
        b'@' => Class::At,
        b'#' => Class::Hash,
        b'^' => Class::Caret,
        b'[' | b']' => Class::Square,
        b'(' | b')' | b',' | b';' => Class::Separator,
        b'{' | b'}' => Class::Brace,
        b'*' | b'/' => Class::Operator,
        b'!' => Class::Bang,
        b'=' => Class::Equals,
        b'&' => Class::Ampersand,
        b'|' => Class::Bar,
        b'?' => Class::Question,
        b'$' => Class::Dollar,
        b'~' => Class::Tilde,
        b'\r' | b'\n' => Class::LineEnd,
        b' ' | b'\t' => Class::Space,
        0..=31 | b'`' => Class::Excluded,
        _ => Class::Other,
    }
}

#[tactic(auto, unfolding(crate::specs::Class::wide_class))]
fn wide(code: u32) -> Class
    ensures { result ≡ wide_class code }
{
    match code {
        0xb7 | 0x300..=0x36f | 0x203f..=0x2040 => Class::WideMid,
        0xc0..=0xd6
        | 0xd8..=0xf6
        | 0xf8..=0x2ff
        | 0x370..=0x37d
        | 0x37f..=0x1fff
        | 0x200c..=0x200d
        | 0x2070..=0x218f
        | 0x2c00..=0x2fef
        | 0x3001..=0xd7ff
        | 0xf900..=0xfdcf
        | 0xfdf0..=0xfffd
        | 0x10000..=0xeffff => Class::WideLetter,
        _ => Class::Other,
    }
}
