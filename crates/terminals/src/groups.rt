ghost use Rattle.std.specs.Prelude.{◌≡◌};
ghost use Rattle.terminals.specs.Groups as group;

use crate::class::Class;

/// The quote that begins and ends a string.
#[derive(Clone, Copy, Debug, PartialEq, Eq)]
pub enum Quote {
    Double,
    Single,
}

impl Class {
    /// The value as a hexadecimal digit.
    pub fn hex_value(self) -> Option<u8>
        ensures { result ≡ group.hex_value self }
    {
        match self {
            Class::Digit(v) | Class::HexLetter(v) | Class::HexEscape(v) => Some(v),
            Class::E => Some(14),
            _ => None,
        }
    }

    pub fn is_hex(self) -> bool
        ensures { result ≡ group.is_hex self }
    {
        matches!(
            self,
            Class::Digit(_) | Class::HexLetter(_) | Class::HexEscape(_) | Class::E
        )
    }

    pub fn is_digit(self) -> bool
        ensures { result ≡ group.is_digit self }
    {
        matches!(self, Class::Digit(_))
    }

    /// `A` to `Z` or `a` to `z`.
    pub fn is_letter(self) -> bool
        ensures { result ≡ group.is_letter self }
    {
        matches!(
            self,
            Class::HexLetter(_)
                | Class::HexEscape(_)
                | Class::E
                | Class::LowerU
                | Class::UpperU
                | Class::Escape
                | Class::Letter
        )
    }

    pub fn is_letter_or_digit(self) -> bool
        ensures { result ≡ group.is_letter_or_digit self }
    {
        self.is_letter() || self.is_digit()
    }

    /// What a Word goes on with.
    pub fn is_word(self) -> bool
        ensures { result ≡ group.is_word self }
    {
        match self {
            Class::Underscore => true,
            _ => self.is_letter_or_digit(),
        }
    }

    /// `PN_CHARS_BASE`.
    pub fn is_base(self) -> bool
        ensures { result ≡ group.is_base self }
    {
        match self {
            Class::WideLetter => true,
            _ => self.is_letter(),
        }
    }

    /// `PN_CHARS`.
    pub fn is_name(self) -> bool
        ensures { result ≡ group.is_name self }
    {
        match self {
            Class::Underscore | Class::Minus | Class::Digit(_) | Class::WideMid => true,
            _ => self.is_base(),
        }
    }

    /// The first character of a blank node's label.
    pub fn is_label_first(self) -> bool
        ensures { result ≡ group.is_label_first self }
    {
        match self {
            Class::Underscore | Class::Digit(_) => true,
            _ => self.is_base(),
        }
    }

    /// The first character of a local name, where it is no escape.
    pub fn is_local_first(self) -> bool
        ensures { result ≡ group.is_local_first self }
    {
        match self {
            Class::Colon => true,
            _ => self.is_label_first(),
        }
    }

    /// A later character of a local name, where it is neither an escape nor a dot.
    pub fn is_local(self) -> bool
        ensures { result ≡ group.is_local self }
    {
        match self {
            Class::Colon => true,
            _ => self.is_name(),
        }
    }

    /// What a backslash may stand before in a local name.
    pub fn is_local_escape(self) -> bool
        ensures { result ≡ group.is_local_escape self }
    {
        matches!(
            self,
            Class::Underscore
                | Class::Tilde
                | Class::Dot
                | Class::Minus
                | Class::Bang
                | Class::Dollar
                | Class::Ampersand
                | Class::Apostrophe
                | Class::Separator
                | Class::Operator
                | Class::Plus
                | Class::Equals
                | Class::Question
                | Class::Hash
                | Class::At
                | Class::Percent
        )
    }

    /// What stands for itself in an IRIREF.
    pub fn is_iri(self) -> bool
        ensures { result ≡ group.is_iri self }
    {
        match self {
            Class::Backslash
            | Class::Quote
            | Class::Less
            | Class::Greater
            | Class::Brace
            | Class::Bar
            | Class::Caret
            | Class::LineEnd
            | Class::Space
            | Class::Excluded
            | Class::Ill => false,
            _ => true,
        }
    }

    pub fn is_quote(self, quote: Quote) -> bool
        ensures { result ≡ group.is_quote quote self }
    {
        match quote {
            Quote::Double => matches!(self, Class::Quote),
            Quote::Single => matches!(self, Class::Apostrophe),
        }
    }

    /// What stands for itself in a long string in these quotes.
    pub fn is_text(self, quote: Quote) -> bool
        ensures { result ≡ group.is_text quote self }
    {
        match self {
            Class::Backslash | Class::Ill => false,
            _ => !self.is_quote(quote),
        }
    }

    /// What stands for itself in a string of one line in these quotes.
    pub fn is_line_text(self, quote: Quote) -> bool
        ensures { result ≡ group.is_line_text quote self }
    {
        match self {
            Class::LineEnd => false,
            _ => self.is_text(quote),
        }
    }

    /// What a backslash may stand before in a string, beside `u` and `U`.
    pub fn is_string_escape(self) -> bool
        ensures { result ≡ group.is_string_escape self }
    {
        matches!(
            self,
            Class::HexEscape(_)
                | Class::Escape
                | Class::Quote
                | Class::Apostrophe
                | Class::Backslash
        )
    }

    pub fn is_sign(self) -> bool
        ensures { result ≡ group.is_sign self }
    {
        matches!(self, Class::Plus | Class::Minus)
    }

    pub fn is_white(self) -> bool
        ensures { result ≡ group.is_white self }
    {
        matches!(self, Class::LineEnd | Class::Space)
    }

    pub fn is_line_end(self) -> bool
        ensures { result ≡ group.is_line_end self }
    {
        matches!(self, Class::LineEnd)
    }

    pub fn is_hash(self) -> bool
        ensures { result ≡ group.is_hash self }
    {
        matches!(self, Class::Hash)
    }

    pub fn is_ill(self) -> bool
        ensures { result ≡ group.is_ill self }
    {
        matches!(self, Class::Ill)
    }
}
