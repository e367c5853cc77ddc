//! The automaton of all kinds of tokens at once.

ghost use Rattle.std.specs.Prelude.{◌≡◌};
ghost use Rattle.terminals.specs.Groups as group;
ghost use Rattle.turtle_lexer.specs.State as spec;

use crate::dialect::Dialect;
use crate::kind::TurtleKind;
use terminals::{Class, Quote, is_iri_code, is_scalar, with_digit};

/// What has been read of a token. Inside an escape by number: how many digits are wanted behind
/// the next one, and the number so far.
#[derive(Clone, Copy)]
pub enum State {
    Start,
    // A dot, which is a mark, and may become a number.
    FirstDot,
    MarkDone,
    FirstCaret,
    Sign,
    // A sign and a dot.
    Point,
    Digits,
    DigitsPoint,
    Fraction,
    Exponent,
    ExponentSign,
    ExponentDigits,
    // A word, which may become a prefix.
    Word,
    // A prefix that is no word.
    Prefix,
    PrefixDot,
    // The colon behind a prefix.
    Colon,
    FirstPercent,
    FirstHex,
    FirstSlash,
    // A local name of one character at least.
    Local,
    LocalDot,
    LocalPercent,
    LocalHex,
    LocalSlash,
    Underscore,
    LabelColon,
    Label,
    LabelDot,
    At,
    Tag,
    TagMinus,
    TagPart,
    Iri,
    IriSlash,
    IriNumber(u8, u32),
    IriDone,
    FirstQuote(Quote),
    // Two quotes: an empty string, which may become a long one.
    SecondQuote(Quote),
    Line(Quote),
    LineSlash(Quote),
    LineNumber(Quote, u8, u32),
    Long(Quote),
    // One or two quotes inside a long string, which the third ends.
    LongOne(Quote),
    LongTwo(Quote),
    LongSlash(Quote),
    LongNumber(Quote, u8, u32),
    QuotedDone,
}

/// What a first character begins.
#[tactic(auto, unfolding(crate::specs::State::begin))]
fn begin(x: Class) -> Option<State>
    ensures { result ≡ spec.begin x }
{
    match x {
        Class::Digit(_) => Some(State::Digits),
        Class::Plus | Class::Minus => Some(State::Sign),
        Class::Dot => Some(State::FirstDot),
        Class::Square | Class::Separator => Some(State::MarkDone),
        Class::Caret => Some(State::FirstCaret),
        Class::Colon => Some(State::Colon),
        Class::Underscore => Some(State::Underscore),
        Class::At => Some(State::At),
        Class::Less => Some(State::Iri),
        Class::Quote => Some(State::FirstQuote(Quote::Double)),
        Class::Apostrophe => Some(State::FirstQuote(Quote::Single)),
        Class::WideLetter => Some(State::Prefix),
        _ => x.is_letter().then_some(State::Word),
    }
}

#[tactic(auto, unfolding(crate::specs::State::caret_step))]
fn caret(x: Class) -> Option<State>
    ensures { result ≡ spec.caret_step x }
{
    match x {
        Class::Caret => Some(State::MarkDone),
        _ => None,
    }
}

#[tactic(auto, unfolding(crate::specs::State::number_step))]
fn number(state: State, x: Class) -> Option<State>
    ensures { result ≡ spec.number_step state x }
{
    match (state, x) {
        (State::Sign, Class::Dot) => Some(State::Point),
        (State::Digits, Class::Dot) => Some(State::DigitsPoint),
        (State::Digits | State::DigitsPoint | State::Fraction, Class::E) => Some(State::Exponent),
        (State::Exponent, Class::Plus | Class::Minus) => Some(State::ExponentSign),
        (State::Sign | State::Digits, _) => x.is_digit().then_some(State::Digits),
        (State::Exponent | State::ExponentSign | State::ExponentDigits, _) => {
            x.is_digit().then_some(State::ExponentDigits)
        }
        _ => x.is_digit().then_some(State::Fraction),
    }
}

#[tactic(auto, unfolding(crate::specs::State::word_step))]
fn word(x: Class) -> Option<State>
    ensures { result ≡ spec.word_step x }
{
    match x {
        Class::Colon => Some(State::Colon),
        Class::Dot => Some(State::PrefixDot),
        Class::Minus | Class::WideMid | Class::WideLetter => Some(State::Prefix),
        _ => x.is_word().then_some(State::Word),
    }
}

#[tactic(auto, unfolding(crate::specs::State::prefix_step))]
fn prefix(x: Class) -> Option<State>
    ensures { result ≡ spec.prefix_step x }
{
    match x {
        Class::Colon => Some(State::Colon),
        _ => prefix_dot(x),
    }
}

#[tactic(auto, unfolding(crate::specs::State::prefix_dot_step))]
fn prefix_dot(x: Class) -> Option<State>
    ensures { result ≡ spec.prefix_dot_step x }
{
    match x {
        Class::Dot => Some(State::PrefixDot),
        _ => x.is_name().then_some(State::Prefix),
    }
}

#[tactic(auto, unfolding(crate::specs::State::first_local_step))]
fn first_local(x: Class) -> Option<State>
    ensures { result ≡ spec.first_local_step x }
{
    match x {
        Class::Percent => Some(State::FirstPercent),
        Class::Backslash => Some(State::FirstSlash),
        _ => x.is_local_first().then_some(State::Local),
    }
}

#[tactic(auto, unfolding(crate::specs::State::local_step))]
fn local(x: Class) -> Option<State>
    ensures { result ≡ spec.local_step x }
{
    match x {
        Class::Dot => Some(State::LocalDot),
        Class::Percent => Some(State::LocalPercent),
        Class::Backslash => Some(State::LocalSlash),
        _ => x.is_local().then_some(State::Local),
    }
}

#[tactic(auto, unfolding(crate::specs::State::label_step))]
fn label(state: State, x: Class) -> Option<State>
    ensures { result ≡ spec.label_step state x }
{
    match (state, x) {
        (State::Underscore, Class::Colon) => Some(State::LabelColon),
        (State::Underscore, _) => None,
        (State::LabelColon, _) => x.is_label_first().then_some(State::Label),
        (_, Class::Dot) => Some(State::LabelDot),
        _ => x.is_name().then_some(State::Label),
    }
}

#[tactic(auto, unfolding(crate::specs::State::tag_step))]
fn tag(state: State, x: Class) -> Option<State>
    ensures { result ≡ spec.tag_step state x }
{
    match (state, x) {
        (State::Tag | State::TagPart, Class::Minus) => Some(State::TagMinus),
        (State::At | State::Tag, _) => x.is_letter().then_some(State::Tag),
        _ => x.is_letter_or_digit().then_some(State::TagPart),
    }
}

#[tactic(auto, unfolding(crate::specs::State::iri_step))]
fn iri(x: Class) -> Option<State>
    ensures { result ≡ spec.iri_step x }
{
    match x {
        Class::Greater => Some(State::IriDone),
        Class::Backslash => Some(State::IriSlash),
        _ => x.is_iri().then_some(State::Iri),
    }
}

#[tactic(auto, unfolding(crate::specs::State::line_step))]
fn line(quote: Quote, x: Class) -> Option<State>
    ensures { result ≡ spec.line_step quote x }
{
    if x.is_quote(quote) {
        return Some(State::QuotedDone);
    }
    match x {
        Class::Backslash => Some(State::LineSlash(quote)),
        _ => x.is_line_text(quote).then_some(State::Line(quote)),
    }
}

// Behind a quote stands one of a long string, or what makes the quotes before it its text.
#[tactic(auto, unfolding(crate::specs::State::long_step))]
fn long(quoted: State, quote: Quote, x: Class) -> Option<State>
    ensures { result ≡ spec.long_step quoted quote x }
{
    if x.is_quote(quote) {
        return Some(quoted);
    }
    match x {
        Class::Backslash => Some(State::LongSlash(quote)),
        _ => x.is_text(quote).then_some(State::Long(quote)),
    }
}

// Behind the backslash of an escape.
#[tactic(auto, unfolding(crate::specs::State::slash_step))]
fn slash(state: State, x: Class) -> Option<State>
    ensures { result ≡ spec.slash_step state x }
{
    match (state, x) {
        (State::FirstSlash | State::LocalSlash, _) => x.is_local_escape().then_some(State::Local),
        (State::IriSlash, Class::LowerU) => Some(State::IriNumber(3, 0)),
        (State::IriSlash, Class::UpperU) => Some(State::IriNumber(7, 0)),
        (State::LineSlash(quote), Class::LowerU) => Some(State::LineNumber(quote, 3, 0)),
        (State::LineSlash(quote), Class::UpperU) => Some(State::LineNumber(quote, 7, 0)),
        (State::LineSlash(quote), _) => x.is_string_escape().then_some(State::Line(quote)),
        (State::LongSlash(quote), Class::LowerU) => Some(State::LongNumber(quote, 3, 0)),
        (State::LongSlash(quote), Class::UpperU) => Some(State::LongNumber(quote, 7, 0)),
        (State::LongSlash(quote), _) => x.is_string_escape().then_some(State::Long(quote)),
        _ => None,
    }
}

// One more digit of an escape by number.
#[tactic(auto, unfolding(crate::specs::State::escape_step))]
fn escape(state: State, x: Class) -> Option<State>
    ensures { result ≡ spec.escape_step state (group.hex_value x) }
{
    let digit = x.hex_value()?;
    match state {
        State::IriNumber(0, n) => is_iri_code(with_digit(n, digit)).then_some(State::Iri),
        State::IriNumber(left, n) => Some(State::IriNumber(left - 1, with_digit(n, digit))),
        State::LineNumber(quote, 0, n) => {
            is_scalar(with_digit(n, digit)).then_some(State::Line(quote))
        }
        State::LineNumber(quote, left, n) => {
            Some(State::LineNumber(quote, left - 1, with_digit(n, digit)))
        }
        State::LongNumber(quote, 0, n) => {
            is_scalar(with_digit(n, digit)).then_some(State::Long(quote))
        }
        State::LongNumber(quote, left, n) => {
            Some(State::LongNumber(quote, left - 1, with_digit(n, digit)))
        }
        _ => None,
    }
}

fn step(state: State, x: Class) -> Option<State>
    ensures { result ≡ spec.stepped state x }
{
    match state {
        State::Start => begin(x),
        State::FirstCaret => caret(x),
        State::FirstDot
        | State::Sign
        | State::Point
        | State::Digits
        | State::DigitsPoint
        | State::Fraction
        | State::Exponent
        | State::ExponentSign
        | State::ExponentDigits => number(state, x),
        State::Word => word(x),
        State::Prefix => prefix(x),
        State::PrefixDot => prefix_dot(x),
        State::Colon => first_local(x),
        State::Local | State::LocalDot => local(x),
        State::FirstPercent => x.is_hex().then_some(State::FirstHex),
        State::LocalPercent => x.is_hex().then_some(State::LocalHex),
        State::FirstHex | State::LocalHex => x.is_hex().then_some(State::Local),
        State::Underscore | State::LabelColon | State::Label | State::LabelDot => label(state, x),
        State::At | State::Tag | State::TagMinus | State::TagPart => tag(state, x),
        State::Iri => iri(x),
        State::FirstSlash
        | State::LocalSlash
        | State::IriSlash
        | State::LineSlash(_)
        | State::LongSlash(_) => slash(state, x),
        State::IriNumber(_, _) | State::LineNumber(_, _, _) | State::LongNumber(_, _, _) => {
            escape(state, x)
        }
        State::FirstQuote(quote) => {
            if x.is_quote(quote) {
                Some(State::SecondQuote(quote))
            } else {
                line(quote, x)
            }
        }
        State::SecondQuote(quote) => x.is_quote(quote).then_some(State::Long(quote)),
        State::Line(quote) => line(quote, x),
        State::Long(quote) => long(State::LongOne(quote), quote, x),
        State::LongOne(quote) => long(State::LongTwo(quote), quote, x),
        State::LongTwo(quote) => long(State::QuotedDone, quote, x),
        State::MarkDone | State::IriDone | State::QuotedDone => None,
    }
}

fn ntriples_step(state: State, x: Class) -> Option<State>
    ensures { result ≡ spec.ntriples_stepped state x }
{
    match state {
        State::LabelColon | State::Label | State::LabelDot => match x {
            Class::Colon => Some(State::Label),
            _ => step(state, x),
        },
        _ => step(state, x),
    }
}

/// What one more character makes of a token that has been begun, or `None` where it can make
/// nothing of it.
pub fn step_in(dialect: Dialect, state: State, x: Class) -> Option<State>
    ensures { result ≡ spec.stepped_in dialect state x }
{
    match dialect {
        Dialect::Turtle => step(state, x),
        Dialect::NTriples => ntriples_step(state, x),
    }
}

/// The kind of the token that ends here, if one may.
pub fn kind_of(state: State) -> Option<TurtleKind>
    ensures { result ≡ spec.kind_of state }
{
    match state {
        State::FirstDot | State::MarkDone => Some(TurtleKind::Mark),
        State::Digits => Some(TurtleKind::Integer),
        State::Fraction => Some(TurtleKind::Decimal),
        State::ExponentDigits => Some(TurtleKind::Double),
        State::Word => Some(TurtleKind::Word),
        State::Colon | State::Local => Some(TurtleKind::Name),
        State::Label => Some(TurtleKind::BlankLabel),
        State::Tag | State::TagPart => Some(TurtleKind::At),
        State::IriDone => Some(TurtleKind::IriRef),
        State::SecondQuote(_) | State::QuotedDone => { Some(TurtleKind::Quoted) }
        _ => None,
    }
}

/// Whether a colon is wanted that makes a name of what has been read, which is no token without.
pub fn is_waiting(state: State) -> bool
    ensures { result ≡ spec.is_waiting state }
{
    matches!(state, State::Prefix | State::PrefixDot)
}
