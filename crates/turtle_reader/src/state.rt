//! What a resolver holds, and its step.

ghost use Rattle.std.specs.Prelude.{◌≡◌};
ghost use Rattle.turtle_reader.specs.Resolving as spec;
ghost use Rattle.turtle_reader.specs.Resolving.{view, Gives, Steps, StepsAlone};

use crate::kind::Kind;
use crate::token_fault::{Fault, ResolveError};
use crate::words::{Mark, Word, begins_object, is_text, mark_of, word_of};
use indexmap::IndexMap;
use iri_core::{prefixed_iri, resolved_iri};
use rdf_terms::TextBuf;
use std::alloc::Global;
use std::mem;
use terminals::{iri_text, label_text, local_text, plain_text, prefix_text, string_text, tag_text};
use turtle_lexer::{Token, TurtleKind};

const INTEGER_TYPE: &str = "http://www.w3.org/2001/XMLSchema#integer";

const DECIMAL_TYPE: &str = "http://www.w3.org/2001/XMLSchema#decimal";

const DOUBLE_TYPE: &str = "http://www.w3.org/2001/XMLSchema#double";

const BOOLEAN_TYPE: &str = "http://www.w3.org/2001/XMLSchema#boolean";

/// How many brackets may be open at once.
const MOST_OPEN: usize = 64;

/// A bracket that is open.
#[derive(Clone, Copy, Debug, PartialEq, Eq)]
pub enum Bracket {
    /// `[`.
    Square,
    /// `(`.
    Paren,
}

/// What the token before this one was, where it matters.
#[derive(Debug, Drop)]
pub enum Before {
    Other,
    /// `@base` or BASE.
    Base,
    /// `@prefix` or PREFIX.
    Prefix,
    /// `@prefix` or PREFIX, and this prefix.
    Named(TextBuf),
    /// A string.
    Text,
    /// `^^`.
    Carets,
}

/// What a resolver knows of the tokens behind it.
#[derive(Drop)]
pub struct Resolver {
    pub alloc: Global,
    pub base: TextBuf,
    pub prefixes: IndexMap<TextBuf, TextBuf>,
    pub before: Before,
    /// Each label with the number of its blank node.
    pub labels: IndexMap<TextBuf, u64>,
    /// How many blank nodes have appeared.
    pub blanks: u64,
    /// The brackets that are open, the innermost last.
    pub open: Vec<Bracket>,
}

// The text, or a fault where there is none.
fn needed(text: Option<TextBuf>, from: usize) -> Result<TextBuf, ResolveError>
    ensures { Gives (λ t. t) result (spec.needed text from) }
{
    match text {
        Some(text) => Ok(text),
        None => Err(ResolveError::Fault(Fault::Syntax(from))),
    }
}

fn literal(alloc: Global, datatype: &str, bytes: &[u8], from: usize) -> Result<Kind, ResolveError>
    ensures { Gives (λ k. k) result (spec.literal datatype.now bytes.now from) }
{
    let lexical = needed(plain_text(alloc, bytes)?, from)?;
    let datatype = TextBuf::from_str(alloc, datatype)?;
    Ok(Kind::Literal { datatype, lexical })
}

fn tag(alloc: Global, bytes: &[u8], from: usize) -> Result<Kind, ResolveError>
    ensures { Gives (λ k. k) result (spec.tag bytes.now from) }
{
    Ok(Kind::Tag(needed(tag_text(alloc, bytes)?, from)?))
}

impl Resolver {
    pub fn new(alloc: Global, base: &str) -> Result<Resolver, ResolveError>
        ensures { spec.Begins base.now result }
    {
        Ok(Resolver {
            alloc,
            base: TextBuf::from_str(alloc, base)?,
            prefixes: IndexMap::new(alloc),
            before: Before::Other,
            labels: IndexMap::new(alloc),
            blanks: 0,
            open: Vec::new(alloc),
        })
    }

    // Whether the innermost bracket that is open is a list's.
    fn is_in_list(&self) -> bool
        ensures { result ≡ spec.is_in_list (view self.now) }
    {
        match self.open.last() {
            Some(Bracket::Paren) => true,
            _ => false,
        }
    }

    // The number of a blank node that appears here. No memory holds a text with more of them than
    // numbers.
    fn new_blank(&mut self) -> Result<u64, ResolveError>
        ensures { spec.Numbers (view self.old) (view self.new) result }
    {
        let number = self.blanks;
        match number.checked_add(1) {
            Some(next) => {
                self.blanks = next;
                Ok(number)
            }
            None => Err(ResolveError::Memory),
        }
    }

    fn open_bracket(&mut self, bracket: Bracket, from: usize) -> Result<(), ResolveError>
        ensures { spec.Opens self.new result (spec.open_bracket bracket from (view self.old)) }
    {
        if self.open.len() >= MOST_OPEN {
            return Err(ResolveError::Fault(Fault::Deep(from)));
        }
        self.open.push(bracket)?;
        Ok(())
    }

    fn open_square(&mut self, from: usize) -> Result<Kind, ResolveError>
        ensures { Steps self.new result (spec.open_square from (view self.old)) }
    {
        self.open_bracket(Bracket::Square, from)?;
        Ok(Kind::OpenSquare(self.new_blank()?))
    }

    fn open_paren(&mut self, from: usize) -> Result<Kind, ResolveError>
        ensures { Steps self.new result (spec.open_paren from (view self.old)) }
    {
        self.open_bracket(Bracket::Paren, from)?;
        Ok(Kind::OpenParen)
    }

    fn shut_bracket(&mut self, kind: Kind) -> Result<Kind, ResolveError>
        ensures { Steps self.new result (spec.shut_bracket kind (view self.old)) }
    {
        self.open.pop();
        Ok(kind)
    }

    fn mark(&mut self, bytes: &[u8], from: usize) -> Result<Kind, ResolveError>
        ensures { Steps self.new result (spec.mark bytes.now from (view self.old)) }
    {
        match mark_of(bytes) {
            Mark::Dot => Ok(Kind::Dot),
            Mark::Semicolon => Ok(Kind::Semicolon),
            Mark::Comma => Ok(Kind::Comma),
            Mark::OpenSquare => self.open_square(from),
            Mark::ShutSquare => self.shut_bracket(Kind::ShutSquare),
            Mark::OpenParen => self.open_paren(from),
            Mark::ShutParen => self.shut_bracket(Kind::ShutParen),
            Mark::Carets => {
                self.before = Before::Carets;
                Ok(Kind::Carets)
            }
            Mark::Unknown => Ok(Kind::Unknown),
        }
    }

    fn word(&mut self, bytes: &[u8], from: usize) -> Result<Kind, ResolveError>
        ensures { Steps self.new result (spec.word bytes.now from (view self.old)) }
    {
        match word_of(bytes) {
            Word::A => Ok(Kind::A),
            Word::True | Word::False => literal(self.alloc, BOOLEAN_TYPE, bytes, from),
            Word::Prefix => {
                self.before = Before::Prefix;
                Ok(Kind::Prefix)
            }
            Word::Base => {
                self.before = Before::Base;
                Ok(Kind::Base)
            }
            Word::Unknown => Ok(Kind::Unknown),
        }
    }

    // Behind a string it is a tag, whatever it says.
    fn at_word(&mut self, before: Before, bytes: &[u8], from: usize) -> Result<Kind, ResolveError>
        ensures { Steps self.new result (spec.at_word before bytes.now from (view self.old)) }
    {
        match before {
            Before::Text => tag(self.alloc, bytes, from),
            _ => self.at_word_alone(bytes, from),
        }
    }

    fn at_word_alone(&mut self, bytes: &[u8], from: usize) -> Result<Kind, ResolveError>
        ensures { Steps self.new result (spec.at_word_alone bytes.now from (view self.old)) }
    {
        if is_text(bytes, b"@prefix") {
            self.before = Before::Prefix;
            return Ok(Kind::AtPrefix);
        }
        if is_text(bytes, b"@base") {
            self.before = Before::Base;
            return Ok(Kind::AtBase);
        }
        tag(self.alloc, bytes, from)
    }

    fn text(&mut self, bytes: &[u8], from: usize) -> Result<Kind, ResolveError>
        ensures { Steps self.new result (spec.text bytes.now from (view self.old)) }
    {
        let text = needed(string_text(self.alloc, bytes)?, from)?;
        self.before = Before::Text;
        Ok(Kind::Text(text))
    }

    fn new_label(&mut self, label: TextBuf) -> Result<Kind, ResolveError>
        ensures { Steps self.new result (spec.new_label label (view self.old)) }
    {
        self.labels.insert(label, self.blanks)?;
        Ok(Kind::Label(self.new_blank()?))
    }

    fn label(&mut self, bytes: &[u8], from: usize) -> Result<Kind, ResolveError>
        ensures { Steps self.new result (spec.label bytes.now from (view self.old)) }
    {
        let label = needed(label_text(self.alloc, bytes)?, from)?;
        match self.labels.get(&label) {
            Some(number) => Ok(Kind::Label(*number)),
            None => self.new_label(label),
        }
    }

    // What an IRIREF declares, by what stands before it.
    fn declare(&mut self, before: Before, iri: &TextBuf) -> Result<(), ResolveError>
        ensures { StepsAlone self.new result (spec.declared before iri.now (view self.old)) }
    {
        match before {
            Before::Base => self.base = iri.copy()?,
            Before::Named(prefix) => {
                self.prefixes.insert(prefix, iri.copy()?)?;
            }
            _ => {}
        }
        Ok(())
    }

    fn iri_ref(&mut self, before: Before, bytes: &[u8], from: usize) -> Result<Kind, ResolveError>
        ensures { Steps self.new result (spec.iri_ref before bytes.now from (view self.old)) }
    {
        let text = needed(iri_text(self.alloc, bytes)?, from)?;
        let iri = needed(
            resolved_iri(self.alloc, self.base.as_str(), text.as_str())?,
            from,
        )?;
        self.declare(before, &iri)?;
        Ok(Kind::IriRef(iri))
    }

    fn long_name(
        &self,
        prefix: &TextBuf,
        local: &TextBuf,
        from: usize,
    ) -> Result<Kind, ResolveError>
        ensures { Gives (λ k. k) result (spec.long_name prefix.now local.now from (view self.now)) }
    {
        match self.prefixes.get(prefix) {
            Some(iri) => Ok(Kind::Name(needed(prefixed_iri(self.alloc, iri, local)?, from)?)),
            None => Err(ResolveError::Fault(Fault::Syntax(from))),
        }
    }

    fn name(&mut self, before: Before, bytes: &[u8], from: usize) -> Result<Kind, ResolveError>
        ensures { Steps self.new result (spec.name before bytes.now from (view self.old)) }
    {
        let prefix = needed(prefix_text(self.alloc, bytes)?, from)?;
        let local = needed(local_text(self.alloc, bytes)?, from)?;
        match before {
            Before::Prefix => {
                if local.as_str().is_empty() {
                    self.before = Before::Named(prefix);
                    return Ok(Kind::Namespace);
                }
                self.long_name(&prefix, &local, from)
            }
            _ => self.long_name(&prefix, &local, from),
        }
    }

    fn step_by(&mut self, bytes: &[u8], token: Token, before: Before) -> Result<Kind, ResolveError>
        ensures { Steps self.new result (spec.step_by bytes.now token before (view self.old)) }
    {
        let from = token.from;
        match token.kind {
            TurtleKind::Bad => Err(ResolveError::Fault(Fault::Syntax(from))),
            TurtleKind::End => Ok(Kind::End),
            TurtleKind::IriRef => self.iri_ref(before, bytes, from),
            TurtleKind::Name => self.name(before, bytes, from),
            TurtleKind::BlankLabel => self.label(bytes, from),
            TurtleKind::At => self.at_word(before, bytes, from),
            TurtleKind::Quoted => self.text(bytes, from),
            TurtleKind::Integer => literal(self.alloc, INTEGER_TYPE, bytes, from),
            TurtleKind::Decimal => literal(self.alloc, DECIMAL_TYPE, bytes, from),
            TurtleKind::Double => literal(self.alloc, DOUBLE_TYPE, bytes, from),
            TurtleKind::Word => self.word(bytes, from),
            TurtleKind::Mark => self.mark(bytes, from),
        }
    }

    // The cell of a list appears where its item begins: at a token that can begin an object, directly
    // in the list, unless the IRI of a datatype is due.
    fn begin_item(
        &mut self,
        before: &Before,
        bytes: &[u8],
        kind: TurtleKind,
    ) -> Result<(), ResolveError>
        ensures { StepsAlone self.new result (spec.item_begun before.now kind bytes.now (view self.old)) }
    {
        let is_due = matches!(before, Before::Carets);
        if !is_due && (self.is_in_list() && begins_object(kind, bytes)) {
            self.new_blank()?;
        }
        Ok(())
    }

    /// What the token with these bytes is, or its fault.
    pub fn step(&mut self, bytes: &[u8], token: Token) -> Result<Kind, ResolveError>
        ensures { Steps self.new result (spec.step bytes.now token (view self.old)) }
    {
        let before = mem::replace(&mut self.before, Before::Other);
        self.begin_item(&before, bytes, token.kind)?;
        self.step_by(bytes, token, before)
    }
}
