//! What a resolver holds, and its step.

ghost use Rattle.std.specs.Prelude.{◌≡◌, ◌<◌, ◌^◌};
ghost use Rattle.sparql_resolve.specs.Resolving as spec;
ghost use Rattle.sparql_resolve.specs.Resolving.{view, Gives, Steps, StepsAlone};
ghost use Rattle.sparql_resolve.specs.declared.fault.Fault.TheVariants as faults;

use crate::fault::{Fault, ResolveError};
use crate::iris::iri_of;
use crate::kind::Kind;
use crate::marks::mark_kind;
use crate::names::{MOST_NAMES, Names};
use crate::words::word_kind;
use indexmap::IndexMap;
use iri_core::prefixed_iri;
use rdf_terms::TextBuf;
use sparql_lexer::{QueryKind, QueryToken};
use std::alloc::Global;
use std::mem;
use terminals::{
    iri_text, label_text, local_text, plain_text, prefix_text, string_text, tag_text, variable_text,
};

const INTEGER_TYPE: &str = "http://www.w3.org/2001/XMLSchema#integer";

const DECIMAL_TYPE: &str = "http://www.w3.org/2001/XMLSchema#decimal";

const DOUBLE_TYPE: &str = "http://www.w3.org/2001/XMLSchema#double";

/// How many brackets may be open at once.
const MOST_OPEN: u32 = 32;

/// How many groups may stand in a query.
const MOST_GROUPS: u32 = 256;

/// What the token before this one was, where it matters.
#[derive(Debug, Drop)]
pub enum Before {
    Other,
    /// BASE.
    Base,
    /// PREFIX.
    Prefix,
    /// PREFIX and this prefix.
    Named(TextBuf),
}

/// What a resolver knows of the tokens behind it.
#[derive(Drop)]
pub struct Resolver {
    pub alloc: Global,
    pub base: Option<TextBuf>,
    pub prefixes: IndexMap<TextBuf, TextBuf>,
    pub before: Before,
    /// Where the token before ended.
    pub end: usize,
    /// Each label with the number of its variable, and the brace that stood last before its first use.
    pub labels: IndexMap<TextBuf, (u16, usize)>,
    /// How many variables blank nodes have made.
    pub blanks: u16,
    /// How many brackets are open.
    pub open: u32,
    /// How many groups have begun.
    pub groups: u32,
    /// Where the last brace stood.
    pub brace: usize,
}

// The text, or a fault where there is none.
fn needed(text: Option<TextBuf>, from: usize) -> Result<TextBuf, ResolveError>
    ensures { Gives (λ t. t) result (spec.needed text from) }
{
    match text {
        Some(text) => Ok(text),
        None => Err(ResolveError::Fault(Fault::Syntax(from))),
    }
}

fn variable(alloc: Global, names: &Names, bytes: &[u8], from: usize) -> Result<Kind, ResolveError>
    ensures { Gives (λ k. k) result (spec.variable names.now bytes.now from) }
{
    let name = needed(variable_text(alloc, bytes)?, from)?;
    match names.number(&name) {
        Some(number) => {
            if number < MOST_NAMES {
                return Ok(Kind::Var(number as u16));
            }
            Err(ResolveError::Fault(Fault::Syntax(from)))
        }
        None => Err(ResolveError::Fault(Fault::Syntax(from))),
    }
}

fn number(
    alloc: Global,
    datatype: &str,
    bytes: &[u8],
    touches: bool,
    from: usize,
) -> Result<Kind, ResolveError>
    ensures { Gives (λ k. k) result (spec.number datatype.now bytes.now touches from) }
{
    let lexical = needed(plain_text(alloc, bytes)?, from)?;
    let datatype = TextBuf::from_str(alloc, datatype)?;
    Ok(Kind::Number {
        datatype,
        lexical,
        touches,
    })
}

fn text(alloc: Global, bytes: &[u8], from: usize) -> Result<Kind, ResolveError>
    ensures { Gives (λ k. k) result (spec.text bytes.now from) }
{
    Ok(Kind::Text(needed(string_text(alloc, bytes)?, from)?))
}

fn tag(alloc: Global, bytes: &[u8], from: usize) -> Result<Kind, ResolveError>
    ensures { Gives (λ k. k) result (spec.tag bytes.now from) }
{
    Ok(Kind::Tag(needed(tag_text(alloc, bytes)?, from)?))
}

// The number of a blank node's variable, where there is room.
fn blank_number(names: usize, blanks: u16, from: usize) -> Result<u16, ResolveError>
    requires { names < 2 ^ 63 }
    ensures { Gives (λ n. n) result (spec.blank_number names blanks from) }
{
    let number = names + blanks as usize;
    if number < MOST_NAMES {
        return Ok(number as u16);
    }
    Err(ResolveError::Fault(Fault::Syntax(from)))
}

impl Resolver {
    pub fn new(alloc: Global) -> Resolver
        ensures { view result ≡ spec.begin }
    {
        Resolver {
            alloc,
            base: None,
            prefixes: IndexMap::new(alloc),
            before: Before::Other,
            end: 0,
            labels: IndexMap::new(alloc),
            blanks: 0,
            open: 0,
            groups: 0,
            brace: 0,
        }
    }

    fn open_bracket(&mut self, kind: Kind, from: usize) -> Result<Kind, ResolveError>
        ensures { Steps self.new result (spec.open_bracket kind from (view self.old)) }
    {
        if self.open >= MOST_OPEN {
            return Err(ResolveError::Fault(Fault::Deep(from)));
        }
        self.open += 1;
        Ok(kind)
    }

    fn open_brace(&mut self, from: usize) -> Result<Kind, ResolveError>
        ensures { Steps self.new result (spec.open_brace from (view self.old)) }
    {
        if self.open >= MOST_OPEN {
            return Err(ResolveError::Fault(Fault::Deep(from)));
        }
        if self.groups >= MOST_GROUPS {
            return Err(ResolveError::Fault(Fault::Deep(from)));
        }
        self.open += 1;
        self.groups += 1;
        self.brace = from;
        Ok(Kind::OpenBrace)
    }

    fn open_square(&mut self, names: usize, from: usize) -> Result<Kind, ResolveError>
        requires { names < 2 ^ 63 }
        ensures { Steps self.new result (spec.open_square names from (view self.old)) }
    {
        if self.open >= MOST_OPEN {
            return Err(ResolveError::Fault(Fault::Deep(from)));
        }
        let number = blank_number(names, self.blanks, from)?;
        self.open += 1;
        self.blanks += 1;
        Ok(Kind::OpenSquare(number))
    }

    fn shut_bracket(&mut self, kind: Kind) -> Result<Kind, ResolveError>
        ensures { Steps self.new result (spec.shut_bracket kind (view self.old)) }
    {
        self.open = self.open.saturating_sub(1);
        Ok(kind)
    }

    fn shut_brace(&mut self, from: usize) -> Result<Kind, ResolveError>
        ensures { Steps self.new result (spec.shut_brace from (view self.old)) }
    {
        self.open = self.open.saturating_sub(1);
        self.brace = from;
        Ok(Kind::ShutBrace)
    }

    fn mark(&mut self, names: usize, bytes: &[u8], from: usize) -> Result<Kind, ResolveError>
        requires { names < 2 ^ 63 }
        ensures { Steps self.new result (spec.mark names bytes.now from (view self.old)) }
    {
        match mark_kind(bytes) {
            Kind::OpenBrace => self.open_brace(from),
            Kind::OpenSquare(_) => self.open_square(names, from),
            Kind::OpenParen => self.open_bracket(Kind::OpenParen, from),
            Kind::ShutBrace => self.shut_brace(from),
            Kind::ShutSquare => self.shut_bracket(Kind::ShutSquare),
            Kind::ShutParen => self.shut_bracket(Kind::ShutParen),
            other => Ok(other),
        }
    }

    fn word(&mut self, bytes: &[u8]) -> Result<Kind, ResolveError>
        ensures { Steps self.new result (spec.word bytes.now (view self.old)) }
    {
        let kind = word_kind(bytes);
        match &kind {
            Kind::Base => self.before = Before::Base,
            Kind::Prefix => self.before = Before::Prefix,
            _ => {}
        }
        Ok(kind)
    }

    fn new_label(&mut self, label: TextBuf, names: usize, from: usize) -> Result<Kind, ResolveError>
        requires { names < 2 ^ 63 }
        ensures { Steps self.new result (spec.new_label label names from (view self.old)) }
    {
        let number = blank_number(names, self.blanks, from)?;
        self.labels.insert(label, (number, self.brace))?;
        self.blanks += 1;
        Ok(Kind::Label(number))
    }

    fn label(&mut self, names: usize, bytes: &[u8], from: usize) -> Result<Kind, ResolveError>
        requires { names < 2 ^ 63 }
        ensures { Steps self.new result (spec.label names bytes.now from (view self.old)) }
    {
        let label = needed(label_text(self.alloc, bytes)?, from)?;
        match self.labels.get(&label) {
            Some((number, brace)) => {
                if *brace == self.brace {
                    return Ok(Kind::Label(*number));
                }
                Err(ResolveError::Fault(Fault::Syntax(from)))
            }
            None => self.new_label(label, names, from),
        }
    }

    // What an IRIREF declares, by what stands before it.
    fn declare(&mut self, before: Before, iri: &TextBuf) -> Result<(), ResolveError>
        ensures { StepsAlone self.new result (spec.declared before iri.now (view self.old)) }
    {
        match before {
            Before::Base => self.base = Some(iri.copy()?),
            Before::Named(prefix) => {
                self.prefixes.insert(prefix, iri.copy()?)?;
            }
            _ => {}
        }
        Ok(())
    }

    fn iri_ref(&mut self, before: Before, bytes: &[u8], from: usize) -> Result<Kind, ResolveError>
        ensures { Steps self.new result (spec.iri_ref before bytes.now from (view self.old)) }
    {
        let text = needed(iri_text(self.alloc, bytes)?, from)?;
        let iri = needed(iri_of(self.alloc, &self.base, &text)?, from)?;
        self.declare(before, &iri)?;
        Ok(Kind::IriRef(iri))
    }

    fn long_name(
        &self,
        prefix: &TextBuf,
        local: &TextBuf,
        from: usize,
    ) -> Result<Kind, ResolveError>
        ensures { Gives (λ k. k) result (spec.long_name prefix.now local.now from (view self.now)) }
    {
        match self.prefixes.get(prefix) {
            Some(iri) => Ok(Kind::Name(needed(prefixed_iri(self.alloc, iri, local)?, from)?)),
            None => Err(ResolveError::Fault(Fault::Syntax(from))),
        }
    }

    fn name(&mut self, before: Before, bytes: &[u8], from: usize) -> Result<Kind, ResolveError>
        ensures { Steps self.new result (spec.name before bytes.now from (view self.old)) }
    {
        let prefix = needed(prefix_text(self.alloc, bytes)?, from)?;
        let local = needed(local_text(self.alloc, bytes)?, from)?;
        match before {
            Before::Prefix => {
                if local.as_str().is_empty() {
                    self.before = Before::Named(prefix);
                    return Ok(Kind::Namespace);
                }
                self.long_name(&prefix, &local, from)
            }
            _ => self.long_name(&prefix, &local, from),
        }
    }

    fn step_by(
        &mut self,
        names: &Names,
        bytes: &[u8],
        token: QueryToken,
        before: Before,
        touches: bool,
    ) -> Result<Kind, ResolveError>
        ensures { Steps self.new result (spec.step_by names.now bytes.now token before touches (view self.old)) }
    {
        let from = token.from;
        match token.kind {
            QueryKind::Bad => Err(ResolveError::Fault(Fault::Syntax(from))),
            QueryKind::End => Ok(Kind::End),
            QueryKind::Var => variable(self.alloc, names, bytes, from),
            QueryKind::IriRef => self.iri_ref(before, bytes, from),
            QueryKind::Name => self.name(before, bytes, from),
            QueryKind::BlankLabel => self.label(names.len(), bytes, from),
            QueryKind::Tag => tag(self.alloc, bytes, from),
            QueryKind::Quoted => text(self.alloc, bytes, from),
            QueryKind::Integer => number(self.alloc, INTEGER_TYPE, bytes, touches, from),
            QueryKind::Decimal => number(self.alloc, DECIMAL_TYPE, bytes, touches, from),
            QueryKind::Double => number(self.alloc, DOUBLE_TYPE, bytes, touches, from),
            QueryKind::Word => self.word(bytes),
            QueryKind::Mark => self.mark(names.len(), bytes, from),
        }
    }

    /// What the token is, or its fault.
    pub fn step(
        &mut self,
        names: &Names,
        bytes: &[u8],
        token: QueryToken,
    ) -> Result<Kind, ResolveError>
        ensures { Steps self.new result (spec.step names.now bytes.now token (view self.old)) }
    {
        let before = mem::replace(&mut self.before, Before::Other);
        let touches = self.end == token.from;
        self.end = token.to;
        self.step_by(names, bytes, token, before, touches)
    }
}
