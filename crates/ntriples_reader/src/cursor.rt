//! A text, line by line and token by token.

ghost use Rattle.std.specs.Prelude.{◌≡◌, ◌<◌, true, OnOk, IfOk, IfSome, length, position};
ghost use Rattle.ntriples_reader.specs.Grammar as grammar;
ghost use Rattle.ntriples_reader.specs.Lines as spec;
ghost use Rattle.ntriples_reader.specs.Lines.{is_empty};
ghost use Rattle.ntriples_reader.specs.Cursor.{view, IsNextLine, IsSameText, Steps};

use crate::piece::{Item, between, item_of};
use rdf_terms::Memory;
use std::alloc::Global;
use std::mem;
use turtle_lexer::{Token, TurtleKind};
use turtle_reader::ReadFault;

/// What stands at a cursor.
#[derive(Debug, Drop)]
pub enum Next {
    Item(Item),
    /// The end of a line, with its place.
    LineEnd(usize),
    /// The end of the text, with its length.
    End(usize),
}

/// A place in a text: what stands next, and the tokens behind it, which begin behind `at`.
#[derive(Drop)]
pub struct Cursor<'a> {
    pub alloc: Global,
    pub bytes: &'a [u8],
    pub next: Next,
    pub at: usize,
    pub tokens: &'a [Token],
}

fn line_end_in(bytes: &[u8]) -> Option<usize>
    ensures value { result ≡ position spec.is_line_end bytes.now }
    ensures within { IfSome result (λ n. n < length bytes.now) }
{
    bytes.iter().position(|b| *b == b'\r' || *b == b'\n')
}

// Where a line ends between two places.
#[tactic(auto, unfolding(crate::specs::Lines::line_end_between))]
fn line_end_between(bytes: &[u8], from: usize, to: usize) -> Option<usize>
    ensures { result ≡ spec.line_end_between bytes.now from to }
{
    match line_end_in(between(bytes, from, to)) {
        Some(at) => Some(from + at),
        None => None,
    }
}

impl<'a> Cursor<'a> {
    /// The beginning of a text with these tokens.
    pub fn new(alloc: Global, bytes: &'a [u8], tokens: &'a [Token]) -> Result<Cursor<'a>, Memory>
        ensures { IfOk result (λ c. view c ≡ spec.lines_of bytes.now tokens.now) }
    {
        let mut cursor = Cursor {
            alloc,
            bytes,
            next: Next::End(0),
            at: 0,
            tokens,
        };
        cursor.load()?;
        Ok(cursor)
    }

    fn load_token(&mut self, token: Token, behind: &'a [Token]) -> Result<(), Memory>
        ensures { OnOk result
            (view self.new ≡ spec.from_token self.old.bytes.now token (spec.lines_from self.old.bytes.now token.to behind.entry.now)) }
    {
        self.next = match token.kind {
            TurtleKind::End => Next::End(token.from),
            _ => Next::Item(item_of(self.alloc, self.bytes, token)?),
        };
        self.at = token.to;
        self.tokens = behind;
        Ok(())
    }

    // Goes on to what stands behind `at`.
    pub fn load(&mut self) -> Result<(), Memory>
        ensures { OnOk result
            (view self.new ≡ spec.lines_from self.old.bytes.now self.old.at self.old.tokens.now) }
    {
        let Some((token, behind)) = self.tokens.split_first() else {
            self.next = Next::End(self.bytes.len());
            return Ok(());
        };
        match line_end_between(self.bytes, self.at, token.from) {
            Some(end) => {
                self.next = Next::LineEnd(end);
                self.at = token.from;
                Ok(())
            }
            None => self.load_token(*token, behind),
        }
    }

    /// Takes a token of the line, which must stand next.
    #[tactic(auto, unfolding(crate::specs::Grammar::token))]
    pub fn token(&mut self) -> Result<Item, ReadFault>
        ensures value { Steps self.new result (grammar.token (view self.old)) }
        ensures kept { OnOk result (IsSameText self.old self.new) }
    {
        match mem::replace(&mut self.next, Next::End(0)) {
            Next::Item(item) => {
                self.load()?;
                Ok(item)
            }
            Next::LineEnd(at) | Next::End(at) => Err(ReadFault::Syntax { at }),
        }
    }

    /// Whether the line has no more tokens.
    pub fn is_at_end(&self) -> bool
        ensures { result ≡ is_empty (view self.now).items }
    {
        match self.next {
            Next::Item(_) => false,
            _ => true,
        }
    }

    /// The place of the next token of the line, or of the line's end.
    pub fn place(&self) -> usize
        ensures { result ≡ grammar.place (view self.now) }
    {
        match &self.next {
            Next::Item(item) => item.from,
            Next::LineEnd(at) | Next::End(at) => *at,
        }
    }

    /// Goes on to the next line behind one that has no more tokens; false where there is none.
    pub fn next_line(&mut self) -> Result<bool, Memory>
        requires { is_empty (view self.old).items ≡ true }
        ensures { IfOk result (IsNextLine (view self.old) (view self.new)) }
    {
        match self.next {
            Next::LineEnd(_) => {
                self.load()?;
                Ok(true)
            }
            _ => Ok(false),
        }
    }
}
