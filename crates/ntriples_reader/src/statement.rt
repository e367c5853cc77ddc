//! Statements, by the grammar.

ghost use Rattle.std.specs.Prelude.{◌≡◌, true, OnOk};
ghost use Rattle.ntriples_reader.specs.Grammar as spec;
ghost use Rattle.ntriples_reader.specs.Lines.{is_empty};
ghost use Rattle.ntriples_reader.specs.Cursor.{view, IsSameText, Steps};

use crate::cursor::{Cursor, Next};
use crate::piece::{Item, Piece};
use rdf_terms::TextBuf;
use std::mem;
use turtle_reader::ReadFault;

/// The subject or the object of a statement, as it is written.
#[derive(Debug, Drop)]
pub enum Node {
    Iri(TextBuf),
    /// A blank node, by its label.
    Label(TextBuf),
    /// A string alone.
    Simple(TextBuf),
    /// A string and a language tag.
    Tagged { text: TextBuf, tag: TextBuf },
    /// A string and the IRI of its datatype.
    Typed { text: TextBuf, datatype: TextBuf },
}

/// A statement, whose predicate is an IRI.
#[derive(Debug, Drop)]
pub struct Statement {
    pub s: Node,
    pub p: TextBuf,
    pub o: Node,
}

impl<'a> Cursor<'a> {
    #[tactic(auto, unfolding(crate::specs::Grammar::iri))]
    fn iri(&mut self) -> Result<TextBuf, ReadFault>
        ensures value { Steps self.new result (spec.iri (view self.old)) }
        ensures kept { OnOk result (IsSameText self.old self.new) }
    {
        let item = self.token()?;
        match item.piece {
            Piece::Iri(iri) => Ok(iri),
            _ => Err(ReadFault::Syntax { at: item.from }),
        }
    }

    #[tactic(auto, unfolding(crate::specs::Grammar::subject))]
    fn subject(&mut self) -> Result<Node, ReadFault>
        ensures value { Steps self.new result (spec.subject (view self.old)) }
        ensures kept { OnOk result (IsSameText self.old self.new) }
    {
        let item = self.token()?;
        match item.piece {
            Piece::Iri(iri) => Ok(Node::Iri(iri)),
            Piece::Label(label) => Ok(Node::Label(label)),
            _ => Err(ReadFault::Syntax { at: item.from }),
        }
    }

    fn typed(&mut self, text: TextBuf) -> Result<Node, ReadFault>
        ensures value { Steps self.new result (spec.typed text (view self.old)) }
        ensures kept { OnOk result (IsSameText self.old self.new) }
    {
        let datatype = self.iri()?;
        Ok(Node::Typed { text, datatype })
    }

    // What a string goes on with is looked at, and left where it is no part of the literal.
    #[tactic(auto, unfolding(crate::specs::Grammar::literal))]
    fn literal(&mut self, text: TextBuf) -> Result<Node, ReadFault>
        ensures value { Steps self.new result (spec.literal text (view self.old)) }
        ensures kept { OnOk result (IsSameText self.old self.new) }
    {
        match mem::replace(&mut self.next, Next::End(0)) {
            Next::Item(item) => match item.piece {
                Piece::Tag(tag) => {
                    self.load()?;
                    Ok(Node::Tagged { text, tag })
                }
                Piece::Carets => {
                    self.load()?;
                    self.typed(text)
                }
                piece => {
                    self.next = Next::Item(Item {
                        piece,
                        from: item.from,
                    });
                    Ok(Node::Simple(text))
                }
            },
            end => {
                self.next = end;
                Ok(Node::Simple(text))
            }
        }
    }

    #[tactic(auto, unfolding(crate::specs::Grammar::object))]
    fn object(&mut self) -> Result<Node, ReadFault>
        ensures value { Steps self.new result (spec.object (view self.old)) }
        ensures kept { OnOk result (IsSameText self.old self.new) }
    {
        let item = self.token()?;
        match item.piece {
            Piece::Iri(iri) => Ok(Node::Iri(iri)),
            Piece::Label(label) => Ok(Node::Label(label)),
            Piece::Text(text) => self.literal(text),
            _ => Err(ReadFault::Syntax { at: item.from }),
        }
    }

    #[tactic(auto, unfolding(crate::specs::Grammar::dot))]
    fn dot(&mut self) -> Result<(), ReadFault>
        ensures value { Steps self.new result (spec.dot (view self.old)) }
        ensures kept { OnOk result (IsSameText self.old self.new) }
    {
        let item = self.token()?;
        match item.piece {
            Piece::Dot => Ok(()),
            _ => Err(ReadFault::Syntax { at: item.from }),
        }
    }

    #[tactic(auto, unfolding(crate::specs::Grammar::statement))]
    fn statement(&mut self) -> Result<Statement, ReadFault>
        ensures value { Steps self.new result (spec.statement (view self.old)) }
        ensures kept { OnOk result (IsSameText self.old self.new) }
    {
        let s = self.subject()?;
        let p = self.iri()?;
        let o = self.object()?;
        self.dot()?;
        Ok(Statement { s, p, o })
    }

    /// The statement of a line, if it has one.
    #[tactic(auto, unfolding(crate::specs::Grammar::line))]
    pub fn line(&mut self) -> Result<Option<Statement>, ReadFault>
        ensures value { Steps self.new result (spec.line (view self.old)) }
        ensures kept { OnOk result (IsSameText self.old self.new) }
        ensures ended { OnOk result (is_empty (view self.new).items ≡ true) }
    {
        if self.is_at_end() {
            return Ok(None);
        }
        let statement = self.statement()?;
        if self.is_at_end() {
            return Ok(Some(statement));
        }
        Err(ReadFault::Syntax { at: self.place() })
    }
}
