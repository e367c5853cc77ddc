//! Triples of statements, with the blank nodes numbered.

ghost use Rattle.std.specs.Prelude.{◌≡◌, ◌++◌, [], ◌∷◌, IfOk, OnOk, bytes_eq};
ghost use Rattle.std.specs.List.{position_or_len};
ghost use Rattle.rdf_terms.specs.Lists.{add_once};
ghost use Rattle.ntriples_reader.specs.Triples as spec;

use crate::statement::{Node, Statement};
use indexmap::IndexSet;
use rdf_terms::{Memory, Term, TextBuf, Triple};
use std::alloc::Global;

const XSD_STRING: &str = "http://www.w3.org/2001/XMLSchema#string";

const LANG_STRING: &str = "http://www.w3.org/1999/02/22-rdf-syntax-ns#langString";

/// What the terms of a document have in common: its name, and the datatypes of literals without
/// one.
#[derive(Drop)]
pub struct Common {
    pub doc: TextBuf,
    pub simple: TextBuf,
    pub tagged: TextBuf,
}

/// Triples so far, and their labels in order of first appearance.
#[derive(Drop)]
pub struct Numbering {
    pub common: Common,
    pub labels: IndexSet<TextBuf>,
    pub triples: Vec<Triple>,
}

// The number of a label, which is that of the labels before it where it is new.
fn number_of(labels: &mut IndexSet<TextBuf>, label: TextBuf) -> Result<u64, Memory>
    ensures number { IfOk result (λ n. n ≡ position_or_len (bytes_eq label) labels.old.keys) }
    ensures labels { OnOk result (labels.new.keys ≡ add_once bytes_eq labels.old.keys label) }
{
    let (number, _) = labels.insert_full(label)?;
    Ok(number as u64)
}

fn term_of(common: &Common, labels: &mut IndexSet<TextBuf>, node: Node) -> Result<Term, Memory>
    requires { spec.IsCommon common.now }
    ensures term { IfOk result (λ t. t ≡ spec.term_of common.now.doc labels.old.keys node) }
    ensures labels { OnOk result (labels.new.keys ≡ spec.labels_with labels.old.keys node) }
{
    match node {
        Node::Iri(iri) => Ok(Term::Iri(iri)),
        Node::Label(label) => {
            let n = number_of(labels, label)?;
            let doc = common.doc.copy()?;
            Ok(Term::Blank { doc, n })
        }
        Node::Simple(text) => Ok(Term::literal(text, common.simple.copy()?, None)),
        Node::Tagged { text, tag } => Ok(Term::literal(text, common.tagged.copy()?, Some(tag))),
        Node::Typed { text, datatype } => Ok(Term::literal(text, datatype, None)),
    }
}

#[tactic(auto, unfolding(crate::specs::Triples::triple_of, crate::specs::Triples::labels_behind))]
fn triple_of(
    common: &Common,
    labels: &mut IndexSet<TextBuf>,
    statement: Statement,
) -> Result<Triple, Memory>
    requires { spec.IsCommon common.now }
    ensures triple { IfOk result (λ t. t ≡ spec.triple_of common.now.doc labels.old.keys statement) }
    ensures labels { OnOk result (labels.new.keys ≡ spec.labels_behind labels.old.keys statement) }
{
    let Statement { s, p, o } = statement;
    let s = term_of(common, labels, s)?;
    let o = term_of(common, labels, o)?;
    Ok(Triple {
        s,
        p: Term::Iri(p),
        o,
    })
}

impl Numbering {
    pub fn new(alloc: Global, doc: &str) -> Result<Numbering, Memory>
        ensures { IfOk result (spec.IsBegun doc.now) }
    {
        Ok(Numbering {
            common: Common {
                doc: TextBuf::from_str(alloc, doc)?,
                simple: TextBuf::from_str(alloc, XSD_STRING)?,
                tagged: TextBuf::from_str(alloc, LANG_STRING)?,
            },
            labels: IndexSet::new(alloc),
            triples: Vec::new(alloc),
        })
    }

    /// Adds the triple of a line's statement, if it has one.
    pub fn add(&mut self, statement: Option<Statement>) -> Result<(), Memory>
        requires { spec.IsCommon self.old.common }
        ensures { OnOk result (spec.IsAdded statement self.old self.new) }
    {
        if let Some(statement) = statement {
            let triple = triple_of(&self.common, &mut self.labels, statement)?;
            self.triples.push(triple)?;
        }
        Ok(())
    }
}
