//! What a document's triples are made with: its name, the terms of the vocabulary, and the fault
//! behind its tokens.

ghost use Rattle.std.specs.Prelude.{◌≡◌, None, Some, IfOk};
ghost use Rattle.rdf_terms.specs.declared.term.Term.{Term};
ghost use Rattle.turtle_reader.specs.Vocabulary as vocabulary;

use crate::token_fault::Fault;
use rdf_terms::{Memory, Term, TextBuf};
use std::alloc::Global;

const RDF_TYPE: &str = "http://www.w3.org/1999/02/22-rdf-syntax-ns#type";

const RDF_FIRST: &str = "http://www.w3.org/1999/02/22-rdf-syntax-ns#first";

const RDF_REST: &str = "http://www.w3.org/1999/02/22-rdf-syntax-ns#rest";

const RDF_NIL: &str = "http://www.w3.org/1999/02/22-rdf-syntax-ns#nil";

const LANG_STRING: &str = "http://www.w3.org/1999/02/22-rdf-syntax-ns#langString";

const XSD_STRING: &str = "http://www.w3.org/2001/XMLSchema#string";

/// The IRIs that the grammar itself names.
#[derive(Drop)]
pub struct Vocabulary {
    pub rdf_type: TextBuf,
    pub first: TextBuf,
    pub rest: TextBuf,
    pub nil: TextBuf,
    pub lang_string: TextBuf,
    pub xsd_string: TextBuf,
    ghost type_is: { rdf_type ≡ vocabulary.rdf_type },
    ghost first_is: { first ≡ vocabulary.rdf_first },
    ghost rest_is: { rest ≡ vocabulary.rdf_rest },
    ghost nil_is: { nil ≡ vocabulary.rdf_nil },
    ghost lang_string_is: { lang_string ≡ vocabulary.lang_string },
    ghost xsd_string_is: { xsd_string ≡ vocabulary.xsd_string },
}

#[tactic(auto, unfolding(crate::specs::Vocabulary::rdf_type, crate::specs::Vocabulary::rdf_first, crate::specs::Vocabulary::rdf_rest, crate::specs::Vocabulary::rdf_nil, crate::specs::Vocabulary::lang_string, crate::specs::Vocabulary::xsd_string))]
fn known_iris(alloc: Global) -> Result<Vocabulary, Memory> {
    Ok(Vocabulary {
        rdf_type: TextBuf::from_str(alloc, RDF_TYPE)?,
        first: TextBuf::from_str(alloc, RDF_FIRST)?,
        rest: TextBuf::from_str(alloc, RDF_REST)?,
        nil: TextBuf::from_str(alloc, RDF_NIL)?,
        lang_string: TextBuf::from_str(alloc, LANG_STRING)?,
        xsd_string: TextBuf::from_str(alloc, XSD_STRING)?,
    })
}

/// What all parts of a document are read with.
#[derive(Drop)]
pub struct Setting {
    /// The link text of the document, which names its blank nodes.
    pub doc: TextBuf,
    /// What is wrong behind its last token.
    pub stop: Fault,
    pub vocabulary: Vocabulary,
}

/// An IRI.
pub fn iri(text: &TextBuf) -> Result<Term, Memory>
    ensures { IfOk result (λ t. t ≡ Term.Iri text.now) }
{
    Ok(Term::Iri(text.copy()?))
}

impl Setting {
    pub fn new(alloc: Global, doc: &str, stop: Fault) -> Result<Setting, Memory>
        ensures doc { IfOk result (λ s. s.doc ≡ doc.now) }
        ensures stop { IfOk result (λ s. s.stop ≡ stop) }
    {
        Ok(Setting {
            doc: TextBuf::from_str(alloc, doc)?,
            stop,
            vocabulary: known_iris(alloc)?,
        })
    }

    /// The blank node of this number.
    pub fn blank(&self, n: u64) -> Result<Term, Memory>
        ensures { IfOk result (λ t. t ≡ Term.Blank self.now.doc n) }
    {
        Ok(Term::Blank {
            doc: self.doc.copy()?,
            n,
        })
    }

    pub fn rdf_type(&self) -> Result<Term, Memory>
        ensures { IfOk result (λ t. t ≡ Term.Iri vocabulary.rdf_type) }
    {
        iri(&self.vocabulary.rdf_type)
    }

    pub fn first(&self) -> Result<Term, Memory>
        ensures { IfOk result (λ t. t ≡ Term.Iri vocabulary.rdf_first) }
    {
        iri(&self.vocabulary.first)
    }

    pub fn rest(&self) -> Result<Term, Memory>
        ensures { IfOk result (λ t. t ≡ Term.Iri vocabulary.rdf_rest) }
    {
        iri(&self.vocabulary.rest)
    }

    pub fn nil(&self) -> Result<Term, Memory>
        ensures { IfOk result (λ t. t ≡ Term.Iri vocabulary.rdf_nil) }
    {
        iri(&self.vocabulary.nil)
    }

    /// The literal of a string alone.
    pub fn simple(&self, lexical: &TextBuf) -> Result<Term, Memory>
        ensures { IfOk result (λ t. t ≡ Term.Literal vocabulary.xsd_string None lexical.now) }
    {
        typed(&self.vocabulary.xsd_string, lexical)
    }

    /// The literal of a string and a tag.
    pub fn tagged(&self, tag: &TextBuf, lexical: &TextBuf) -> Result<Term, Memory>
        ensures { IfOk result (λ t. t ≡ Term.Literal vocabulary.lang_string (Some tag.now) lexical.now) }
    {
        Ok(Term::Literal {
            datatype: self.vocabulary.lang_string.copy()?,
            tag: Some(tag.copy()?),
            lexical: lexical.copy()?,
        })
    }
}

/// The literal of a datatype and a text.
pub fn typed(datatype: &TextBuf, lexical: &TextBuf) -> Result<Term, Memory>
    ensures { IfOk result (λ t. t ≡ Term.Literal datatype.now None lexical.now) }
{
    Ok(Term::Literal {
        datatype: datatype.copy()?,
        tag: None,
        lexical: lexical.copy()?,
    })
}
