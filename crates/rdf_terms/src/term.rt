ghost use Rattle.std.specs.Prelude.{◌≡◌, IfOk, IsTrue, ◌↔◌};
ghost use Rattle.rdf_terms.specs.Order.{term_cmp};
ghost use Rattle.rdf_terms.specs.Same.{same_term};

use crate::{Memory, TextBuf};
use std::cmp::Ordering;

/// An RDF term (RDF 1.1 Concepts, section 3). Equality is by all parts.
///
/// The order is: blank nodes by document and number, IRIs by text, literals by datatype, tag and
/// lexical form; texts go by their bytes, and no tag comes before any tag. It is the order in which
/// variants and fields stand here, which the derives follow.
#[derive(Debug, Drop, PartialEq, Eq, PartialOrd, Ord, Hash)]
pub enum Term {
    /// A blank node: the link text of its document, and its number there.
    Blank {
        doc: TextBuf,
        n: u64,
    },
    /// An IRI, as written.
    Iri(TextBuf),
    /// A literal. Without a tag a simple one has the datatype `xsd:string`; with a tag it has
    /// `rdf:langString`.
    Literal {
        datatype: TextBuf,
        tag: Option<TextBuf>,
        lexical: TextBuf,
    },
}

fn copy_tag(tag: &Option<TextBuf>) -> Result<Option<TextBuf>, Memory>
    ensures { IfOk result (λ t. t ≡ tag.now) }
{
    match tag {
        None => Ok(None),
        Some(text) => Ok(Some(text.copy()?)),
    }
}

impl Term {
    /// The literal of these parts.
    pub fn literal(lexical: TextBuf, datatype: TextBuf, tag: Option<TextBuf>) -> Term
        ensures { result ≡ Term.Literal datatype tag lexical }
    {
        Term::Literal {
            datatype,
            tag,
            lexical,
        }
    }

    /// An equal term. Its texts are shared with this one.
    pub fn copy(&self) -> Result<Term, Memory>
        ensures { IfOk result (λ t. t ≡ self.now) }
    {
        match self {
            Term::Blank { doc, n } => Ok(Term::Blank {
                doc: doc.copy()?,
                n: *n,
            }),
            Term::Iri(text) => Ok(Term::Iri(text.copy()?)),
            Term::Literal {
                datatype,
                tag,
                lexical,
            } => Ok(Term::Literal {
                datatype: datatype.copy()?,
                tag: copy_tag(tag)?,
                lexical: lexical.copy()?,
            }),
        }
    }
}

/// Whether two terms are one. It is `==`, said of the values.
pub fn is_same_term(a: &Term, b: &Term) -> bool
    ensures test { result ≡ same_term a.now b.now }
    ensures same { IsTrue result ↔ (a.now ≡ b.now) }
{
    *a == *b
}

/// The order of two terms. It is `cmp`, said of the values.
pub fn order_of_terms(a: &Term, b: &Term) -> Ordering
    ensures { result ≡ term_cmp a.now b.now }
{
    a.cmp(b)
}
