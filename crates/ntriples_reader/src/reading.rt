//! N-Triples, read.

ghost use Rattle.std.specs.Prelude.{◌≡◌, ◌++◌, ℕ, List, Result};
ghost use Rattle.rdf_terms.specs.declared.triple.Triple.{Triple as Read};
ghost use Rattle.ntriples_reader.specs.Cursor.{view};
ghost use Rattle.ntriples_reader.specs.Reading as spec;

use crate::cursor::Cursor;
use crate::numbering::Numbering;
use rdf_terms::Triple;
use std::alloc::Global;
use turtle_lexer::lex_ntriples;
use turtle_reader::ReadFault;

fn triples_of(alloc: Global, doc: &str, cursor: &mut Cursor) -> Result<Vec<Triple>, ReadFault>
    ensures { spec.Gives (λ v. v.items) result (spec.lines_read_as doc.now (view cursor.old)) }
{
    let mut numbering = Numbering::new(alloc, doc)?;
    loop {
        let statement = cursor.line()?;
        numbering.add(statement)?;
        let goes_on = cursor.next_line()?;
        if !goes_on {
            let Numbering { triples, .. } = numbering;
            return Ok(triples);
        }
    }
}

/// The triples of a text of N-Triples (RDF 1.1 N-Triples), in their order, as those of a document of
/// this name, or the first place that doesn't fit. It takes time linear in the text, for any number
/// of labels, and memory for its tokens beside the triples.
pub fn read_ntriples(alloc: Global, doc: &str, bytes: &[u8]) -> Result<Vec<Triple>, ReadFault>
    ensures value { (r : Result (List Read) ℕ) → spec.Reads doc.now bytes.now r → spec.Gives (λ v. v.items) result r }
    ensures reading { spec.Gives (λ v. v.items) result (spec.ntriples_reading doc.now bytes.now) }
{
    let tokens = lex_ntriples(alloc, bytes)?;
    let mut cursor = Cursor::new(alloc, bytes, tokens.as_slice())?;
    triples_of(alloc, doc, &mut cursor)
}
