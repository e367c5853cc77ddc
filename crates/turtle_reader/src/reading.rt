//! Reading a text.

ghost use Rattle.std.specs.Prelude.{◌≡◌, Ok, Err, IfOk, IfErr};
ghost use Rattle.turtle_reader.specs.Reading as spec;
ghost use Rattle.turtle_reader.specs.Reading.{IsTurtle, IsFault, turtle_reading};

use crate::document::document;
use crate::fault::ReadFault;
use crate::resolving::resolve;
use crate::setting::Setting;
use crate::token_fault::{Fault, ResolveError};
use rdf_terms::Triple;
use std::alloc::Global;
use turtle_lexer::lex_turtle;

fn reported(error: ResolveError) -> ReadFault
    ensures { result ≡ spec.reported error }
{
    match error {
        ResolveError::Memory => ReadFault::Memory,
        ResolveError::Fault(Fault::Syntax(at)) => ReadFault::Syntax { at },
        ResolveError::Fault(Fault::Deep(at)) => ReadFault::Deep { at },
    }
}

/// The triples of a Turtle document in order, with `doc` as the name of its blank nodes and `base` as
/// its base at the beginning; or the first fault in the text. It takes time linear in the text
/// and in the IRIs that its names stand for, each of which is written out, and in the base in force
/// for each IRIREF; and memory linear in the text and in these IRIs.
pub fn read_turtle(
    alloc: Global,
    doc: &str,
    base: &str,
    bytes: &[u8],
) -> Result<Vec<Triple>, ReadFault>
    ensures ok { IfOk result (λ triples. IsTurtle doc.now base.now bytes.now (Ok triples.items)) }
    ensures fault { IfErr result (λ e. IsFault e (λ x. IsTurtle doc.now base.now bytes.now (Err x))) }

    // The same of the function that gives each text its answer.
    ensures ok_reading { IfOk result (λ triples. turtle_reading doc.now base.now bytes.now ≡ Ok triples.items) }
    ensures fault_reading { IfErr result (λ e. IsFault e (λ x. turtle_reading doc.now base.now bytes.now ≡ Err x)) }
{
    let lexed = lex_turtle(alloc, bytes)?;
    let resolved = resolve(alloc, base, bytes, lexed.as_slice())?;
    let setting = Setting::new(alloc, doc, resolved.stop)?;
    match document(alloc, &setting, resolved.tokens.as_slice()) {
        Ok((triples, _)) => Ok(triples),
        Err(error) => Err(reported(error)),
    }
}
