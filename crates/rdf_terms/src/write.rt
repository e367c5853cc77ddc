ghost use Rattle.std.specs.Prelude.{◌≡◌, ◌++◌, IfOk, OnOk, flat_map, codes};
ghost use Rattle.std.specs.String.{string_bytes};
ghost use Rattle.std.specs.Str.{bytes_eq};
ghost use Rattle.std.specs.Char.{encode_utf8};
ghost use Rattle.rdf_terms.specs.NTriplesForm.{escaped, escaped_text, bracketed, xsd_string, ending, blank_label, ntriples_form};

use crate::{Memory, Term, TextBuf};
use std::alloc::Global;

const XSD_STRING: &str = "http://www.w3.org/2001/XMLSchema#string";

fn push_escaped(out: &mut String, c: char) -> Result<(), Memory>
    ensures { OnOk result (string_bytes out.new ≡ string_bytes out.old ++ flat_map escaped (encode_utf8 c)) }
{
    match c {
        '"' => out.push_str("\\\"")?,
        '\\' => out.push_str("\\\\")?,
        '\n' => out.push_str("\\n")?,
        '\r' => out.push_str("\\r")?,
        '\t' => out.push_str("\\t")?,
        _ => out.push(c)?,
    }
    Ok(())
}

fn push_escaped_text(out: &mut String, text: &str) -> Result<(), Memory>
    ensures { OnOk result (string_bytes out.new ≡ string_bytes out.old ++ escaped_text text.now) }
{
    for c in text.chars() {
        push_escaped(out, c)?;
    }
    Ok(())
}

fn push_bracketed(out: &mut String, iri: &str) -> Result<(), Memory>
    ensures { OnOk result (string_bytes out.new ≡ string_bytes out.old ++ bracketed iri.now) }
{
    out.push_str("<")?;
    out.push_str(iri)?;
    out.push_str(">")?;
    Ok(())
}

fn is_xsd_string(datatype: &str) -> bool
    ensures { result ≡ bytes_eq datatype.now xsd_string }
{
    datatype == XSD_STRING
}

fn push_ending(out: &mut String, datatype: &TextBuf, tag: &Option<TextBuf>) -> Result<(), Memory>
    ensures { OnOk result (string_bytes out.new ≡ string_bytes out.old ++ ending datatype.now tag.now) }
{
    match tag {
        Some(tag) => {
            out.push_str("@")?;
            out.push_str(tag.as_str())?;
        }
        None => {
            if !is_xsd_string(datatype.as_str()) {
                out.push_str("^^")?;
                push_bracketed(out, datatype.as_str())?;
            }
        }
    }
    Ok(())
}

fn push_label(alloc: Global, out: &mut String, doc: &str, n: u64) -> Result<(), Memory>
    ensures { OnOk result (string_bytes out.new ≡ string_bytes out.old ++ blank_label doc.now n) }
{
    let number = n.to_string(alloc)?;
    let digits = hex::encode(alloc, doc)?;
    out.push_str("b")?;
    out.push_str(number.as_str())?;
    out.push_str("x")?;
    out.push_str(digits.as_str())?;
    Ok(())
}

/// The label of a blank node: `b`, its number, `x`, and its document's link text in hexadecimal.
pub fn write_label(alloc: Global, doc: &str, n: u64) -> Result<TextBuf, Memory>
    ensures { IfOk result (λ text. text ≡ blank_label doc.now n) }
{
    let mut out = String::new(alloc);
    push_label(alloc, &mut out, doc, n)?;
    TextBuf::from_string(out)
}

/// The N-Triples form of a term (RDF 1.1 N-Triples, section 2). An IRI is written as it is. It
/// costs what it writes.
pub fn write_term(alloc: Global, term: &Term) -> Result<TextBuf, Memory>
    ensures { IfOk result (λ text. text ≡ ntriples_form term.now) }
{
    let mut out = String::new(alloc);
    match term {
        Term::Blank { doc, n } => {
            out.push_str("_:")?;
            push_label(alloc, &mut out, doc.as_str(), *n)?;
        }
        Term::Iri(iri) => push_bracketed(&mut out, iri.as_str())?,
        Term::Literal {
            datatype,
            tag,
            lexical,
        } => {
            out.push_str("\"")?;
            push_escaped_text(&mut out, lexical.as_str())?;
            out.push_str("\"")?;
            push_ending(&mut out, datatype, tag)?;
        }
    }
    TextBuf::from_string(out)
}
