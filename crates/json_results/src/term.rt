ghost use Rattle.std.specs.Prelude.{◌≡◌, ◌∷◌, ◌++◌, [], OnOk, bytes_eq, codes};
ghost use Rattle.json.specs.Token.{key, string};
ghost use Rattle.json.specs.Tree.{json_tokens};
ghost use Rattle.serde_json.specs.Data.{object};
ghost use Rattle.serde_json.specs.Written.{outline};
ghost use Rattle.rdf_terms.specs.NTriplesForm.{xsd_string};
ghost use Rattle.json_results.specs.Results as spec;

use json::Writer;
use rdf_terms::{Memory, Term, TextBuf, write_label};
use std::alloc::Global;

const XSD_STRING: &str = "http://www.w3.org/2001/XMLSchema#string";

fn is_xsd_string(datatype: &str) -> bool
    ensures { result ≡ bytes_eq datatype.now xsd_string }
{
    datatype == XSD_STRING
}

fn write_text(writer: &mut Writer, name: &str, text: &str) -> Result<(), Memory>
    ensures ok { OnOk result (writer.new.tokens ≡ writer.old.tokens ++ key name.now ∷ string text.now ∷ []) }
    ensures before { writer.new.before ≡ writer.old.before }
{
    writer.key(name)?;
    writer.string(text)?;
    Ok(())
}

fn write_type_and_value(writer: &mut Writer, kind: &str, value: &str) -> Result<(), Memory>
    ensures ok { OnOk result (writer.new.tokens ≡ writer.old.tokens ++ key (codes "type") ∷ string kind.now ∷ key (codes "value") ∷ string value.now ∷ []) }
    ensures before { writer.new.before ≡ writer.old.before }
{
    write_text(writer, "type", kind)?;
    write_text(writer, "value", value)?;
    Ok(())
}

fn write_simple(writer: &mut Writer, kind: &str, value: &str) -> Result<(), Memory>
    ensures ok { OnOk result (writer.new.tokens ≡ writer.old.tokens ++ json_tokens (outline (object (spec.type_and_value kind.now value.now)))) }
    ensures before { writer.new.before ≡ writer.old.before }
{
    writer.begin_object()?;
    write_type_and_value(writer, kind, value)?;
    writer.end_object()?;
    Ok(())
}

fn write_tagged(writer: &mut Writer, lexical: &str, tag: &str) -> Result<(), Memory>
    ensures ok { OnOk result (writer.new.tokens ≡ writer.old.tokens ++ json_tokens (outline (object (spec.tagged_members lexical.now tag.now)))) }
    ensures before { writer.new.before ≡ writer.old.before }
{
    writer.begin_object()?;
    write_type_and_value(writer, "literal", lexical)?;
    write_text(writer, "xml:lang", tag)?;
    writer.end_object()?;
    Ok(())
}

fn write_typed(writer: &mut Writer, lexical: &str, datatype: &str) -> Result<(), Memory>
    ensures ok { OnOk result (writer.new.tokens ≡ writer.old.tokens ++ json_tokens (outline (object (spec.typed_members datatype.now lexical.now)))) }
    ensures before { writer.new.before ≡ writer.old.before }
{
    writer.begin_object()?;
    write_text(writer, "datatype", datatype)?;
    write_type_and_value(writer, "literal", lexical)?;
    writer.end_object()?;
    Ok(())
}

fn write_literal(
    writer: &mut Writer,
    datatype: &str,
    tag: &Option<TextBuf>,
    lexical: &str,
) -> Result<(), Memory>
    ensures ok { OnOk result (writer.new.tokens ≡ writer.old.tokens ++ json_tokens (outline (object (spec.literal_members datatype.now tag.now lexical.now)))) }
    ensures before { writer.new.before ≡ writer.old.before }
{
    match tag {
        Some(tag) => write_tagged(writer, lexical, tag.as_str()),
        None => {
            if is_xsd_string(datatype) {
                write_simple(writer, "literal", lexical)
            } else {
                write_typed(writer, lexical, datatype)
            }
        }
    }
}

/// Writes a term as JSON. Of the terms only a blank node takes memory beside the writer's, for its
/// label.
pub fn write_term(alloc: Global, writer: &mut Writer, term: &Term) -> Result<(), Memory>
    ensures ok { OnOk result (writer.new.tokens ≡ writer.old.tokens ++ json_tokens (outline (spec.term_data term.now))) }
    ensures before { writer.new.before ≡ writer.old.before }
{
    match term {
        Term::Iri(text) => write_simple(writer, "uri", text.as_str()),
        Term::Blank { doc, n } => {
            let label = write_label(alloc, doc.as_str(), *n)?;
            write_simple(writer, "bnode", label.as_str())
        }
        Term::Literal {
            datatype,
            tag,
            lexical,
        } => write_literal(writer, datatype.as_str(), tag, lexical.as_str()),
    }
}
