ghost use Rattle.std.specs.Prelude.{◌≡◌, ◌++◌, IfOk, OnOk, map, codes, ◌==◌, if◌then◌else◌};
ghost use Rattle.std.specs.List.{join_with_byte};
ghost use Rattle.json.specs.Print.{quoted};
ghost use Rattle.json_results.specs.Results.{head_text, tail_text};

use rdf_terms::{ByteBuf, Memory, TextBuf};
use serde_json::Value;
use std::alloc::Global;

fn quoted_text(alloc: Global, text: &str) -> Result<ByteBuf, Memory>
    ensures { IfOk result (λ bytes. bytes ≡ quoted text.now) }
{
    let value = Value::String(String::from_str(alloc, text)?);
    let bytes = value.to_vec(alloc)?;
    Ok(ByteBuf::from_vec(bytes))
}

fn separator(place: usize) -> &'static [u8]
    ensures { result.now ≡ (if place == 0 then codes "" else codes ",") }
{
    if place == 0 { b"" } else { b"," }
}

fn quoted_names(alloc: Global, names: &[TextBuf]) -> Result<ByteBuf, Memory>
    ensures { IfOk result (λ bytes. bytes ≡ join_with_byte 44 (map quoted names.now)) }
{
    let mut all = ByteBuf::new(alloc);
    for i in 0..names.len() {
        all.extend(separator(i))?;
        all.extend(quoted_text(alloc, names[i].as_str())?.as_slice())?;
    }
    Ok(all)
}

/// The text in front of the rows, as `head`, in a vector to which rows can be appended.
pub(crate) fn head_bytes(alloc: Global, names: &[TextBuf]) -> Result<Vec<u8>, Memory>
    ensures { IfOk result (λ text. text.items ≡ head_text names.now) }
{
    let mut text = Vec::from_slice(alloc, b"{\"head\":{\"vars\":[")?;
    text.extend_from_slice(quoted_names(alloc, names)?.as_slice())?;
    text.extend_from_slice(b"]},\"results\":{\"bindings\":[")?;
    Ok(text)
}

/// The text in front of the rows: it names the selected variables, in their order.
pub fn head(alloc: Global, names: &[TextBuf]) -> Result<ByteBuf, Memory>
    ensures { IfOk result (λ text. text ≡ head_text names.now) }
{
    Ok(ByteBuf::from_vec(head_bytes(alloc, names)?))
}

/// The text behind the rows.
pub fn tail() -> &'static [u8]
    ensures { result.now ≡ tail_text }
{
    b"\n]}}\n"
}
