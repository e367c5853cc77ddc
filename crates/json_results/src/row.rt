ghost use Rattle.std.specs.Prelude.{◌≡◌, ◌++◌, IfOk, OnOk, OnErr, codes, if◌then◌else◌};
ghost use Rattle.json.specs.Tree.{json_tokens};
ghost use Rattle.serde_json.specs.Data.{object, no_members};
ghost use Rattle.serde_json.specs.Written.{outline};
ghost use Rattle.json_results.specs.Columns.{cell_tokens, cell_of, columns_members};
ghost use Rattle.json_results.specs.Columns as columns;
ghost use Rattle.json_results.specs.Results as spec;

use crate::columns::{Column, Columns};
use crate::term::write_term;
use json::Writer;
use rdf_terms::{ByteBuf, Memory, Term, TextBuf};
use std::alloc::Global;
use std::mem;

fn write_cell(
    alloc: Global,
    writer: &mut Writer,
    column: &Column,
    cells: &[Option<Term>],
) -> Result<(), Memory>
    ensures ok { OnOk result (writer.new.tokens ≡ writer.old.tokens ++ cell_tokens column.now.name (cell_of column.now cells.now)) }
    ensures before { writer.new.before ≡ writer.old.before }
{
    match column.term(cells) {
        Some(term) => {
            writer.key(column.name())?;
            write_term(alloc, writer, term)
        }
        None => Ok(()),
    }
}

fn write_columns(
    alloc: Global,
    writer: &mut Writer,
    columns: &[Column],
    cells: &[Option<Term>],
) -> Result<(), Memory>
    ensures ok { OnOk result (writer.new.tokens ≡ writer.old.tokens ++ json_tokens (outline (object (columns_members columns.now cells.now)))) }
    ensures before { writer.new.before ≡ writer.old.before }
{
    writer.begin_object()?;
    for i in 0..columns.len() {
        write_cell(alloc, writer, &columns[i], cells)?;
    }
    writer.end_object()?;
    Ok(())
}

fn write_row(
    alloc: Global,
    writer: &mut Writer,
    columns: &Columns,
    cells: &[Option<Term>],
) -> Result<(), Memory>
    ensures ok { OnOk result (writer.new.tokens ≡ writer.old.tokens ++ json_tokens (outline (object (spec.row_members columns.now cells.now no_members)))) }
    ensures before { writer.new.before ≡ writer.old.before }
{
    write_columns(alloc, writer, columns.in_order(), cells)?;
    Ok(())
}

fn before_row(first: bool) -> &'static [u8]
    ensures { result.now ≡ (if first then codes "\n" else codes ",\n") }
{
    if first { b"\n" } else { b",\n" }
}

/// Appends the text of a row: what parts it from the row before it, or from the head where it is the
/// `first`, and its JSON object. Each column has its cell. Keys stand in ascending order of their
/// bytes, and an unbound cell has none.
///
/// It takes the memory by which the text grows, and a blank node's label while that is written.
/// After `Memory` the text is as it was.
pub fn append_row(
    alloc: Global,
    text: &mut Vec<u8>,
    columns: &Columns,
    cells: &[Option<Term>],
    first: bool,
) -> Result<(), Memory>
    ensures ok { OnOk result (text.new.items ≡ text.old.items ++ spec.row_text columns.now cells.now first) }
    ensures err { OnErr result (text.new.items ≡ text.old.items) }
{
    let held = text.len();
    text.extend_from_slice(before_row(first))?;
    let mut writer = Writer::new(mem::replace(text, Vec::new(alloc)));
    let written = write_row(alloc, &mut writer, columns, cells);
    *text = writer.into_inner();
    match written {
        Ok(()) => Ok(()),
        Err(Memory) => {
            text.truncate(held);
            Err(Memory)
        }
    }
}

/// The text of a row, as `append_row` appends it. `names` are those of the selected variables, which
/// are put in order for this row alone.
pub fn row_text(
    alloc: Global,
    names: &[TextBuf],
    cells: &[Option<Term>],
    first: bool,
) -> Result<ByteBuf, Memory>
    ensures { IfOk result (λ text. text ≡ spec.row_text names.now cells.now first) }
{
    let columns = Columns::new(alloc, names)?;
    let mut text = Vec::new(alloc);
    append_row(alloc, &mut text, &columns, cells, first)?;
    Ok(ByteBuf::from_vec(text))
}
