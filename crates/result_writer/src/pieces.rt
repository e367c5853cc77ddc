ghost use Rattle.std.specs.Prelude.{◌≡◌, ◌<◌, ◌≤◌, ◌+◌, ◌∷◌, Bool, List, OnOk, length, drop};
ghost use Rattle.rdf_terms.specs.Lists.{IsIn};
ghost use Rattle.rows_core.specs.Rows.{Cells};
ghost use Rattle.result_writer.specs.Output.{tail_behind, piece};

use crate::format::ResultFormat;
use rdf_terms::Memory;
use rows_core::Row;
use std::alloc::Global;

/// The bytes from a place on.
pub fn bytes_from(bytes: &[u8], at: usize) -> &[u8]
    requires { at ≤ length bytes.now }
    ensures { result.now ≡ drop at bytes.now }
{
    &bytes[at..]
}

/// The row at a place.
pub fn row_at(rows: &[Row], place: usize) -> &Row
    requires { place < length rows.now }
    ensures member { IsIn rows.now result.now }
    ensures first { drop place rows.now ≡ result.now ∷ drop (place + 1) rows.now }
{
    &rows[place]
}

/// What follows a row at once, where so many more wait.
pub fn tail_after(closed: bool, left: usize) -> &'static [u8]
    ensures { (rest : List Cells) → length rest ≡ left → result.now ≡ tail_behind closed rest }
{
    if closed && left == 0 {
        ResultFormat::tail()
    } else {
        b""
    }
}

/// Makes a text that of a row, and the tail where it follows at once.
pub fn put_piece(
    alloc: Global,
    text: &mut Vec<u8>,
    format: &ResultFormat,
    row: &Row,
    first: bool,
    behind: &[u8],
) -> Result<(), Memory>
    ensures text { (closed : Bool) → (rest : List Cells) → behind.now ≡ tail_behind closed rest
        → OnOk result (text.new.items ≡ piece format.now closed first row.now rest) }
    ensures some { OnOk result (0 < length text.new.items) }
{
    text.clear();
    format.append_row(alloc, text, row, first)?;
    text.extend_from_slice(behind)?;
    Ok(())
}
