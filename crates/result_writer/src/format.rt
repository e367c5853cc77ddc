ghost use Rattle.std.specs.Prelude.{◌≡◌, ◌++◌, IfOk, OnOk, OnErr};
ghost use Rattle.result_writer.specs.Format as spec;

use json_results::{Columns, append_row, tail};
use rdf_terms::{Memory, TextBuf};
use rows_core::Row;
use std::alloc::Global;
use std::marker::Model;

/// The format that results are written in, for the names of the selected variables: the SPARQL 1.1
/// Query Results JSON Format. Another format is another body of these calls, with `specs/Format.antt`.
#[derive(Drop)]
pub struct ResultFormat {
    columns: Columns,
}

impl Model for ResultFormat {
    ghost use Rattle.std.specs.Prelude.{List, ℕ};

    ghost Value = { List (List ℕ) };

    ghost view = { λ f. f.columns };
}

impl ResultFormat {
    /// The format of results with these columns, which may repeat. It costs a comparison of each two
    /// names.
    pub fn new(alloc: Global, names: &[TextBuf]) -> Result<ResultFormat, Memory>
        ensures { IfOk result (λ format. format ≡ names.now) }
    {
        let columns = Columns::new(alloc, names)?;
        Ok(ResultFormat { columns })
    }

    /// The text in front of the rows.
    pub fn head(&self, alloc: Global) -> Result<Vec<u8>, Memory>
        ensures { IfOk result (λ text. text.items ≡ spec.head_text self.now) }
    {
        self.columns.head(alloc)
    }

    /// Appends the text of a row, which has a cell for each column. After `Memory` the text is as it
    /// was.
    pub fn append_row(
        &self,
        alloc: Global,
        text: &mut Vec<u8>,
        row: &Row,
        first: bool,
    ) -> Result<(), Memory>
        ensures ok { OnOk result (text.new.items ≡ text.old.items ++ spec.row_text self.now row.now first) }
        ensures err { OnErr result (text.new.items ≡ text.old.items) }
    {
        append_row(alloc, text, &self.columns, row.cells(), first)
    }

    /// The text behind the rows. No memory is taken.
    pub fn tail() -> &'static [u8]
        ensures { result.now ≡ spec.tail_text }
    {
        tail()
    }
}
