ghost use Rattle.std.specs.Prelude.{◌≡◌, ◌<◌, ◌≤◌, ◌↔◌, ◌∷◌, [], List, length, drop, IsTrue, OnOk, OnErr, IfOk, Ok, true, false};
ghost use Rattle.rdf_terms.specs.Lists.{IsIn};
ghost use Rattle.rows_core.specs.Rows.{Cells};
ghost use Rattle.result_writer.specs.Output.{IsClear, Writes, closed_by};

use crate::format::ResultFormat;
use crate::pieces::{bytes_from, put_piece, row_at, tail_after};
use crate::written::Written;
use outer_ports::{Sink, Wrote};
use rdf_terms::Memory;
use rows_core::Row;
use std::alloc::Global;
use std::marker::Model;

/// A sink, the rows that go to it, and the text that is not yet written.
#[derive(Drop)]
pub struct RowWriter<S: Sink> {
    format: ResultFormat,
    rows: Vec<Row>,
    // so many rows became text
    handed: usize,
    // the head, and then each row in turn
    text: Vec<u8>,
    // so much of the text is written
    at: usize,
    closed: bool,
    sink: S,
}

impl<S: Sink> Model for RowWriter<S> {
    ghost use Rattle.std.specs.Prelude.{drop};
    ghost use Rattle.result_writer.specs.Output.{Output, IsOutput};

    ghost Value = { Output };

    ghost view = { λ w. record { names = w.format; rows = w.rows.items; handed = w.handed; pending = drop w.at w.text.items; closed = w.closed; content = S.content w.sink; faults = S.faults w.sink } };

    ghost invariant = { λ w. IsOutput w.format w.rows.items w.handed w.at w.text.items };
}

impl<S: Sink> RowWriter<S> {
    /// A writer of results in this format, whose head is pending. No memory is taken.
    pub fn new(alloc: Global, format: ResultFormat, head: Vec<u8>, sink: S) -> RowWriter<S>
        ensures { result ≡ record { names = format; rows = []; handed = 0; pending = head.items; closed = false; content = S.content sink; faults = S.faults sink } }
    {
        RowWriter {
            format,
            rows: Vec::new(alloc),
            handed: 0,
            text: head,
            at: 0,
            closed: false,
            sink,
        }
    }

    /// Whether no text is pending and no row waits. No memory is taken.
    pub fn is_clear(&self) -> bool
        ensures { IsTrue result ↔ IsClear self.now }
    {
        self.at == self.text.len() && self.handed == self.rows.len()
    }

    /// Whether no more rows come. No memory is taken.
    pub fn is_closed(&self) -> bool
        ensures { result ≡ self.now.closed }
    {
        self.closed
    }

    // Writes of the text that is pending.
    fn write_text(&mut self) -> Result<Written, Memory>
        requires { 0 < length self.old.pending }
        ensures step { IfOk result (λ written. Writes self.old self.new written) }
        ensures some { result ≡ Ok Written.Clear → ⊥ }
        ensures err { OnErr result (self.new ≡ self.old) }
    {
        match self.sink.write(bytes_from(self.text.as_slice(), self.at)) {
            Wrote::Took(count) => {
                self.at += count;
                Ok(Written::Wrote)
            }
            Wrote::Failed => Ok(Written::Failed),
            Wrote::Memory => Err(Memory),
        }
    }

    // Makes the first row that waits text, in the room of the text before it, and writes of it.
    fn write_row(&mut self, alloc: Global) -> Result<Written, Memory>
        requires none { self.old.pending ≡ [] }
        requires waits { self.old.handed < length self.old.rows }
        ensures step { IfOk result (λ written. Writes self.old self.new written) }
        ensures some { result ≡ Ok Written.Clear → ⊥ }
        ensures err { OnErr result (self.new ≡ self.old) }
    {
        let handed = self.handed;
        let behind = tail_after(self.closed, self.rows.len() - handed - 1);
        let made = put_piece(
            alloc,
            &mut self.text,
            &self.format,
            row_at(self.rows.as_slice(), handed),
            handed == 0,
            behind,
        );
        self.at = self.text.len();
        made?;
        match self.sink.write(self.text.as_slice()) {
            Wrote::Took(count) => {
                self.at = count;
                self.handed = handed + 1;
                Ok(Written::Wrote)
            }
            Wrote::Failed => Ok(Written::Failed),
            Wrote::Memory => Err(Memory),
        }
    }

    /// Writes one piece: of the text that is pending, or else of the first row that waits. The
    /// sink's count of faults rises only with `Failed`; after `Memory` all is as it was.
    pub fn write(&mut self, alloc: Global) -> Result<Written, Memory>
        ensures step { IfOk result (λ written. Writes self.old self.new written) }
        ensures clear { (result ≡ Ok Written.Clear) ↔ IsClear self.old }
        ensures err { OnErr result (self.new ≡ self.old) }
    {
        if self.at < self.text.len() {
            return self.write_text();
        }
        if self.handed < self.rows.len() {
            return self.write_row(alloc);
        }
        Ok(Written::Clear)
    }

    /// Adds the last rows, behind those that were handed on; the tail follows them. It costs at most
    /// a move of all rows.
    pub fn close(&mut self, alloc: Global, more: Vec<Row>) -> Result<(), Memory>
        requires clear { IsClear self.old }
        requires wide { (row : Cells) → IsIn more.items row → length self.old.names ≡ length row }
        ensures ok { OnOk result (self.new ≡ closed_by self.old more.items) }
        ensures err { OnErr result (self.new ≡ self.old) }
    {
        let mut more = more;
        let text = Vec::from_slice(alloc, tail_after(true, more.len()))?;
        self.rows.append(&mut more)?;
        self.text = text;
        self.at = 0;
        self.closed = true;
        Ok(())
    }

    /// The sink. No memory is taken.
    pub fn into_sink(self) -> S
        ensures content { S.content result ≡ self.content }
        ensures faults { S.faults result ≡ self.faults }
    {
        let RowWriter {
            format: _,
            rows: _,
            handed: _,
            text: _,
            at: _,
            closed: _,
            sink,
        } = self;
        sink
    }
}
