ghost use Rattle.std.specs.Prelude.{◌≡◌, [], IfOk, map, slice_get, unwrap_or};
ghost use Rattle.link_uri.specs.Links.{AreLinks};
ghost use Rattle.link_queue.specs.Table.{queue_all};
ghost use Rattle.result_writer.specs.Format.{head_text};
ghost use Rattle.traverse_core.specs.Query.{patterns_of};
ghost use Rattle.traverse_core.specs.Query as spec;

use algebra_core::{Query, patterns};
use link_queue::LinkTable;
use link_uri::Link;
use rdf_terms::{Memory, Seq, TextBuf};
use result_writer::ResultFormat;
use rows_core::TriplePattern;
use std::alloc::Global;

/// What an opened traversal needs memory for.
#[derive(Drop)]
pub struct Start {
    pub patterns: Seq<TriplePattern>,
    pub format: ResultFormat,
    pub head: Vec<u8>,
    pub table: LinkTable,
}

fn copy_name(alloc: Global, names: &[TextBuf], number: usize) -> Result<TextBuf, Memory>
    ensures { IfOk result (λ name. name ≡ unwrap_or (slice_get names.now number) []) }
{
    if number < names.len() {
        names[number].copy()
    } else {
        TextBuf::from_str(alloc, "")
    }
}

fn names_at(alloc: Global, names: &[TextBuf], select: &[u16]) -> Result<Vec<TextBuf>, Memory>
    ensures { IfOk result (λ selected. selected.items
        ≡ map (λ number. unwrap_or (slice_get names.now number) []) select.now) }
{
    let mut selected = Vec::new(alloc);
    for number in select {
        selected.push(copy_name(alloc, names, *number as usize)?)?;
    }
    Ok(selected)
}

fn selected_names(alloc: Global, query: &Query) -> Result<Vec<TextBuf>, Memory>
    ensures { IfOk result (λ selected. selected.items ≡ spec.selected_names query.now) }
{
    names_at(alloc, query.names.as_slice(), query.select.as_slice())
}

/// The patterns and the names of the query, the head of its results, and the seeds, queued.
pub fn prepare(alloc: Global, query: &Query, seeds: &[Link]) -> Result<Start, Memory>
    requires { AreLinks seeds.now }
    ensures patterns { IfOk result (λ start. start.patterns ≡ patterns_of query.now) }
    ensures names { IfOk result (λ start. start.format ≡ spec.selected_names query.now) }
    ensures head { IfOk result (λ start. start.head.items ≡ head_text (spec.selected_names query.now)) }
    ensures table { IfOk result (λ start. start.table ≡ queue_all [] seeds.now) }
{
    let patterns = patterns(alloc, query)?;
    let names = selected_names(alloc, query)?;
    let format = ResultFormat::new(alloc, names.as_slice())?;
    let head = format.head(alloc)?;
    let mut table = LinkTable::new(alloc);
    table.extend(seeds)?;
    Ok(Start {
        patterns,
        format,
        head,
        table,
    })
}
