ghost use Rattle.std.specs.Prelude.{◌≡◌, ◌++◌, ◌∷◌, [], OnOk, OnErr, IfOk, Some};
ghost use Rattle.rdf_terms.specs.Lists.{add_all};
ghost use Rattle.rdf_terms.specs.Same.{same_triple};
ghost use Rattle.link_uri.specs.Links.{IsLink, AreLinks};
ghost use Rattle.link_queue.specs.Table.{queue_all, state_at, with_state};
ghost use Rattle.link_queue.specs.declared.state.LinkState.TheVariants.{InFlight, Settled};
ghost use Rattle.reachability.specs.Record.{found_triples};
ghost use Rattle.traverse_core.specs.Run.{HasLinks, targets};

use growing_graph::Graph;
use link_queue::LinkTable;
use link_uri::Link;
use rdf_terms::{Memory, TextBuf, Triple};
use reach_criteria::{Criterion, links_of};
use reachability::{Entry, Found, Outcome};
use rows_core::TriplePattern;
use std::alloc::Global;

fn triples_in(found: &Found) -> &[Triple]
    ensures { result.now ≡ found_triples found.now }
{
    match found {
        Found::Outcome(Outcome::Document(triples)) => triples.as_slice(),
        _ => &[],
    }
}

pub(crate) fn one_link(alloc: Global, link: &Link) -> Result<Vec<Link>, Memory>
    requires { IsLink link.now }
    ensures links { IfOk result (λ links. links.items ≡ link.now ∷ []) }
    ensures valid_links { IfOk result (λ links. AreLinks links.items) }
{
    let mut links = Vec::new(alloc);
    links.push(link.copy()?)?;
    Ok(links)
}

/// The links that what was found leads to, each once, in order of first appearance.
pub fn targets_of(
    alloc: Global,
    found: &Found,
    criterion: Criterion,
    patterns: &[TriplePattern],
) -> Result<Vec<Link>, Memory>
    requires { HasLinks found.now }
    ensures links { IfOk result (λ links. links.items
        ≡ targets (record { criterion = criterion; patterns = patterns.now }) found.now) }
    ensures valid_links { IfOk result (λ links. AreLinks links.items) }
{
    match found {
        Found::Outcome(Outcome::Document(triples)) => {
            links_of(alloc, triples.as_slice(), criterion, patterns)
        }
        Found::Outcome(Outcome::Moved(link)) => one_link(alloc, link),
        _ => Ok(Vec::new(alloc)),
    }
}

// Queues the links and logs the triples, or changes nothing.
#[tactic(auto, using(link_queue::proofs::Growth::take_queue_all, link_queue::proofs::Growth::le_queue_all))]
fn grow(
    table: &mut LinkTable,
    log: &mut Graph,
    links: &[Link],
    triples: &[Triple],
) -> Result<(), Memory>
    requires { AreLinks links.now }
    ensures table { OnOk result (table.new ≡ queue_all table.old links.now) }
    ensures log { OnOk result (log.new ≡ add_all same_triple log.old triples.now) }
    ensures table_err { OnErr result (table.new ≡ table.old) }
    ensures log_err { OnErr result (log.new ≡ log.old) }
{
    let queued = table.len();
    table.extend(links)?;
    match log.extend(triples) {
        Ok(()) => Ok(()),
        Err(error) => {
            table.shorten(queued);
            Err(error)
        }
    }
}

fn push_entry(entries: &mut Vec<Entry>, entry: Entry) -> Result<(), Memory>
    ensures ok { OnOk result (entries.new.items ≡ entries.old.items ++ entry ∷ []) }
    ensures err { OnErr result (entries.new.items ≡ entries.old.items) }
{
    entries.push(entry)?;
    Ok(())
}

/// Settles the link in flight: queues the links, logs the triples and appends the entry, or changes
/// nothing. All growth comes first.
#[tactic(auto, using(link_queue::proofs::Growth::take_queue_all, link_queue::proofs::Growth::le_queue_all, link_queue::proofs::Growth::state_grown, growing_graph::proofs::Logging::take_log, growing_graph::proofs::Logging::le_log))]
pub fn record_found(
    table: &mut LinkTable,
    log: &mut Graph,
    entries: &mut Vec<Entry>,
    number: u64,
    text: TextBuf,
    found: Found,
    links: &[Link],
) -> Result<(), Memory>
    requires out { state_at table.old number ≡ Some InFlight }
    requires valid_links { AreLinks links.now }
    ensures table { OnOk result (table.new ≡ with_state (queue_all table.old links.now) number Settled) }
    ensures log { OnOk result (log.new ≡ add_all same_triple log.old (found_triples found)) }
    ensures entries { OnOk result (entries.new.items ≡ entries.old.items ++ record { link = text; found = found } ∷ []) }
    ensures table_err { OnErr result (table.new ≡ table.old) }
    ensures log_err { OnErr result (log.new ≡ log.old) }
    ensures entries_err { OnErr result (entries.new.items ≡ entries.old.items) }
{
    let queued = table.len();
    let logged = log.len();
    grow(table, log, links, triples_in(&found))?;
    match push_entry(entries, Entry { link: text, found }) {
        Ok(()) => {
            table.settle(number);
            Ok(())
        }
        Err(error) => {
            table.shorten(queued);
            log.shorten(logged);
            Err(error)
        }
    }
}
