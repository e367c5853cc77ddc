ghost use Rattle.std.specs.Prelude.{◌≡◌, ◌↔◌, ◌<◌, ℕ, List, [], length, Ok, Some, None, IsTrue, IsSome, IsNone, IfOk, IfSome, IfNone, OnOk, OnErr, IfErr, slice_get};
ghost use Rattle.rdf_terms.specs.Lists.{IsIn};
ghost use Rattle.link_uri.specs.declared.link.Link.{Link as link};
ghost use Rattle.link_uri.specs.Links.{IsLink, AreLinks};
ghost use Rattle.link_queue.specs.Table.{link_at, state_at, flying, first_flying, marks, queued_links};
ghost use Rattle.link_queue.specs.declared.state.LinkState.TheVariants.{Queued, InFlight};
ghost use Rattle.result_writer.specs.Format.{result_text};
ghost use Rattle.doc_reader.specs.Outcome.{outcome_of};
ghost use Rattle.algebra_core.specs.Query.{Answers};
ghost use Rattle.traverse_core.specs.Query.{selected_names};
ghost use Rattle.rows_core.specs.Rows.{Cells};
ghost use Rattle.result_writer.specs.Output.{IsClear};
ghost use Rattle.reachability.specs.Record.{IsTraversed, IsFaithful, HasEnded, LooksUpReachable, merged_graph};
ghost use Rattle.traverse_core.specs.Run.{HasLinks, MayFind, TellsIfSure, rule_of, seeds_of};
ghost use Rattle.traverse_core.specs.State.{is_running, next_of, IsDry, MayClose};
ghost use Rattle.traverse_core.specs.Order.{IsOrdered};
ghost use Rattle.traverse_core.specs.Kept.{IsKept};
ghost use Rattle.traverse_core.specs.Steps.{Opens, DrawsOne, restated, taken, settled, WritesOut, Closes, halted_by_memory};

mod judging;

use crate::answering::answer_rows;
use crate::finished::Finished;
use crate::growing::{record_found, targets_of};
use crate::job::Job;
use crate::opening::{Start, prepare};
use crate::steps::{Drawn, Halt};
use algebra_core::Query;
use growing_graph::Graph;
use link_queue::{LinkState, LinkTable};
use link_uri::Link;
use outer_ports::Sink;
use rdf_terms::{Memory, Seq};
use reach_criteria::Criterion;
use reachability::{Entry, Found, Record};
use result_writer::{RowWriter, Written};
use rows_core::TriplePattern;
use std::alloc::Global;
use std::marker::{Model, PhantomData};

/// A traversal of the run `J`, with its output `S`. "Running" means neither halted nor closed.
#[derive(Drop)]
pub struct Traversal<J: Job, S: Sink> {
    query: Query,
    criterion: Criterion,
    patterns: Seq<TriplePattern>,
    limit: u64,
    table: LinkTable,
    entries: Vec<Entry>,
    log: Graph,
    drawn: usize,
    in_flight: u64,
    output: RowWriter<S>,
    halted: Option<Halt>,
    alloc: Global,
    of: PhantomData<J>,
}

impl<J: Job, S: Sink> Model for Traversal<J, S> {
    ghost use Rattle.traverse_core.specs.State.{State};
    ghost use Rattle.traverse_core.specs.Kept.{IsTied};

    ghost Value = { State };

    ghost view = { λ t. record { table = t.table; entries = t.entries.items; log = t.log; drawn = t.drawn; out = t.output; halted = t.halted } };

    ghost invariant = { λ t. IsTied J.run t.query t.criterion t.patterns t.limit t.in_flight (record { table = t.table; entries = t.entries.items; log = t.log; drawn = t.drawn; out = t.output; halted = t.halted }) };
}

impl<J: Job, S: Sink> Traversal<J, S> {
    /// A traversal with all seeds queued, each link once, and the head pending; rows may wait already.
    /// Without memory the sink comes back as it was.
    #[tactic(auto, using(crate::proofs::Kept::opens_with, crate::proofs::Kept::opened_flies))]
    pub fn open(
        alloc: Global,
        query: Query,
        seeds: Vec<Link>,
        criterion: Criterion,
        limit: u64,
        out: S,
    ) -> Result<Traversal<J, S>, S>
        requires valid_links { AreLinks seeds.items }
        requires query { query ≡ J.run.query }
        requires seeds { seeds.items ≡ J.run.seeds }
        requires criterion { criterion ≡ J.run.criterion }
        requires limit { limit ≡ J.run.limit }
        requires out { (S.content out ≡ J.run.content) × (S.faults out ≡ J.run.faults) }
        requires told { TellsIfSure J.run.fetch }
        ensures ok { IfOk result (Opens J.run) }
        ensures runs { IfOk result (λ t. IsTrue (is_running t)) }
        ensures landed { IfOk result (λ t. flying t.table ≡ 0) }
        ensures none { IfOk result (λ t. t.entries ≡ []) }
        ensures out { IfOk result (λ t. (t.out.content ≡ S.content out) × (t.out.faults ≡ S.faults out)) }
        ensures err { IfErr result (λ s. s ≡ out) }
    {
        match prepare(alloc, &query, seeds.as_slice()) {
            Ok(
                Start {
                    patterns,
                    format,
                    head,
                    table,
                },
            ) => {
                let entries = Vec::new(alloc);
                let log = Graph::new(alloc);
                let output = RowWriter::new(alloc, format, head, out);
                Ok(Traversal {
                    query,
                    criterion,
                    patterns,
                    limit,
                    table,
                    entries,
                    log,
                    drawn: 0,
                    in_flight: 0,
                    output,
                    halted: None,
                    alloc,
                    of: PhantomData,
                })
            }
            Err(_) => Err(out),
        }
    }

    pub(crate) fn is_running(&self) -> bool
        ensures { result ≡ is_running self.now }
    {
        !self.output.is_closed() && self.halted.is_none()
    }

    pub(crate) fn is_dry(&self) -> bool
        ensures { IsTrue result ↔ IsDry self.now }
    {
        self.drawn == self.log.len()
    }

    pub(crate) fn is_clear(&self) -> bool
        ensures { IsTrue result ↔ IsClear self.now.out }
    {
        self.output.is_clear()
    }

    pub(crate) fn state(&self, number: u64) -> Option<LinkState>
        ensures { result ≡ state_at self.now.table number }
    {
        if number < self.table.len() {
            Some(self.table.state(number))
        } else {
            None
        }
    }

    fn may_take(&self) -> bool
        ensures { result ≡ is_running self.now && nat_lt (flying self.now.table + length self.now.entries) J.run.limit }
    {
        let limit = self.limit;
        self.is_running() && self.in_flight + (self.entries.len() as u64) < limit
    }

    /// Takes the first queued link: None where the traversal doesn't run, nothing is queued, or as
    /// many as the limit are in flight and settled. No memory is taken.
    pub fn take(&mut self) -> Option<u64>
        ensures number { result ≡ next_of J.run self.old }
        ensures step { self.new ≡ taken J.run self.old }
        ensures some { IfSome result (λ number. self.new ≡ restated self.old number InFlight) }
        ensures none { IfNone result (self.new ≡ self.old) }
    {
        if !self.may_take() {
            return None;
        }
        let number = self.table.take()?;
        self.in_flight += 1;
        Some(number)
    }

    /// Whether `take` would give a number. No memory is taken.
    pub fn can_take(&self) -> bool
        ensures { IsTrue result ↔ IsSome (next_of J.run self.now) }
    {
        self.may_take() && self.table.first_queued().is_some()
    }

    /// The link of a number. No memory is taken.
    pub fn link(&self, number: u64) -> &Link
        requires { number < length self.now.table }
        ensures link { link_at self.now.table number ≡ Some result.now }
        ensures valid_links { IsLink result.now }
    {
        self.table.get(number)
    }

    /// Whether the number is in flight and its link equals the given one in all parts. No memory is
    /// taken.
    pub fn is_out(&self, number: u64, link: &Link) -> bool
        ensures { IsTrue result ↔ (slice_get self.now.table number ≡ Some (link.now, InFlight)) }
    {
        self.table.is_out(number, link)
    }

    /// The least number in flight. No memory is taken.
    pub fn first_out(&self) -> Option<u64>
        ensures first { result ≡ first_flying self.now.table }
        ensures some { IfSome result (λ number. state_at self.now.table number ≡ Some InFlight) }
        ensures least { IfSome result (λ number. (k : ℕ) → k < number → state_at self.now.table k ≢ Some InFlight) }
        ensures none { IsNone result ↔ (flying self.now.table ≡ 0) }
    {
        self.table.first_out()
    }

    /// Records what was found at a link in flight: appends the entry, logs the triples that the log
    /// lacks and queues the links that the table lacks. It costs what it adds, amortised, and a
    /// look at each triple of the document.
    #[tactic(auto, using(link_queue::proofs::Places::state_within))]
    pub fn settle(&mut self, number: u64, found: Found) -> Result<(), Memory>
        requires runs { IsTrue (is_running self.old) }
        requires out { state_at self.old.table number ≡ Some InFlight }
        requires dry { IsDry self.old }
        requires clear { IsClear self.old.out }
        requires links { HasLinks found }
        requires may { (u : link) → link_at self.old.table number ≡ Some u → MayFind J.run u found }
        ensures ok { OnOk result ((u : link) → link_at self.old.table number ≡ Some u
            → self.new ≡ settled (rule_of J.run) self.old number u.text found) }
        ensures err { OnErr result (self.new ≡ self.old) }
    {
        let links = targets_of(self.alloc, &found, self.criterion, self.patterns.as_slice())?;
        let link = self.table.get(number);
        let text = link.text.copy()?;
        record_found(
            &mut self.table,
            &mut self.log,
            &mut self.entries,
            number,
            text,
            found,
            links.as_slice(),
        )?;
        self.in_flight -= 1;
        Ok(())
    }

    /// Gives back a link in flight: it is queued again, at its place. No memory is taken.
    pub fn give_back(&mut self, number: u64)
        requires { state_at self.old.table number ≡ Some InFlight }
        ensures { self.new ≡ restated self.old number Queued }
    {
        self.table.give_back(number);
        self.in_flight -= 1;
    }

    /// Draws the next triple of the log; rows may come to wait then.
    #[tactic(auto, using(crate::proofs::RunningOn::draws_one))]
    pub fn draw(&mut self) -> Result<Drawn, Memory>
        requires { IsTrue (is_running self.old) }
        ensures dry { (result ≡ Ok Drawn.Dry) ↔ IsDry self.old }
        ensures none { result ≡ Ok Drawn.Dry → self.new ≡ self.old }
        ensures one { result ≡ Ok Drawn.One → DrawsOne self.old self.new }
        ensures err { OnErr result (self.new ≡ self.old) }
    {
        if self.drawn == self.log.len() {
            return Ok(Drawn::Dry);
        }
        self.drawn += 1;
        Ok(Drawn::One)
    }

    /// Writes one piece of the text that is pending, or else of the first row that waits: what the
    /// sink tells grows by just the bytes that leave the text. Where the sink fails the traversal is
    /// halted; only then the sink's count of faults rises. After `Memory` all is as it was.
    pub fn write(&mut self) -> Result<Written, Memory>
        requires { self.old.halted ≡ None }
        ensures step { IfOk result (λ written. WritesOut self.old self.new written) }
        ensures clear { (result ≡ Ok Written.Clear) ↔ IsClear self.old.out }
        ensures err { OnErr result (self.new ≡ self.old) }
    {
        let written = self.output.write(self.alloc)?;
        if let Written::Failed = written {
            self.halted = Some(Halt::Output);
        }
        Ok(written)
    }

    /// Halts for want of memory, where it isn't halted. No memory is taken.
    pub fn halt(&mut self)
        ensures { self.new ≡ halted_by_memory self.old }
    {
        if self.halted.is_none() {
            self.halted = Some(Halt::Memory);
        }
    }

    /// Whether and how it is halted. No memory is taken.
    pub fn halted(&self) -> Option<Halt>
        ensures { result ≡ self.now.halted }
    {
        self.halted
    }

    /// Closes: what the rows so far lack of the answers over the log waits behind them to be
    /// written, and the tail follows. It costs the evaluation of the query over the log.
    pub fn close(&mut self) -> Result<(), Memory>
        requires runs { IsTrue (is_running self.old) }
        requires may { MayClose J.run self.old }
        ensures ok { OnOk result (Closes J.run self.old self.new) }
        ensures err { OnErr result (self.new ≡ self.old) }
    {
        let rows = answer_rows(self.alloc, &self.query, &self.log)?;
        self.output.close(self.alloc, rows)?;
        Ok(())
    }

    /// Whether it is closed. No memory is taken.
    pub fn is_closed(&self) -> bool
        ensures { result ≡ self.now.out.closed }
    {
        self.output.is_closed()
    }

    /// How many links are in flight; with it a caller learns what every state keeps. No memory is
    /// taken.
    pub fn in_flight(&self) -> u64
        ensures number { result ≡ flying self.now.table }
        ensures kept { IsKept J.run self.now }
    {
        self.in_flight
    }

    /// Ends the use of a traversal with nothing in flight. No memory is taken.
    pub fn finish(self) -> Finished<S>
        requires { flying self.table ≡ 0 }
        ensures trace { (result.trace.entries ≡ self.entries) × (result.trace.queued ≡ queued_links (marks self.table)) }
        ensures traversed { IsTraversed result.trace (seeds_of J.run) (rule_of J.run) J.run.limit }
        ensures order { IsOrdered result.trace J.run.seeds (rule_of J.run) }
        ensures faithful { IfSome J.run.fetch.web (λ web. IsFaithful (outcome_of web J.run.body) result.trace) }
        ensures ended { IsTrue self.out.closed → HasEnded result.trace J.run.limit }
        // with nothing queued
        ensures reachable { result.trace.queued ≡ [] → IfSome J.run.fetch.web (λ web.
            LooksUpReachable (outcome_of web J.run.body) result.trace (seeds_of J.run) (rule_of J.run)) }
        ensures out { (S.content result.out ≡ self.out.content) × (S.faults result.out ≡ self.out.faults) }
        ensures halted { result.halted ≡ self.halted }
        // once all is written
        ensures written { IsTrue self.out.closed → IsClear self.out → (before : List ℕ) → J.run.content ≡ Some before
            → (rows : List Cells) × Answers J.run.query (merged_graph result.trace.entries) rows
            × (S.content result.out ≡ Some (before ++ result_text (selected_names J.run.query) rows)) }
        ensures kept { IsKept J.run self }
    {
        let Traversal {
            query: _,
            criterion: _,
            patterns: _,
            limit: _,
            table,
            entries,
            log: _,
            drawn: _,
            in_flight: _,
            output,
            halted,
            alloc: _,
            of: _,
        } = self;
        Finished {
            trace: Record {
                entries: Seq::from_vec(entries),
                queued: Seq::from_vec(table.into_queued()),
            },
            out: output.into_sink(),
            halted,
        }
    }
}

ghost use Rattle.std.specs.Prelude.{◌+◌, ◌++◌, ◌&&◌, ◌≢◌, nat_lt};
