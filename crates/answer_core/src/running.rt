//! A run over a site: look-ups, answers, and how it ended.
ghost use Rattle.std.specs.Prelude.{◌≡◌, ◌<◌, [], None, IsTrue};
ghost use Rattle.link_uri.specs.Links.{AreLinks};
ghost use Rattle.link_queue.specs.Table.{flying};
ghost use Rattle.web_port.specs.SiteWeb.{site_fetch};
ghost use Rattle.traverse_core.specs.State.{is_running};
ghost use Rattle.traverse_core.specs.Alone.{Serves};
ghost use Rattle.answer_core.specs.Headline.{StatusEvidence};
ghost use Rattle.answer_core.specs.Running.{BeforeReport, TaskRead, RunRead, task_of, ran_status, writing};

use crate::Status;
use crate::status::ended_status;
use crate::task::Task;
use outer_ports::Sink;
use reachability::Record;
use site_core::Site;
use std::alloc::Global;
use std::marker::Brand;
use traverse_core::{Job, Ran, Traversal};
use web_port::{FetchSettings, Fetcher, Links, SiteLinks};

/// The status of a run; its record, where links were looked up or might have been; and the sink
/// that it wrote to.
#[derive(Drop)]
pub struct Answer<S> {
    pub status: Status,
    pub trace: Option<Record>,
    pub out: S,
}

const LANES: u16 = 8;

fn settings(tries: u8, body: u64) -> FetchSettings
    ensures { (result.lanes ≡ 8) × (result.tries ≡ tries) × (result.body ≡ body) × (result.via ≡ None) }
{
    FetchSettings {
        lanes: LANES,
        tries,
        body,
        via: None,
    }
}

/// An answer without a record.
pub(crate) fn without_record<S>(status: Status, out: S) -> Answer<S>
    ensures { (result.status ≡ status) × (result.trace ≡ None) × (result.out ≡ out) }
{
    Answer {
        status,
        trace: None,
        out,
    }
}

fn status_of(ran: Ran, trace: &Record) -> Status
    ensures { result ≡ ran_status ran trace.now }
{
    match ran {
        Ran::Done => ended_status(trace),
        Ran::Output => Status::Output,
        Ran::Memory => Status::Memory,
    }
}

fn run_to_end<J: Job, S: Sink, F: Fetcher>(
    run: Traversal<J, S>,
    fetcher: &mut F,
    body: u64,
) -> Answer<S>
    requires runs { IsTrue (is_running run) }
    requires landed { flying run.table ≡ 0 }
    requires idle { (F.port fetcher.old).flights ≡ [] }
    requires serves { Serves J.run (F.fetch fetcher.old) }
    requires body { body ≡ J.run.body }
    requires faults { J.run.faults ≡ run.out.faults }
    ensures { StatusEvidence writing (λ t. t ≡ task_of J.run) (BeforeReport (RunRead J.run)) result.trace
        (record { bytes = J.run.content; faults = J.run.faults }) (record { bytes = S.content result.out; faults = S.faults result.out }) result.status }
{
    let mut run = run;
    let ran = run.run_alone(fetcher, body);
    let finished = run.finish();
    let status = status_of(ran, &finished.trace);
    Answer {
        status,
        trace: Some(finished.trace),
        out: finished.out,
    }
}

fn run_named<J: Job, S: Sink>(alloc: Global, task: Task, site: Site, out: S) -> Answer<S>
    requires valid_links { AreLinks task.seeds }
    requires tries { 0 < task.tries }
    requires task { task ≡ task_of J.run }
    requires fetch { J.run.fetch ≡ site_fetch site task.tries }
    requires out { (S.content out ≡ J.run.content) × (S.faults out ≡ J.run.faults) }
    ensures { StatusEvidence (record { bytes = S.content; faults = S.faults }) (λ t. t ≡ task)
        (BeforeReport (TaskRead task site)) result.trace out result.out result.status }
{
    let Ok(links) = SiteLinks::new(alloc, site) else {
        return without_record(Status::Memory, out);
    };
    let mut links = links;
    let Task {
        query,
        seeds,
        criterion,
        limit,
        body,
        tries,
    } = task;
    let Ok(fetcher) = links.fetcher(&settings(tries, body)) else {
        return without_record(Status::Memory, out);
    };
    let mut fetcher = fetcher;
    match Traversal::<J, S>::open(alloc, query, seeds.into_vec(), criterion, limit, out) {
        Ok(run) => {
            let answer = run_to_end(run, &mut fetcher, body);
            links.retire(fetcher);
            answer
        }
        Err(out) => {
            links.retire(fetcher);
            without_record(Status::Memory, out)
        }
    }
}

/// Looks up links in the site and writes the answers.
pub(crate) fn run_task<S: Sink>(alloc: Global, task: Task, site: Site, out: S) -> Answer<S>
    requires valid_links { AreLinks task.seeds }
    requires tries { 0 < task.tries }
    ensures { StatusEvidence (record { bytes = S.content; faults = S.faults }) (λ t. t ≡ task)
        (BeforeReport (TaskRead task site)) result.trace out result.out result.status }
{
    run_named::<Brand, S>(alloc, task, site, out)
}
