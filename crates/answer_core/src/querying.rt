//! The query of the words, and the run that it asks for.
ghost use Rattle.std.specs.Prelude.{◌≡◌, ◌<◌};
ghost use Rattle.link_uri.specs.Links.{AreLinks};
ghost use Rattle.answer_core.specs.Task.{IsTaskOf, task_with};
ghost use Rattle.answer_core.specs.Headline.{IsWebOfSite, StatusEvidence, WebRead};
ghost use Rattle.answer_core.specs.Running.{BeforeReport, fault_status};

use crate::running::{Answer, run_task, without_record};
use crate::task::Task;
use crate::{QueryWhy, Status};
use algebra_core::Query;
use command_words::Settings;
use outer_ports::Sink;
use site_core::Site;
use sparql_parser::{MOST_BYTES, QueryFault, read_query};
use std::alloc::Global;

fn status_of(fault: QueryFault) -> Status
    ensures { result ≡ fault_status fault }
{
    match fault {
        QueryFault::Syntax { at } => Status::Query {
            at,
            why: QueryWhy::Syntax,
        },
        QueryFault::Unsupported { at } => Status::Query {
            at,
            why: QueryWhy::Unsupported,
        },
        QueryFault::Deep { at } => Status::Query {
            at,
            why: QueryWhy::Deep,
        },
        QueryFault::LongQuery => Status::Query {
            at: MOST_BYTES,
            why: QueryWhy::Long,
        },
        QueryFault::Memory => Status::Memory,
    }
}

fn with_query(settings: Settings, query: Query) -> Task
    ensures { result ≡ task_with settings query }
{
    Task {
        query,
        seeds: settings.seeds,
        criterion: settings.criterion,
        limit: settings.limit,
        body: settings.fetch.body,
        tries: settings.fetch.tries,
    }
}

/// Reads the query, and runs it over the site.
pub(crate) fn answer_query<S: Sink>(
    alloc: Global,
    settings: Settings,
    site: Site,
    out: S,
) -> Answer<S>
    requires valid_links { AreLinks settings.seeds }
    requires tries { 0 < settings.fetch.tries }
    ensures { StatusEvidence (record { bytes = S.content; faults = S.faults }) (IsTaskOf settings)
        (BeforeReport (WebRead settings (IsWebOfSite site))) result.trace out result.out result.status }
{
    match read_query(alloc, settings.query.as_str()) {
        Ok(query) => run_task(alloc, with_query(settings, query), site, out),
        Err(fault) => without_record(status_of(fault), out),
    }
}
