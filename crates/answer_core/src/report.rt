//! The report of a run.
ghost use Rattle.std.specs.Prelude.{◌≡◌, ◌≢◌, IfOk, None, codes};
ghost use Rattle.std.specs.Option.{option_copied};
ghost use Rattle.outer_ports.specs.Causes.{Rose};
ghost use Rattle.answer_core.specs.Headline.{CountsFaults, NoMemory, Reported, StatusMatchesRecord, Unreported, class_of};
ghost use Rattle.answer_core.specs.ReportText.{IsGiven, IsReportText, told_code as code_told};
ghost use Rattle.answer_core.specs.Reported.{IsLineOf, IsTextOf};
ghost use Rattle.answer_core.specs.Running.{Is, StatusAfterReport, WroteReport, report_fails};
ghost use Rattle.answer_core.specs.Reported as spec;
ghost use Rattle.answer_core.specs.Running as running;

use crate::status::ended_status;
use crate::{QueryWhy, Status};
use outer_ports::{Sink, SinkFault, write_all};
use rdf_terms::{ByteBuf, Memory};
use reachability::Record;
use run_report::record_report;
use std::alloc::Global;

const MEMORY_LINE: &[u8] = b"status 10 memory\n";

const USAGE_LINES: &[u8] =
    b"status 2 usage\nltq site [OPTIONS] QUERY SEED...\nltq web [OPTIONS] QUERY SEED...\nltq self [OPTIONS] N\n";

fn site_line(alloc: Global, at: usize) -> Result<ByteBuf, Memory>
    ensures { IfOk result (λ text. text ≡ spec.site_line at) }
{
    let mut text = ByteBuf::from_slice(alloc, b"status 6 site at ")?;
    let digits = at.to_string(alloc)?;
    text.extend(digits.as_bytes())?;
    text.extend(b"\n")?;
    Ok(text)
}

fn why_word(why: QueryWhy) -> &'static [u8]
    ensures { result.now ≡ spec.why_word why }
{
    match why {
        QueryWhy::Syntax => b"syntax",
        QueryWhy::Unsupported => b"unsupported",
        QueryWhy::Deep => b"deep",
        QueryWhy::Long => b"long",
    }
}

fn query_line(alloc: Global, at: usize, why: QueryWhy) -> Result<ByteBuf, Memory>
    ensures { IfOk result (λ text. text ≡ spec.query_line at why) }
{
    let mut text = ByteBuf::from_slice(alloc, b"status 5 query at ")?;
    let digits = at.to_string(alloc)?;
    text.extend(digits.as_bytes())?;
    text.extend(b" ")?;
    text.extend(why_word(why))?;
    text.extend(b"\n")?;
    Ok(text)
}

// The report of a run without a record.
fn line_of(alloc: Global, status: Status) -> Result<ByteBuf, Memory>
    requires { StatusMatchesRecord status None }
    ensures { IfOk result (IsLineOf status) }
{
    match status {
        Status::Usage => ByteBuf::from_slice(alloc, USAGE_LINES),
        Status::Query { at, why } => query_line(alloc, at, why),
        Status::Site { at } => site_line(alloc, at),
        Status::Input => ByteBuf::from_slice(alloc, b"status 7 input\n"),
        Status::Memory => ByteBuf::from_slice(alloc, MEMORY_LINE),
        Status::NotBuilt => ByteBuf::from_slice(alloc, b"status 12 not built\n"),
        Status::Ok | Status::Partial | Status::Limit | Status::Output | Status::Report =>
            unreachable!(),
    }
}

fn text_of(alloc: Global, status: Status, trace: &Option<Record>) -> Result<ByteBuf, Memory>
    requires { StatusMatchesRecord status trace.now }
    ensures { IfOk result (IsTextOf status trace.now) }
{
    match trace {
        Some(trace) => record_report(alloc, status.code(), trace),
        None => line_of(alloc, status),
    }
}

// The code that the text of a run's report names: with a report that failed that of the run's end.
fn told_code(status: Status, trace: &Record) -> u8
    ensures { result ≡ code_told status trace.now }
{
    match status {
        Status::Report => ended_status(trace).code(),
        _ => status.code(),
    }
}

/// The text of the report (docs/FORMATS.md, "Report") of a status, and of the record of its run. With
/// `Memory` it is one constant line; with `Report` it names the code of the run's end. It costs a
/// line for each failed link and the sorting of those.
pub fn report_text(
    alloc: Global,
    status: &Status,
    trace: Option<&Record>,
) -> Result<ByteBuf, Memory>
    requires given { IsGiven status.now (option_copied trace) }
    ensures value { IfOk result (λ text. IsReportText status.now (option_copied trace.entry) text) }
{
    match (*status, trace) {
        (Status::Memory, _) => ByteBuf::from_slice(alloc, MEMORY_LINE),
        (status, Some(trace)) => record_report(alloc, told_code(status, trace), trace),
        (status, None) => line_of(alloc, status),
    }
}

// The status once writing the report failed.
fn failed_report(status: Status) -> Status
    ensures { result ≡ running.failed_report status }
{
    match status {
        Status::Ok | Status::Partial | Status::Limit => Status::Report,
        _ => status,
    }
}

fn write_text<R: Sink>(status: Status, text: &[u8], report: &mut R) -> Status
    ensures { WroteReport status result text.now (R.content report.old) (R.content report.new)
        (R.faults report.old) (R.faults report.new) }
{
    match write_all(report, text) {
        Ok(()) => status,
        Err(SinkFault::Failed) => failed_report(status),
        Err(SinkFault::Memory) => Status::Memory,
    }
}

// Writes the text of a status other than want of memory, or the line for that where none is left for the text.
fn write_status<R: Sink>(
    alloc: Global,
    status: Status,
    trace: &Option<Record>,
    report: &mut R,
) -> Status
    requires other { class_of status ≢ NoMemory }
    requires unreported { class_of status ≢ Unreported }
    requires matches { StatusMatchesRecord status trace.now }
    ensures after { StatusAfterReport status result }
    ensures reported { Reported (class_of result) (Is status) result trace.now (R.content report.old) (R.content report.new)
        (Rose (R.faults report.old) (R.faults report.new)) }
    ensures faults { CountsFaults (report_fails (class_of result)) (R.faults report.old) (R.faults report.new) }
{
    match text_of(alloc, status, trace) {
        Ok(text) => write_text(status, text.as_slice(), report),
        Err(_) => write_text(Status::Memory, MEMORY_LINE, report),
    }
}

/// Writes the report of a status, and answers what the status is then.
pub(crate) fn write_report<R: Sink>(
    alloc: Global,
    status: Status,
    trace: &Option<Record>,
    report: &mut R,
) -> Status
    requires unreported { class_of status ≢ Unreported }
    requires matches { StatusMatchesRecord status trace.now }
    ensures after { StatusAfterReport status result }
    ensures reported { Reported (class_of result) (Is status) result trace.now (R.content report.old) (R.content report.new)
        (Rose (R.faults report.old) (R.faults report.new)) }
    ensures faults { CountsFaults (report_fails (class_of result)) (R.faults report.old) (R.faults report.new) }
{
    match status {
        Status::Memory => write_text(Status::Memory, MEMORY_LINE, report),
        _ => write_status(alloc, status, trace, report),
    }
}
