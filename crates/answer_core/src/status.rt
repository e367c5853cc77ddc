ghost use Rattle.std.specs.Prelude.{◌≡◌};
ghost use Rattle.answer_core.specs.Codes.{code_of, ended_status};

use reachability::Record;
use run_report::has_failed;

/// Why a query is refused (docs/FORMATS.md, "Queries").
#[derive(Clone, Copy, Debug, PartialEq, Eq)]
pub enum QueryWhy {
    /// No token can be read, one doesn't fit, an IRI, a name or a label is refused, or the text ends too early.
    Syntax,
    /// The first token that doesn't fit is a mark or keyword of SPARQL that the profile doesn't take there.
    Unsupported,
    /// More brackets are open, or more groups stand in it, than may be.
    Deep,
    /// It has more than 65,536 bytes.
    Long,
}

/// How a run ended.
#[derive(Clone, Copy, Debug, PartialEq, Eq)]
pub enum Status {
    /// All that is reachable was looked up, the whole answer is written, and nothing failed.
    Ok,
    /// The words are no command.
    Usage,
    /// The same, but a link was refused or couldn't be reached.
    Partial,
    /// As many links were looked up as may be, and more are queued.
    Limit,
    /// The query is refused; `at` counts the bytes before its first fault.
    Query { at: usize, why: QueryWhy },
    /// The input is no site; `at` counts the bytes before the first fault.
    Site { at: usize },
    /// Reading the input failed.
    Input,
    /// Writing the answer failed.
    Output,
    /// Memory ran out.
    Memory,
    /// Writing the report failed, after a run that came to its end.
    Report,
    /// The words are a command that isn't built yet.
    NotBuilt,
}

impl Status {
    /// The code that the program exits with.
    pub fn code(&self) -> u8
        ensures { result ≡ code_of self.now }
    {
        match self {
            Status::Ok => 0,
            Status::Usage => 2,
            Status::Partial => 3,
            Status::Limit => 4,
            Status::Query { .. } => 5,
            Status::Site { at: _ } => 6,
            Status::Input => 7,
            Status::Output => 8,
            Status::Memory => 10,
            Status::Report => 11,
            Status::NotBuilt => 12,
        }
    }
}

/// How the run of a record ended, where it came to its end.
pub(crate) fn ended_status(trace: &Record) -> Status
    ensures { result ≡ ended_status trace.now }
{
    if !trace.queued.is_empty() {
        Status::Limit
    } else if has_failed(trace.entries.as_slice()) {
        Status::Partial
    } else {
        Status::Ok
    }
}
