//! The top calls: from the words of the command line and the bytes that come in to the bytes that
//! go out, the report, and the status.
//!
//! Promise: `answer` follows links over the site that the input holds, or over the one that is made
//! of a number, and writes exactly the answers over the merged graph of what it looked up; each
//! other status but want of memory has its one cause. `answer_alone` promises the same of a site
//! without workers, and refuses other words. `specs/Headline.antt` says it on one page
//! (`Promised`); what the words ask for is in `specs/Task.antt`, the texts of the report in
//! `specs/Reported.antt`, and the codes in `specs/Codes.antt`. `Status::code` is the exit code of
//! each status, and `report_text` the report of a run for callers that have its record.
//! Not here: what words are a command (`command_words`), and the real streams, which the program
//! `ltq` makes.
#![tactic(auto)]

mod answering;
mod calls;
mod generated;
mod querying;
mod report;
mod running;
mod status;
mod task;

pub use crate::calls::{answer, answer_alone};
pub use crate::report::report_text;
pub use crate::running::Answer;
pub use crate::status::{QueryWhy, Status};
pub use command_words::{Command, Settings, WordsFault, read_words};
