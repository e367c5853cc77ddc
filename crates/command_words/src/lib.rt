//! The command that the words of a command line stand for: a run over a site, a run over the web, or a run over a generated site.
//!
//! Promise: `read_words` gives the command of the words (`specs/Words.antt`), which is what `clap` defines for one simple
//! command and the ranges and forms of its values, or says that they stand for none. The settings of a command that was
//! read are within their limits, and its seeds are links (`specs/Ready.antt`).
//! Not here: whether the query is one (`sparql_parser`), and what is done for a command (`answer_core`).
//!
//! Want of memory is `WordsFault::Memory`; after it the words are as before.
#![tactic(auto)]

mod command;
mod fault;
mod fetching;
mod grammar;
mod numbers;
mod parsing;
mod reading;
mod seeds;
mod settings;
mod values;

pub use crate::command::{Command, Settings};
pub use crate::fault::WordsFault;
pub use crate::reading::read_words;
