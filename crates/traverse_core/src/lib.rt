//! A traversal: what was looked up, logged and queued, what is to be written, and the steps between.
//!
//! Promise: each call is one step of `specs/Steps.antt`, and each state keeps what
//! `specs/Kept.antt` lists, whatever the order of the steps; so at the end the record is traversed
//! and faithful, and where the web is told and nothing is queued the links looked up are exactly the
//! reachable ones (`reachability`). `run_alone` takes the steps for one caller, and returns.
//! Not here: how a link is looked up (`web_port`), and runs by several callers.
//!
//! A run is named by a type parameter that stands for its meanings (`Job`). Want of memory is
//! `Memory` everywhere, and the traversal is then as it was; a run halts and gives back.
#![tactic(auto)]

mod alone;
mod answering;
mod catching_up;
mod classifying;
mod commands;
mod finished;
mod growing;
mod job;
mod opening;
mod steps;
mod traversal;
mod turns;

pub use crate::alone::{Ran, give_all_back};
pub use crate::catching_up::{catch_up, draw_all, write_all};
pub use crate::classifying::classify_got;
pub use crate::commands::follow_all;
pub use crate::finished::Finished;
pub use crate::job::Job;
pub use crate::steps::{Command, Drawn, Halt};
pub use crate::traversal::Traversal;
pub use reachability::{Entry, Found, Record};
pub use result_writer::Written;
