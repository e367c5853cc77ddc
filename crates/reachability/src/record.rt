use crate::outcome::Outcome;
use rdf_terms::{Seq, TextBuf};

/// Why a try to reach a link failed.
#[derive(Clone, Copy, Debug, PartialEq, Eq, Drop)]
pub enum Cause {
    /// No connection.
    Connect,
    /// The connection broke.
    Broken,
    /// The answer ended early.
    Cut,
    /// No answer came for too long.
    Silent,
}

/// What was found at a link: the outcome of its look-up, or that it couldn't be reached in so many
/// tries, with the cause of the last.
#[derive(Debug, Drop)]
pub enum Found {
    Outcome(Outcome),
    Unreachable { cause: Cause, tries: u8 },
}

/// A link, by its text, and what was found there.
#[derive(Debug, Drop)]
pub struct Entry {
    pub link: TextBuf,
    pub found: Found,
}

/// The record of a run: what was found, in the order of settling, and the links that are still
/// queued, in the order in which they came.
#[derive(Debug, Drop)]
pub struct Record {
    pub entries: Seq<Entry>,
    pub queued: Seq<TextBuf>,
}
