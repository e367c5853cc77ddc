use link_uri::Link;
use rdf_terms::{Seq, TextBuf};
use reach_criteria::Criterion;
use web_port::FetchSettings;

/// What a run is asked for.
#[derive(Drop)]
pub struct Settings {
    /// The text of the query, be it one or not.
    pub query: TextBuf,
    /// The links that the run begins with.
    pub seeds: Seq<Link>,
    pub criterion: Criterion,
    /// The most links to look up, 1 to 100,000.
    pub limit: u64,
    /// How many workers look links up beside each other; with 0 the caller does.
    pub workers: u16,
    pub fetch: FetchSettings,
}

/// What the words of a command line stand for.
#[derive(Drop)]
pub enum Command {
    /// A run over the site on standard input.
    Site(Settings),
    /// A run over the web.
    Web(Settings),
    /// A run over a generated site of `n` documents, 1 to 2,000.
    Generated { n: u64, workers: u16 },
}
