use algebra_core::Query;
use link_uri::Link;
use rdf_terms::Seq;
use reach_criteria::Criterion;

/// What a run is to do: the query, the links to begin with, which links it follows, the most links
/// to look up, the most bytes of a body, and how often a look-up is tried.
#[derive(Drop)]
pub struct Task {
    pub query: Query,
    pub seeds: Seq<Link>,
    pub criterion: Criterion,
    pub limit: u64,
    pub body: u64,
    pub tries: u8,
}
