use rdf_terms::TextBuf;
use reachability::Cause;

/// A link that is open at a fetcher.
#[derive(Debug, Drop)]
pub struct Flight {
    pub number: u64,
    /// The text of the link.
    pub link: TextBuf,
    /// How many tries failed.
    pub failed: u8,
    /// Why the last of these failed.
    pub last: Option<Cause>,
}
