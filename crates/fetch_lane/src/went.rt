use link_uri::Heard;
use reachability::Cause;

/// What came of a call on an open lane.
#[derive(Debug, Drop)]
pub enum Went {
    /// Bytes went over the connection.
    Moved,
    /// Nothing could go over it.
    Quiet,
    /// The try failed, and its connection is closed.
    Failed(Cause),
    /// The response is read, and its connection is closed. It is never `Heard::Never`.
    Heard(Heard),
}
