/// Where the look-up of a link stands.
#[derive(Clone, Copy, Debug, PartialEq, Eq, Drop)]
pub enum LinkState {
    /// It waits to be taken.
    Queued,
    /// It was taken.
    InFlight,
    /// What it came to is recorded. It stays so.
    Settled,
}
