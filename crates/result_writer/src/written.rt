/// How one step of writing ended.
#[derive(Clone, Copy, Debug, PartialEq, Eq, Drop)]
pub enum Written {
    /// The sink took one or more bytes.
    Wrote,
    /// There was nothing to write.
    Clear,
    /// The sink failed, and took nothing.
    Failed,
}
