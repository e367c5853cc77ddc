use link_uri::Link;
use reachability::Found;

/// Why a traversal was halted.
#[derive(Clone, Copy, Debug, PartialEq, Eq, Drop)]
pub enum Halt {
    /// The sink failed.
    Output,
    /// Memory was wanting.
    Memory,
}

/// How a draw ended.
#[derive(Clone, Copy, Debug, PartialEq, Eq, Drop)]
pub enum Drawn {
    /// One more triple is drawn.
    One,
    /// Every logged triple was drawn before.
    Dry,
}

/// A step that a traversal may be told to make.
#[derive(Debug, Drop)]
pub enum Command {
    Take,
    Settle {
        number: u64,
        link: Link,
        found: Found,
    },
    GiveBack {
        number: u64,
    },
    Draw,
    Write,
    Close,
    Halt,
}
