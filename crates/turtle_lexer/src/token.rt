use crate::kind::TurtleKind;

/// A token of a text: its kind, and the places of its first byte and behind its last one.
#[derive(Clone, Copy, Debug, PartialEq, Eq)]
pub struct Token {
    pub kind: TurtleKind,
    pub from: usize,
    pub to: usize,
}
