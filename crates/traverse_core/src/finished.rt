use crate::steps::Halt;
use reachability::Record;

/// What a traversal ends with.
#[derive(Drop)]
pub struct Finished<S> {
    pub trace: Record,
    pub out: S,
    pub halted: Option<Halt>,
}
