/// The side that a row comes to.
#[derive(Clone, Copy)]
pub(crate) enum Fed {
    Left,
    Right,
}
