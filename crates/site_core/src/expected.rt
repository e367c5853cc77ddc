use link_uri::Reply;
use rdf_terms::{ByteBuf, TextBuf};

/// Where a reader of lines stands, which decides the lines that may follow.
#[derive(Debug, Drop)]
pub(crate) enum Expected {
    /// At the very beginning.
    First,
    /// Behind the first line or a block.
    Between,
    /// Behind a link line.
    Named(TextBuf),
    /// Behind a status line and the fields that the reply has so far.
    Headed(TextBuf, Reply),
}

/// What one line does.
#[derive(Debug, Drop)]
pub(crate) enum Step {
    /// The line isn't allowed here.
    Misfit,
    Next(Expected),
    /// The line is the last one.
    Finished,
    /// So many bytes of the body follow.
    Body(TextBuf, Reply, usize),
}

/// A line behind a status line.
#[derive(Debug, Drop)]
pub(crate) enum Field {
    Media(ByteBuf),
    Coding(ByteBuf),
    Location(ByteBuf),
    /// The number of the body's bytes.
    Size(usize),
}
