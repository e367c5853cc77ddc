use link_uri::Link;
use rdf_terms::{Seq, Triple};

/// Why an answer is neither a document nor moved.
#[derive(Clone, Copy, Debug, PartialEq, Eq, Drop)]
pub enum Why {
    /// Another status than 200 and the redirects.
    Status(u16),
    /// The media type is missing or another.
    Media,
    /// The content is coded.
    Coding,
    /// The body passes the limit.
    Length,
    /// The answer is no HTTP message.
    Head,
    /// A redirect without a place that has a link.
    Location,
    /// The link is an `https` link, which is not looked up.
    Scheme,
    /// The body is not in the grammar, with the first place that doesn't fit.
    Syntax(usize),
    /// The body nests too deep, with the first place that does.
    Deep(usize),
}

/// What a look-up comes to.
#[derive(Debug, Drop)]
pub enum Outcome {
    /// The triples of a document.
    Document(Seq<Triple>),
    /// A redirect to another link.
    Moved(Link),
    /// An answer that gives nothing.
    Refused(Why),
}
