use rdf_terms::TextBuf;

/// What a token is to the grammar (RDF 1.1 Turtle, section 6.5), with what it stands for.
#[derive(Debug, Drop)]
pub enum Kind {
    /// An IRIREF, resolved against the base in force.
    IriRef(TextBuf),
    /// A prefixed name, as the IRI that it stands for.
    Name(TextBuf),
    /// A prefix and its colon behind a word that declares prefixes: PNAME_NS.
    Namespace,
    /// The label of a blank node, by the number of the node.
    Label(u64),
    /// `[`, with the number of the blank node that it makes.
    OpenSquare(u64),
    ShutSquare,
    OpenParen,
    ShutParen,
    /// A string, without its quotes.
    Text(TextBuf),
    /// A language tag in lower case, without its `@`.
    Tag(TextBuf),
    /// A number or a boolean, which is a whole literal.
    Literal { datatype: TextBuf, lexical: TextBuf },
    Dot,
    Semicolon,
    Comma,
    /// `^^`.
    Carets,
    /// The verb `a`.
    A,
    /// `@prefix`.
    AtPrefix,
    /// `@base`.
    AtBase,
    /// PREFIX, in any case.
    Prefix,
    /// BASE, in any case.
    Base,
    /// A word of no use.
    Unknown,
    /// The end of the text.
    End,
}

/// A token and the place of its first byte.
#[derive(Debug, Drop)]
pub struct Token {
    pub kind: Kind,
    pub from: usize,
    /// How many blank nodes come before it: where an item of a list begins here, the number of its
    /// cell.
    pub cell: u64,
}
