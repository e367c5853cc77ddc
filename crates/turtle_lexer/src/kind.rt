/// What a token is.
#[derive(Clone, Copy, Debug, PartialEq, Eq)]
pub enum TurtleKind {
    /// An IRI between `<` and `>`: IRIREF.
    IriRef,
    /// A prefix, a colon and a local name, of which both may be empty: PNAME_NS or PNAME_LN.
    Name,
    /// The label of a blank node: BLANK_NODE_LABEL.
    BlankLabel,
    /// A language tag, or `@prefix` or `@base`.
    At,
    /// A string in one or in three quotes of either kind.
    Quoted,
    Integer,
    Decimal,
    Double,
    /// Letters, digits and underscores: a keyword, `a`, `true` or `false`.
    Word,
    /// One of `.`, `[`, `]`, `;`, `,`, `(`, `)` and `^^`.
    Mark,
    /// The place where no token can be read.
    Bad,
    /// The end of the text.
    End,
}
