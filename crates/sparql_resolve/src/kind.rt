use expr_eval::{CompareOp, Function, Sign};
use rdf_terms::TextBuf;

/// What a token is to the grammar (SPARQL 1.1, section 19.8), with what it stands for.
#[derive(Debug, Drop)]
pub enum Kind {
    /// A variable, by its number.
    Var(u16),
    /// An IRIREF, resolved against the base.
    IriRef(TextBuf),
    /// A prefixed name, as the IRI that it stands for.
    Name(TextBuf),
    /// A prefix and its colon behind PREFIX: PNAME_NS.
    Namespace,
    /// The label of a blank node, by the number of its variable.
    Label(u16),
    /// `[`, with the number of the variable that it makes where it is a blank node.
    OpenSquare(u16),
    ShutSquare,
    /// A string, without its quotes.
    Text(TextBuf),
    /// A language tag, without its `@`.
    Tag(TextBuf),
    /// A number without its sign; `touches` where no byte stands before it that is in no token.
    Number {
        datatype: TextBuf,
        lexical: TextBuf,
        touches: bool,
    },
    OpenBrace,
    ShutBrace,
    OpenParen,
    ShutParen,
    Dot,
    Semicolon,
    Comma,
    Star,
    Sign(Sign),
    Bang,
    Compare(CompareOp),
    And,
    Or,
    /// `^^`.
    Carets,
    /// The verb `a`.
    A,
    Base,
    Prefix,
    Select,
    Distinct,
    Where,
    Union,
    Optional,
    Filter,
    Order,
    By,
    Asc,
    Desc,
    Bound,
    SameTerm,
    Function(Function),
    Boolean(bool),
    /// A keyword or a mark of SPARQL that the profile never takes.
    Unsupported,
    /// A word of no use.
    Unknown,
    /// The end of the text.
    End,
}

/// A token and the place of its first byte.
#[derive(Debug, Drop)]
pub struct Token {
    pub kind: Kind,
    pub from: usize,
}
