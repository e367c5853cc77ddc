/// What a token of a query is.
#[derive(Clone, Copy, Debug, PartialEq, Eq)]
pub enum QueryKind {
    /// An IRI between `<` and `>`: IRIREF.
    IriRef,
    /// A prefix, a colon and a local name, of which both may be empty: PNAME_NS or PNAME_LN.
    Name,
    /// The label of a blank node: BLANK_NODE_LABEL.
    BlankLabel,
    /// `?` or `$` and the name of a variable: VAR1 or VAR2.
    Var,
    /// A language tag: LANGTAG.
    Tag,
    /// A string in one or in three quotes of either kind.
    Quoted,
    /// A number without its sign, as the two that follow.
    Integer,
    Decimal,
    Double,
    /// Letters, digits and underscores: a keyword or `a`.
    Word,
    /// One of `{ } ( ) [ ] . ; , * / + - ! = < > | ^ ?`, `!=`, `<=`, `>=`, `&&`, `||` and `^^`.
    Mark,
    /// The place where no token can be read.
    Bad,
    /// The end of the text.
    End,
}
