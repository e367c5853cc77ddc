use crate::cases::{bytes, no_case, texts};
use rdf_terms::Memory;
use sparql_lexer::{QueryKind, QueryToken, lex_sparql};
use std::alloc::Global;
use turtle_lexer::{Token, TurtleKind, lex_turtle};

fn kind_text(kind: TurtleKind) -> &'static str {
    match kind {
        TurtleKind::IriRef => "IriRef",
        TurtleKind::Name => "Name",
        TurtleKind::BlankLabel => "BlankLabel",
        TurtleKind::At => "At",
        TurtleKind::Quoted => "Quoted",
        TurtleKind::Integer => "Integer",
        TurtleKind::Decimal => "Decimal",
        TurtleKind::Double => "Double",
        TurtleKind::Word => "Word",
        TurtleKind::Mark => "Mark",
        TurtleKind::Bad => "Bad",
        TurtleKind::End => "End",
    }
}

fn push_token(
    alloc: Global,
    out: &mut String,
    kind: &str,
    from: usize,
    to: usize,
) -> Result<(), Memory> {
    let shown = format!(in alloc; "{kind} {from} {to};")?;
    out.push_str(shown.as_str())?;
    Ok(())
}

fn tokens_text(alloc: Global, tokens: &[Token]) -> Result<String, Memory> {
    let mut out = String::new(alloc);
    for token in tokens {
        push_token(alloc, &mut out, kind_text(token.kind), token.from, token.to)?;
    }
    Ok(out)
}

fn document_tokens(alloc: Global, bytes: &[u8]) -> Result<String, Memory> {
    let tokens = lex_turtle(alloc, bytes)?;
    tokens_text(alloc, tokens.as_slice())
}

/// The tokens of a Turtle text, each with its kind and its ends.
pub fn answer(alloc: Global, line: &str) -> Result<String, Memory> {
    match bytes(alloc, line)? {
        Some(bytes) => document_tokens(alloc, bytes.as_slice()),
        None => no_case(alloc),
    }
}

fn query_kind_text(kind: QueryKind) -> &'static str {
    match kind {
        QueryKind::IriRef => "IriRef",
        QueryKind::Name => "Name",
        QueryKind::BlankLabel => "BlankLabel",
        QueryKind::Var => "Var",
        QueryKind::Tag => "Tag",
        QueryKind::Quoted => "Quoted",
        QueryKind::Integer => "Integer",
        QueryKind::Decimal => "Decimal",
        QueryKind::Double => "Double",
        QueryKind::Word => "Word",
        QueryKind::Mark => "Mark",
        QueryKind::Bad => "Bad",
        QueryKind::End => "End",
    }
}

fn query_tokens_text(alloc: Global, tokens: &[QueryToken]) -> Result<String, Memory> {
    let mut out = String::new(alloc);
    for token in tokens {
        let kind = query_kind_text(token.kind);
        push_token(alloc, &mut out, kind, token.from, token.to)?;
    }
    Ok(out)
}

fn query_tokens(alloc: Global, text: &str) -> Result<String, Memory> {
    let tokens = lex_sparql(alloc, text)?;
    query_tokens_text(alloc, tokens.as_slice())
}

/// The tokens of a query, each with its kind and its ends. A case is one field, which is UTF-8.
pub fn query_answer(alloc: Global, line: &str) -> Result<String, Memory> {
    let Some(fields) = texts(alloc, line)? else {
        return no_case(alloc);
    };
    match fields.as_slice() {
        [text] => query_tokens(alloc, text.as_str()),
        _ => no_case(alloc),
    }
}
