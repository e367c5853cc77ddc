//! Calls of `sparql_lexer`.
use sparql_lexer::QueryKind::*;
use sparql_lexer::{QueryKind, QueryToken, lex_sparql};
use std::alloc::Global;
use std::process::Abort;

// A token's kind, the place of its first byte, and the place behind its last one.
type Wanted = (QueryKind, usize, usize);

fn are(tokens: &[QueryToken], wanted: &[Wanted]) -> bool {
    if tokens.len() != wanted.len() {
        return false;
    }
    for (token, expected) in tokens.iter().zip(wanted) {
        if (token.kind, token.from, token.to) != *expected {
            return false;
        }
    }
    true
}

fn has_tokens(alloc: Global, rt: &impl Abort, text: &str, wanted: &[Wanted]) -> bool {
    let tokens = lex_sparql(alloc, text).expect(rt, "memory");
    are(tokens.as_slice(), wanted)
}

#[test]
fn cuts_where_the_longest_text_ends(rt: HostRuntime) {
    let text = "SELECT ?x{?x a:b-1 <a>;p<=?y. -5.0 ?? a<b>=\"c\"@en";
    let wanted = [
        (Word, 0, 6),
        (Var, 7, 9),
        (Mark, 9, 10),
        (Var, 10, 12),
        (Name, 13, 18),
        (IriRef, 19, 22),
        (Mark, 22, 23),
        (Word, 23, 24),
        (Mark, 24, 26),
        (Var, 26, 28),
        (Mark, 28, 29),
        (Mark, 30, 31),
        (Decimal, 31, 34),
        (Mark, 35, 36),
        (Mark, 36, 37),
        (Word, 38, 39),
        (IriRef, 39, 42),
        (Mark, 42, 43),
        (Quoted, 43, 46),
        (Tag, 46, 49),
        (End, 49, 49),
    ];
    assert!(rt; has_tokens(rt.alloc(), &rt, text, &wanted));
}

// SPARQL 1.1 Query Language, section 19.8, STRING_LITERAL_LONG1 and STRING_LITERAL_LONG2.
#[test]
fn a_long_string_ends_at_its_first_three_quotes(rt: HostRuntime) {
    let alloc = rt.alloc();
    assert!(rt;
        has_tokens(
            alloc,
            &rt,
            "\"\"\"\"a\"b\"\"\"",
            &[(Quoted, 0, 10), (End, 10, 10)]
        )
    );
    assert!(rt; has_tokens(alloc, &rt, "'''a''b'''", &[(Quoted, 0, 10), (End, 10, 10)]));
    assert!(rt;
        has_tokens(
            alloc,
            &rt,
            "\"\"\"abc\"\"\"\"",
            &[(Quoted, 0, 9), (Bad, 9, 9)]
        )
    );
    assert!(rt;
        has_tokens(
            alloc,
            &rt,
            "'''abc'''''",
            &[(Quoted, 0, 9), (Quoted, 9, 11), (End, 11, 11)]
        )
    );
}
