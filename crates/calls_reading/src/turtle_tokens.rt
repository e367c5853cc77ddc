//! Calls of `turtle_lexer`.
use std::alloc::Global;
use std::process::Abort;
use turtle_lexer::TurtleKind::*;
use turtle_lexer::{Token, TurtleKind, lex_ntriples, lex_turtle};

// A token's kind, the place of its first byte, and the place behind its last one.
type Wanted = (TurtleKind, usize, usize);

fn are(tokens: &[Token], wanted: &[Wanted]) -> bool {
    if tokens.len() != wanted.len() {
        return false;
    }
    for (token, expected) in tokens.iter().zip(wanted) {
        if (token.kind, token.from, token.to) != *expected {
            return false;
        }
    }
    true
}

fn has_tokens(alloc: Global, rt: &impl Abort, text: &[u8], wanted: &[Wanted]) -> bool {
    let tokens = lex_turtle(alloc, text).expect(rt, "memory");
    are(tokens.as_slice(), wanted)
}

fn line_has_tokens(alloc: Global, rt: &impl Abort, text: &[u8], wanted: &[Wanted]) -> bool {
    let tokens = lex_ntriples(alloc, text).expect(rt, "memory");
    are(tokens.as_slice(), wanted)
}

#[test]
fn cuts_where_the_longest_text_ends(rt: HostRuntime) {
    let text = b"\xef\xbb\xbf\"\"\"\"a\"\"\" -.5e+1. 1.e3 <a\\u0041>@en-a a.b:c.\\~. _:x. #";
    let wanted = [
        (Quoted, 3, 11),
        (Double, 12, 18),
        (Mark, 18, 19),
        (Double, 20, 24),
        (IriRef, 25, 34),
        (At, 34, 39),
        (Name, 40, 48),
        (Mark, 48, 49),
        (BlankLabel, 50, 53),
        (Mark, 53, 54),
        (End, 56, 56),
    ];
    assert!(rt; has_tokens(rt.alloc(), &rt, text, &wanted));
}

// RDF 1.1 Turtle, section 6.5, STRING_LITERAL_LONG_QUOTE and STRING_LITERAL_LONG_SINGLE_QUOTE.
#[test]
fn a_long_string_ends_at_its_first_three_quotes(rt: HostRuntime) {
    let alloc = rt.alloc();
    assert!(rt; has_tokens(alloc, &rt, b"'''a''b'''", &[(Quoted, 0, 10), (End, 10, 10)]));
    assert!(rt;
        has_tokens(
            alloc,
            &rt,
            b"\"\"\"abc\"\"\"\"",
            &[(Quoted, 0, 9), (Bad, 9, 9)]
        )
    );
    assert!(rt;
        has_tokens(
            alloc,
            &rt,
            b"'''abc'''''",
            &[(Quoted, 0, 9), (Quoted, 9, 11), (End, 11, 11)]
        )
    );
}

#[test]
fn ends_in_bad_where_no_token_can_be_read(rt: HostRuntime) {
    let wanted = [
        (Integer, 0, 1),
        (Decimal, 2, 6),
        (Word, 7, 8),
        (Word, 9, 13),
        (Mark, 14, 16),
        (Bad, 17, 17),
    ];
    assert!(rt; has_tokens(rt.alloc(), &rt, b"1 -2.5 a true ^^ ^", &wanted));
}

#[test]
fn reads_colons_in_labels_of_ntriples(rt: HostRuntime) {
    let wanted = [
        (BlankLabel, 0, 5),
        (Mark, 5, 6),
        (BlankLabel, 7, 12),
        (End, 12, 12),
    ];
    assert!(rt; line_has_tokens(rt.alloc(), &rt, b"_:a:b. _::.:", &wanted));
}
