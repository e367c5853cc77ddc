//! Calls of `doc_reader`.
ghost use Rattle.std.specs.Prelude.{◌≢◌};
ghost use Rattle.link_uri.specs.declared.heard.Heard.TheVariants.{Never};

use doc_reader::{Outcome, Why, classify, read_ntriples};
use link_uri::{Heard, Reply, link_of};
use rdf_terms::{ByteBuf, Term, Triple, write_term};
use std::alloc::Global;
use std::process::Abort;
use turtle_reader::ReadFault;

fn has_form(alloc: Global, rt: &impl Abort, term: &Term, form: &str) -> bool {
    write_term(alloc, term).expect(rt, "memory").as_str() == form
}

fn read(alloc: Global, text: &str) -> Result<Vec<Triple>, ReadFault> {
    read_ntriples(alloc, "http://a.test/1", text.as_bytes())
}

fn are_three(alloc: Global, rt: &impl Abort, triples: &[Triple]) -> bool {
    match triples {
        [first, second, third] => {
            has_form(alloc, rt, &first.s, "_:b0x687474703a2f2f612e746573742f31")
                && has_form(alloc, rt, &second.o, "\"a\"@en")
                && has_form(alloc, rt, &third.s, "_:b1x687474703a2f2f612e746573742f31")
                && has_form(alloc, rt, &third.o, "_:b0x687474703a2f2f612e746573742f31")
        }
        _ => false,
    }
}

#[test]
fn reads_the_lines_of_a_text(rt: HostRuntime) {
    let text =
        "\r\n_:b: <http://v.test/p><http://a.test/x>.# end\n<http://a.test/1> <http://v.test/p> \"a\"@EN.\n_:c <p:> _:b: .";
    let triples = read(rt.alloc(), text).expect(&rt, "triples");
    assert!(rt; are_three(rt.alloc(), &rt, triples.as_slice()));
}

fn has_fault_at(alloc: Global, text: &str, at: usize) -> bool {
    match read(alloc, text) {
        Ok(_) => false,
        Err(fault) => fault == ReadFault::Syntax { at },
    }
}

#[test]
fn places_a_fault_at_its_token(rt: HostRuntime) {
    for (text, at) in [
        ("<http://a.test/1> <p:> \"a\" \n.", 27),
        ("<http://a.test/1> <p> \"a\" .", 18),
        ("<http://a.test/1> <p:> \"a\"@en", 29),
        ("<http://a.test/1> <p:> \"a\"^^^", 28),
    ] {
        assert!(rt; has_fault_at(rt.alloc(), text, at), "{text}");
    }
}

fn bytes(alloc: Global, rt: &impl Abort, of: &[u8]) -> ByteBuf {
    ByteBuf::from_slice(alloc, of).expect(rt, "memory")
}

fn page(alloc: Global, rt: &impl Abort, media: &[u8], body: &[u8]) -> Heard
    ensures { result ≢ Never }
{
    let media = bytes(alloc, rt, media);
    let body = bytes(alloc, rt, body);
    Heard::Reply(Reply {
        status: 200,
        media: Some(media),
        coding: None,
        location: None,
        body,
    })
}

// What an answer for `http://a.test/2` comes to.
fn outcome(alloc: Global, rt: &impl Abort, heard: &Heard) -> Outcome
    requires { heard.now ≢ Never }
{
    let link = link_of(alloc, "http://a.test/2")
        .expect(rt, "memory")
        .expect(rt, "a link");
    classify(alloc, &link, heard, 60).expect(rt, "memory")
}

fn names_first(alloc: Global, rt: &impl Abort, outcome: &Outcome, form: &str) -> bool {
    match outcome {
        Outcome::Document(triples) => match triples.as_slice() {
            [first, ..] => has_form(alloc, rt, &first.s, form),
            [] => false,
        },
        _ => false,
    }
}

// Whether the page is a document whose first subject has this form.
fn gives(alloc: Global, rt: &impl Abort, media: &[u8], body: &[u8], form: &str) -> bool {
    let heard = page(alloc, rt, media, body);
    let outcome = outcome(alloc, rt, &heard);
    names_first(alloc, rt, &outcome, form)
}

const FIRST_BLANK: &str = "_:b0x687474703a2f2f612e746573742f32";

#[test]
fn names_a_document_by_its_link(rt: HostRuntime) {
    let alloc = rt.alloc();
    let line = b"_:b <http://v.test/p> \"\" .\n";
    let list = b"<#me> <p> ( [] ).";
    assert!(rt; gives(alloc, &rt, b"application/n-triples", line, FIRST_BLANK));
    assert!(rt; gives(alloc, &rt, b"text/turtle; charset=utf-8", list, FIRST_BLANK));
    assert!(rt;
        gives(
            alloc,
            &rt,
            b"text/turtle",
            b"<#me> <p> \"a\".",
            "<http://a.test/2#me>"
        )
    );
}

fn is_refused(outcome: &Outcome, why: Why) -> bool {
    match outcome {
        Outcome::Refused(found) => *found == why,
        _ => false,
    }
}

fn page_is_refused(alloc: Global, rt: &impl Abort, body: &[u8], why: Why) -> bool {
    let heard = page(alloc, rt, b"text/turtle", body);
    let outcome = outcome(alloc, rt, &heard);
    is_refused(&outcome, why)
}

fn malformed_is_refused(alloc: Global, rt: &impl Abort) -> bool {
    let outcome = outcome(alloc, rt, &Heard::Malformed);
    is_refused(&outcome, Why::Head)
}

fn too_long_is_refused(alloc: Global, rt: &impl Abort) -> bool {
    let outcome = outcome(alloc, rt, &Heard::TooLong);
    is_refused(&outcome, Why::Length)
}

#[test]
fn says_why_there_is_no_document(rt: HostRuntime) {
    let alloc = rt.alloc();
    assert!(rt; page_is_refused(alloc, &rt, &[b' '; 61], Why::Length));
    assert!(rt; page_is_refused(alloc, &rt, b"<#me> <p> (", Why::Syntax(11)));
    assert!(rt; malformed_is_refused(alloc, &rt));
    assert!(rt; too_long_is_refused(alloc, &rt));
}
