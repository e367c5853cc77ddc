//! Tests of `reachability`.
use link_uri::Heard;
use rdf_terms::{Seq, TextBuf};
use reachability::Web;
use std::alloc::Global;
use std::process::Abort;

const FIRST: &str = "http://a.test/1";

fn web(alloc: Global, rt: &impl Abort) -> Web {
    let first = TextBuf::from_str(alloc, FIRST).expect(rt, "memory");
    let mut entries = Seq::new(alloc);
    entries.push((first, Heard::TooLong)).expect(rt, "memory");
    Web {
        entries,
        otherwise: Heard::Never,
    }
}

fn is_first(entry: &(TextBuf, Heard)) -> bool {
    entry.0.as_str() == FIRST && matches!(&entry.1, Heard::TooLong)
}

fn has_the_first(web: &Web) -> bool {
    match web.entries.as_slice() {
        [entry] => is_first(entry),
        _ => false,
    }
}

fn a_copy_answers_alike(alloc: Global, rt: &impl Abort) -> bool {
    let web = web(alloc, rt);
    let copy = web.copy(alloc).expect(rt, "memory");
    has_the_first(&copy) && matches!(&copy.otherwise, Heard::Never)
}

#[test]
fn a_copied_web_answers_alike(rt: HostRuntime) {
    let alloc = rt.alloc();
    assert!(rt; a_copy_answers_alike(alloc, &rt));
}
