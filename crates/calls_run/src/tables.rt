//! Tests of `link_queue`.
ghost use Rattle.link_uri.specs.Links.{IsLink};

use link_queue::{LinkState, LinkTable};
use link_uri::{Link, link_of};
use rdf_terms::TextBuf;
use std::alloc::Global;
use std::process::Abort;

const FIRST: &str = "http://a.test/1";

const SECOND: &str = "http://a.test/2";

fn link(alloc: Global, rt: &impl Abort, iri: &str) -> Link
    ensures { IsLink result }
{
    link_of(alloc, iri)
        .expect(rt, "memory")
        .expect(rt, "a link")
}

fn number_of(alloc: Global, rt: &impl Abort, table: &mut LinkTable, iri: &str) -> u64 {
    let link = link(alloc, rt, iri);
    table.add(link).expect(rt, "memory")
}

fn numbers_are_places(alloc: Global, rt: &impl Abort) -> bool {
    let mut table = LinkTable::new(alloc);
    let first = number_of(alloc, rt, &mut table, FIRST);
    let second = number_of(alloc, rt, &mut table, SECOND);
    let again = number_of(alloc, rt, &mut table, "http://a.test/1#again");
    first == 0 && second == 1 && again == 0
}

fn takes_nothing(alloc: Global) -> bool {
    let mut table = LinkTable::new(alloc);
    table.take() == None
}

// Two links, of which the first came again.
fn two_links(alloc: Global, rt: &impl Abort) -> LinkTable {
    let mut table = LinkTable::new(alloc);
    let _ = number_of(alloc, rt, &mut table, FIRST);
    let _ = number_of(alloc, rt, &mut table, SECOND);
    let _ = number_of(alloc, rt, &mut table, "http://a.test/1#again");
    table
}

fn gives_back(table: &mut LinkTable) -> bool {
    match table.take() {
        Some(first) => table.give_back(first),
        None => return false,
    }
    table.first_queued() == Some(0) && table.take() == Some(0)
}

// Two links, of which the first was given back and is out again.
fn is_out_again(alloc: Global, rt: &impl Abort) -> bool {
    let mut table = two_links(alloc, rt);
    let first = link(alloc, rt, FIRST);
    gives_back(&mut table) && table.is_out(0, &first)
}

fn settles_the_second(table: &mut LinkTable) -> bool {
    match table.take() {
        Some(second) => {
            table.settle(second);
            second == 1
        }
        None => false,
    }
}

fn is_second_settled(table: &LinkTable) -> bool {
    1 < table.len() && table.state(1) == LinkState::Settled && table.get(1).text.as_str() == SECOND
}

fn settles_one_of_two(alloc: Global, rt: &impl Abort) -> bool {
    let mut table = two_links(alloc, rt);
    let begun = gives_back(&mut table) && settles_the_second(&mut table);
    begun && table.first_out() == Some(0) && table.take() == None && is_second_settled(&table)
}

#[test]
fn hands_out_in_order_of_coming(rt: HostRuntime) {
    let alloc = rt.alloc();
    assert!(rt; takes_nothing(alloc));
    assert!(rt; numbers_are_places(alloc, &rt));
    assert!(rt; is_out_again(alloc, &rt));
    assert!(rt; settles_one_of_two(alloc, &rt));
}

fn is_extended(alloc: Global, rt: &impl Abort, table: &mut LinkTable) -> bool {
    let second = link(alloc, rt, SECOND);
    let first = link(alloc, rt, FIRST);
    let third = link(alloc, rt, "http://a.test/3");
    table.extend(&[second, first, third]).expect(rt, "memory");
    table.len() == 3
}

fn is_first(texts: &[TextBuf]) -> bool {
    match texts {
        [text] => text.as_str() == FIRST,
        _ => false,
    }
}

fn is_cut_again(alloc: Global, rt: &impl Abort) -> bool {
    let mut table = LinkTable::new(alloc);
    let _ = number_of(alloc, rt, &mut table, FIRST);
    if !is_extended(alloc, rt, &mut table) || table.len() < 1 {
        return false;
    }
    table.shorten(1);
    is_first(table.into_queued().as_slice())
}

#[test]
fn keeps_what_it_had_when_it_is_cut(rt: HostRuntime) {
    let alloc = rt.alloc();
    assert!(rt; is_cut_again(alloc, &rt));
}
