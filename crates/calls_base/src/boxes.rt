//! Tests of a box and a list of `rdf_terms`.
use rdf_terms::{Boxed, Seq};
use std::alloc::Global;
use std::process::Abort;

fn a_box_keeps_its_value(alloc: Global, rt: &impl Abort) -> bool {
    let boxed = Boxed::new(alloc, 7).expect(rt, "memory");
    *boxed.get() == 7 && boxed.into_inner() == 7
}

fn a_list_grows(alloc: Global, rt: &impl Abort) -> bool {
    let mut items = Seq::new(alloc);
    items.push(7).expect(rt, "memory");
    items.push(8).expect(rt, "memory");
    items.as_slice() == [7, 8].as_slice()
}

#[test]
fn hold_what_they_were_given(rt: HostRuntime) {
    let alloc = rt.alloc();
    assert!(rt; a_box_keeps_its_value(alloc, &rt));
    assert!(rt; a_list_grows(alloc, &rt));
}
