//! Tests of `site_core`.
use site_core::{Site, SiteFault, make_site, read_site, write_site};
use std::alloc::Global;
use std::process::Abort;

const ANN: &str =
    "site 1\nlink http://a.test/1\nstatus 200\ntype application/n-triples\nbody 50\n<http://a.test/1#me> <http://v.test/name> \"Ann\" .\n\nend\n";

const TWO: &str =
    "site 1\nlink http://a.test/1\nstatus 200\ntype application/n-triples\nbody 3\nabc\nlink http://a.test/2\nstatus 301\ncoding gzip\nlocation /1#me\nbody 0\n\nend\n";

// What stands in `TWO`, what stands there instead, and the place of the first fault then.
const FAULTS: [(&str, &str, usize); 52] = [
    ("link http://a.test/1", "link http://a.test/1#x", 7),
    ("http://a.test/1", "https://a.test/1", 7),
    ("http://a.test/1", "http://A.test/1", 7),
    ("http://a.test/1", "http://a.test:80/1", 7),
    ("http://a.test/1", "http://a.test", 7),
    ("link http", "link  http", 7),
    ("http://a.test/1", "http://u@a.test/1", 7),
    ("http://a.test/1", "http://a.test/\u{e9}", 7),
    ("link http://a.test/1", "link ", 7),
    ("link http://a.test/1", "link", 7),
    ("a.test/2", "a.test/1", 77),
    ("a.test/2", "a.test/0", 77),
    ("link http://a.test/1\n", "", 7),
    ("status 200\n", "", 28),
    ("status 200", "status 204", 28),
    ("status 200", "status 304", 28),
    ("status 200", "status 199", 28),
    ("status 200", "status 600", 28),
    ("status 200", "status 0200", 28),
    ("status 200", "status 20", 28),
    ("status 200", "status 2x0", 28),
    ("status 200", "status 200 ", 28),
    ("status 200", "status 200\r", 28),
    ("type application/n-triples", "type ", 39),
    ("type application/n-triples", "type  a", 39),
    ("type application/n-triples", "type a ", 39),
    ("type application/n-triples", "type a\tb", 39),
    ("type application/n-triples", "type \u{e9}", 39),
    ("type application/n-triples", "type", 39),
    ("type application/n-triples", "type a\ntype b", 46),
    ("type application/n-triples", "coding a\ntype b", 48),
    (
        "coding gzip\nlocation /1#me",
        "location /1\ncoding gzip",
        121,
    ),
    ("location /1#me", "location /1\nlocation /2", 133),
    ("body 3", "body 03", 66),
    ("body 3", "body ", 66),
    ("body 3", "body +3", 66),
    ("body 3", "body 2", 66),
    ("body 3", "body 4", 66),
    ("body 3", "body 400", 66),
    ("body 3", "body 99999999999999999999999999", 66),
    ("body 3", "body 3 ", 66),
    ("body 3\nabc\n", "", 66),
    ("\nend\n", "\n", 144),
    ("\n\nend\n", "\n", 136),
    ("body 0", "body 00", 136),
    ("end\n", "end \n", 144),
    ("end\n", "End\n", 144),
    ("end\n", "end\nx", 148),
    ("end\n", "end", 144),
    ("abc", "abc\r", 66),
    ("site 1", "site 2", 0),
    ("site 1", "\u{feff}site 1", 0),
];

fn site(alloc: Global, rt: &impl Abort, text: &str) -> Site {
    read_site(alloc, text.as_bytes()).expect(rt, "a site")
}

fn is_written_again(alloc: Global, rt: &impl Abort, text: &str) -> bool {
    let site = site(alloc, rt, text);
    write_site(alloc, &site).expect(rt, "memory").as_slice() == text.as_bytes()
}

#[test]
fn writes_what_was_read(rt: HostRuntime) {
    for text in [ANN, TWO, "site 1\nend\n"] {
        assert!(rt; is_written_again(rt.alloc(), &rt, text), "{text}");
    }
}

fn has_status(site: &Site, link: &str, status: u16) -> bool {
    match site.get(link) {
        Some(reply) => reply.status == status,
        None => false,
    }
}

fn two_are_found(alloc: Global, rt: &impl Abort) -> bool {
    let site = site(alloc, rt, TWO);
    site.len() == 2
        && has_status(&site, "http://a.test/1", 200)
        && has_status(&site, "http://a.test/2", 301)
}

fn a_third_is_not_found(alloc: Global, rt: &impl Abort) -> bool {
    let site = site(alloc, rt, TWO);
    site.get("http://a.test/3").is_none()
}

#[test]
fn finds_replies_by_their_links(rt: HostRuntime) {
    let alloc = rt.alloc();
    assert!(rt; two_are_found(alloc, &rt));
    assert!(rt; a_third_is_not_found(alloc, &rt));
}

// `TWO` with one part in the place of another.
fn changed(alloc: Global, rt: &impl Abort, old: &str, new: &str) -> String {
    let (front, back) = TWO.split_once(old).expect(rt, "a part");
    format!(in alloc; "{front}{new}{back}").expect(rt, "memory")
}

fn is_fault_at(read: Result<Site, SiteFault>, place: usize) -> bool {
    match read {
        Err(SiteFault::Bad { at }) => at == place,
        _ => false,
    }
}

fn has_fault_at(alloc: Global, rt: &impl Abort, old: &str, new: &str, place: usize) -> bool {
    let text = changed(alloc, rt, old, new);
    is_fault_at(read_site(alloc, text.as_bytes()), place)
}

#[test]
fn places_each_fault(rt: HostRuntime) {
    for (old, new, place) in FAULTS {
        assert!(rt; has_fault_at(rt.alloc(), &rt, old, new, place), "{new}");
    }
}

// The sites of one document, of two that are 1 apart, and of five that are 3 apart.
const ONE_MADE: &str =
    "site 1\nlink http://self.test/d0\nstatus 200\ntype application/n-triples\nbody 179\n<http://self.test/d0#it> <http://self.test/v#next> <http://self.test/d0#it> .\n<http://self.test/d0#it> <http://self.test/v#mark> \"0\"^^<http://www.w3.org/2001/XMLSchema#integer> .\n\nlink http://self.test/v\nstatus 200\ntype text/turtle\nbody 26\n<#next> <#label> \"next\" .\n\nend\n";

const TWO_MADE: &str =
    "site 1\nlink http://self.test/d0\nstatus 200\ntype application/n-triples\nbody 257\n<http://self.test/d0#it> <http://self.test/v#next> <http://self.test/d1#it> .\n<http://self.test/d0#it> <http://self.test/v#next> <http://self.test/d1#it> .\n<http://self.test/d0#it> <http://self.test/v#mark> \"0\"^^<http://www.w3.org/2001/XMLSchema#integer> .\n\nlink http://self.test/d1\nstatus 200\ntype text/turtle\nbody 75\n@prefix v: <http://self.test/v#> .\n<#it> v:next <d0#it> .\n<#it> v:mark 1 .\n\nlink http://self.test/v\nstatus 200\ntype text/turtle\nbody 26\n<#next> <#label> \"next\" .\n\nend\n";

const FIVE_MADE: &str =
    "site 1\nlink http://self.test/d0\nstatus 200\ntype application/n-triples\nbody 335\n<http://self.test/d0#it> <http://self.test/v#next> <http://self.test/d1#it> .\n<http://self.test/d0#it> <http://self.test/v#next> <http://self.test/d2#it> .\n<http://self.test/d0#it> <http://self.test/v#next> <http://self.test/d1#it> .\n<http://self.test/d0#it> <http://self.test/v#mark> \"0\"^^<http://www.w3.org/2001/XMLSchema#integer> .\n\nlink http://self.test/d1\nstatus 200\ntype text/turtle\nbody 121\n@prefix v: <http://self.test/v#> .\n<#it> v:next <d3#it> .\n<#it> v:next <d4#it> .\n<#it> v:next <d4#it> .\n<#it> v:mark 1 .\n\nlink http://self.test/d2\nstatus 200\ntype application/n-triples\nbody 179\n<http://self.test/d2#it> <http://self.test/v#next> <http://self.test/d2#it> .\n<http://self.test/d2#it> <http://self.test/v#mark> \"2\"^^<http://www.w3.org/2001/XMLSchema#integer> .\n\nlink http://self.test/d3\nstatus 200\ntype text/turtle\nbody 75\n@prefix v: <http://self.test/v#> .\n<#it> v:next <d0#it> .\n<#it> v:mark 3 .\n\nlink http://self.test/d4\nstatus 200\ntype application/n-triples\nbody 179\n<http://self.test/d4#it> <http://self.test/v#next> <http://self.test/d3#it> .\n<http://self.test/d4#it> <http://self.test/v#mark> \"4\"^^<http://www.w3.org/2001/XMLSchema#integer> .\n\nlink http://self.test/v\nstatus 200\ntype text/turtle\nbody 26\n<#next> <#label> \"next\" .\n\nend\n";

fn makes(alloc: Global, rt: &impl Abort, n: u64, step: u64, text: &str) -> bool {
    if n < 1 || n > 2000 {
        return false;
    }
    let site = make_site(alloc, n, step).expect(rt, "memory");
    write_site(alloc, &site).expect(rt, "memory").as_slice() == text.as_bytes()
}

#[test]
fn makes_sites_of_two_numbers(rt: HostRuntime) {
    let alloc = rt.alloc();
    assert!(rt; makes(alloc, &rt, 1, 0, ONE_MADE));
    assert!(rt; makes(alloc, &rt, 2, 1, TWO_MADE));
    assert!(rt; makes(alloc, &rt, 5, 3, FIVE_MADE));
}
