//! Tests of `web_port`, and of what an answer comes to.
ghost use Rattle.std.specs.Prelude.{◌≡◌, []};
ghost use Rattle.link_uri.specs.Links.{IsLink};

use link_uri::{Heard, Link, Scheme, link_of};
use rdf_terms::{Seq, TextBuf};
use reachability::{Found, Outcome, Why};
use site_core::{Site, read_site};
use std::alloc::Global;
use std::process::Abort;
use traverse_core::classify_got;
use web_port::{
    Cause, FetchSettings, Fetcher, Got, Links, MakeFault, MemoryLinks, MemoryWeb, SiteLinks, Via,
    Web, next_landed,
};

const FIRST: &str = "http://a.test/1";

const SECOND: &str = "http://a.test/2";

const SITE: &[u8] = b"site 1\nlink http://a.test/1\nstatus 200\nbody 1\nx\nend\n";

fn settings(tries: u8) -> FetchSettings
    ensures { (result.lanes ≡ 2) × (result.tries ≡ tries) }
{
    FetchSettings {
        lanes: 2,
        tries,
        body: 1_048_576,
        via: None,
    }
}

fn first(alloc: Global, rt: &impl Abort) -> TextBuf {
    TextBuf::from_str(alloc, FIRST).expect(rt, "memory")
}

// The first link is answered by TooLong, and any other never.
fn web(alloc: Global, rt: &impl Abort) -> Web {
    let first = first(alloc, rt);
    let mut entries = Seq::new(alloc);
    entries.push((first, Heard::TooLong)).expect(rt, "memory");
    Web {
        entries,
        otherwise: Heard::Never,
    }
}

// The first link fails to connect so often.
fn fails(alloc: Global, rt: &impl Abort, times: u8) -> Vec<(TextBuf, u8)> {
    let first = first(alloc, rt);
    Vec::from_array(alloc, [(first, times)]).expect(rt, "memory")
}

fn link(alloc: Global, rt: &impl Abort, text: &str) -> Link
    ensures { IsLink result }
{
    link_of(alloc, text)
        .expect(rt, "memory")
        .expect(rt, "a link")
}

// What is got for the link, where it could be started as number 7 and landed as such.
fn look_up<F: Fetcher>(rt: &impl Abort, fetcher: &mut F, link: &Link) -> Option<Got>
    requires nothing { (F.port fetcher.old).flights ≡ [] }
    requires link { IsLink link.now }
{
    if link.scheme != Scheme::Http || !fetcher.room() {
        return None;
    }
    fetcher.start(7, link).expect(rt, "memory");
    match next_landed(fetcher).expect(rt, "memory") {
        Some((7, got)) => Some(got),
        _ => None,
    }
}

// The same by a fetcher that is made for it.
fn look_up_by<L: Links>(rt: &impl Abort, links: &mut L, link: &Link) -> Option<Got>
    requires { IsLink link.now }
{
    let settings = settings(3);
    let mut fetcher = links.fetcher(&settings).expect(rt, "a fetcher");
    let got = look_up(rt, &mut fetcher, link);
    links.retire(fetcher);
    got
}

fn is_lost(got: &Option<Got>, of: Cause, in_tries: u8) -> bool {
    match got {
        Some(Got::Unreachable { cause, tries }) => *cause == of && *tries == in_tries,
        _ => false,
    }
}

fn fetcher(alloc: Global, rt: &impl Abort) -> MemoryWeb
    ensures { result.flying.flights ≡ [] }
{
    let web = web(alloc, rt);
    let fails = fails(alloc, rt, 2);
    MemoryWeb::new(alloc, web, settings(2), Vec::new(alloc), fails)
}

fn is_lost_in_two_tries(alloc: Global, rt: &impl Abort) -> bool {
    let mut fetcher = fetcher(alloc, rt);
    let link = link(alloc, rt, FIRST);
    is_lost(&look_up(rt, &mut fetcher, &link), Cause::Connect, 2)
}

#[test]
fn a_link_is_lost_by_its_last_cause(rt: HostRuntime) {
    let alloc = rt.alloc();
    assert!(rt; is_lost_in_two_tries(alloc, &rt));
}

// What makes fetchers of this web, but fails at its second call.
fn links(alloc: Global, rt: &impl Abort) -> MemoryLinks {
    let web = web(alloc, rt);
    let fails = fails(alloc, rt, 0);
    MemoryLinks::new(alloc, web, fails, 1)
}

fn is_refused<L: Links>(links: &mut L) -> bool {
    let settings = settings(3);
    matches!(links.fetcher(&settings), Err(MakeFault::Failed))
}

fn makes_one_and_then_fails(alloc: Global, rt: &impl Abort) -> bool {
    let mut links = links(alloc, rt);
    let link = link(alloc, rt, SECOND);
    let got = look_up_by(rt, &mut links, &link);
    is_lost(&got, Cause::Cut, 3) && is_refused(&mut links)
}

#[test]
fn makes_fetchers_but_at_one_call(rt: HostRuntime) {
    let alloc = rt.alloc();
    assert!(rt; makes_one_and_then_fails(alloc, &rt));
}

fn via(alloc: Global, rt: &impl Abort) -> Via {
    let host = TextBuf::from_str(alloc, "127.0.0.1").expect(rt, "memory");
    Via { host, port: 8080 }
}

fn is_via(via: &Via) -> bool {
    via.host.as_str() == "127.0.0.1" && via.port == 8080
}

fn via_is_copied(alloc: Global, rt: &impl Abort) -> bool {
    let via = via(alloc, rt);
    let copy = via.copy().expect(rt, "memory");
    is_via(&copy)
}

fn are_copied(settings: &FetchSettings) -> bool {
    match &settings.via {
        Some(via) => settings.lanes == 8 && is_via(via),
        None => false,
    }
}

fn settings_are_equal(alloc: Global, rt: &impl Abort) -> bool {
    let via = via(alloc, rt);
    let settings = FetchSettings {
        lanes: 8,
        tries: 3,
        body: 1_048_576,
        via: Some(via),
    };
    let copy = settings.copy().expect(rt, "memory");
    are_copied(&copy)
}

#[test]
fn settings_are_copied(rt: HostRuntime) {
    let alloc = rt.alloc();
    assert!(rt; via_is_copied(alloc, &rt));
    assert!(rt; settings_are_equal(alloc, &rt));
}

fn status_of(got: &Option<Got>) -> u16 {
    match got {
        Some(Got::Heard(Heard::Reply(reply))) => reply.status,
        _ => 0,
    }
}

fn site(alloc: Global, rt: &impl Abort) -> Site {
    read_site(alloc, SITE).expect(rt, "a site")
}

fn answers_by(
    alloc: Global,
    rt: &impl Abort,
    links: &mut SiteLinks,
    text: &str,
    status: u16,
) -> bool {
    let link = link(alloc, rt, text);
    status_of(&look_up_by(rt, links, &link)) == status
}

// By two fetchers in turn, of which the first was taken back.
fn answers_each(alloc: Global, rt: &impl Abort) -> bool {
    let mut links = SiteLinks::new(alloc, site(alloc, rt)).expect(rt, "memory");
    answers_by(alloc, rt, &mut links, FIRST, 200) && answers_by(alloc, rt, &mut links, SECOND, 404)
}

#[test]
fn a_site_answers_as_a_web(rt: HostRuntime) {
    let alloc = rt.alloc();
    assert!(rt; answers_each(alloc, &rt));
}

fn is_refused_for_its_length(found: &Found) -> bool {
    matches!(found, Found::Outcome(Outcome::Refused(Why::Length)))
}

fn classifies_what_was_got(alloc: Global, rt: &impl Abort) -> bool {
    let link = link(alloc, rt, FIRST);
    let found = classify_got(alloc, &link, Got::Heard(Heard::TooLong), 100).expect(rt, "memory");
    is_refused_for_its_length(&found)
}

#[test]
fn an_answer_that_is_too_long_is_refused(rt: HostRuntime) {
    let alloc = rt.alloc();
    assert!(rt; classifies_what_was_got(alloc, &rt));
}
