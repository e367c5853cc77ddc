//! Webs in memory, seeds, and a query.
ghost use Rattle.std.specs.Prelude.{IfOk, OnOk};
ghost use Rattle.link_uri.specs.Links.{AreLinks};

use algebra_core::{Algebra, Key, Query};
use link_uri::{Heard, Link, Reply, link_of};
use rdf_terms::{ByteBuf, Memory, Seq, Term, TextBuf};
use reachability::Web;
use rows_core::{Spot, TriplePattern};
use site_core::{Site, read_site};
use std::alloc::Global;

// A document, a redirect to it, one to itself, and two to each other.
const SITE: &[u8] = b"site 1
link http://a.test/1
status 200
type application/n-triples
body 50
<http://a.test/1#me> <http://v.test/name> \"Ann\" .

link http://a.test/r
status 303
location /1#me
body 0

link http://a.test/self
status 301
location /self
body 0

link http://a.test/x
status 302
location /y
body 0

link http://a.test/y
status 302
location /x
body 0

end
";

fn entry_of(entry: &(TextBuf, Reply)) -> Result<(TextBuf, Heard), Memory> {
    let text = entry.0.copy()?;
    let reply = entry.1.copy()?;
    Ok((text, Heard::Reply(reply)))
}

// What is answered for every link that the site lacks.
fn not_found(alloc: Global) -> Heard {
    Heard::Reply(Reply {
        status: 404,
        media: None,
        coding: None,
        location: None,
        body: ByteBuf::new(alloc),
    })
}

fn web_of(alloc: Global, site: &Site) -> Result<Web, Memory> {
    let mut entries = Seq::new(alloc);
    for entry in site.entries() {
        entries.push(entry_of(entry)?)?;
    }
    Ok(Web {
        entries,
        otherwise: not_found(alloc),
    })
}

/// The web of the site, and a web without answers where its text is none.
pub(crate) fn redirects(alloc: Global) -> Result<Web, Memory> {
    match read_site(alloc, SITE) {
        Ok(site) => web_of(alloc, &site),
        Err(_) => Ok(silent(alloc)),
    }
}

/// A web that never answers.
pub(crate) fn silent(alloc: Global) -> Web {
    Web {
        entries: Seq::new(alloc),
        otherwise: Heard::Never,
    }
}

// Adds the link of the text, where it has one.
fn push_link(alloc: Global, links: &mut Vec<Link>, text: &str) -> Result<(), Memory>
    requires { AreLinks links.old.items }
    ensures { OnOk result (AreLinks links.new.items) }
{
    let Some(link) = link_of(alloc, text)? else {
        return Ok(());
    };
    links.push(link)?;
    Ok(())
}

/// The links of the texts that have one.
#[tactic(auto, using(crate::proofs::Seeds::own_none))]
pub(crate) fn links(alloc: Global, texts: &[&str]) -> Result<Vec<Link>, Memory>
    ensures { IfOk result (λ links. AreLinks links.items) }
{
    let mut links = Vec::new(alloc);
    for text in texts {
        push_link(alloc, &mut links, text)?;
    }
    Ok(links)
}

fn name(alloc: Global, names: &mut Seq<TextBuf>, name: &str) -> Result<(), Memory> {
    let name = TextBuf::from_str(alloc, name)?;
    names.push(name)
}

fn variables(alloc: Global) -> Result<Seq<TextBuf>, Memory> {
    let mut names = Seq::new(alloc);
    name(alloc, &mut names, "s")?;
    name(alloc, &mut names, "n")?;
    Ok(names)
}

fn selected(alloc: Global) -> Result<Seq<u16>, Memory> {
    let mut select = Seq::new(alloc);
    select.push(1)?;
    Ok(select)
}

fn pattern(alloc: Global) -> Result<TriplePattern, Memory> {
    let predicate = TextBuf::from_str(alloc, "http://v.test/name")?;
    Ok(TriplePattern {
        s: Spot::Var(0),
        p: Spot::Term(Term::Iri(predicate)),
        o: Spot::Var(1),
    })
}

fn body(alloc: Global) -> Result<Algebra, Memory> {
    let mut patterns = Seq::new(alloc);
    patterns.push(pattern(alloc)?)?;
    Ok(Algebra::Bgp(patterns))
}

fn query(names: Seq<TextBuf>, select: Seq<u16>, body: Algebra, order: Seq<Key>) -> Query {
    Query {
        names,
        width: 2,
        select,
        distinct: false,
        body,
        order,
    }
}

/// `SELECT ?n WHERE { ?s <http://v.test/name> ?n }`
pub(crate) fn names(alloc: Global) -> Result<Query, Memory> {
    let body = body(alloc)?;
    let names = variables(alloc)?;
    let select = selected(alloc)?;
    Ok(query(names, select, body, Seq::new(alloc)))
}
