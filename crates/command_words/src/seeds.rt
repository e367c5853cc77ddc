ghost use Rattle.std.specs.Prelude.{◌≡◌, IfOk, IfSome, map};
ghost use Rattle.clap.specs.Words.{found_of, rows_of};
ghost use Rattle.link_uri.specs.Links.{AreLinks};
ghost use Rattle.command_words.specs.Values as spec;

use crate::values::all;
use clap::ArgMatches;
use link_uri::{Link, link_of};
use rdf_terms::{Memory, Seq};
use std::alloc::Global;

const MOST_SEEDS: usize = 1_000;

// The links of the texts, in order, or none where one has no link. It costs time linear in the texts.
fn links_of(alloc: Global, texts: &[&str]) -> Result<Option<Seq<Link>>, Memory>
    ensures value { IfOk result (λ links. links ≡ spec.links_of (map (λ t. t.now) texts.now)) }
    ensures valid_links { IfOk result (λ links. IfSome links AreLinks) }
{
    let mut links = Seq::new(alloc);
    for text in texts {
        match link_of(alloc, *text)? {
            Some(link) => links.push(link)?,
            None => return Ok(None),
        }
    }
    Ok(Some(links))
}

fn are_counted(texts: &[&str]) -> bool
    ensures { result ≡ spec.are_counted (map (λ t. t.now) texts.now) }
{
    1 <= texts.len() && texts.len() <= MOST_SEEDS
}

fn counted_links(alloc: Global, texts: &[&str]) -> Result<Option<Seq<Link>>, Memory>
    ensures value { IfOk result (λ links. links ≡ spec.counted_links (map (λ t. t.now) texts.now)) }
    ensures valid_links { IfOk result (λ links. IfSome links AreLinks) }
{
    if are_counted(texts) {
        links_of(alloc, texts)
    } else {
        Ok(None)
    }
}

/// The links of the seeds, in order, or none where they are too many or one has no link.
pub(crate) fn seeds_of(alloc: Global, matches: &ArgMatches<'_>) -> Result<Option<Seq<Link>>, Memory>
    ensures value { IfOk result (λ links. links ≡ spec.seeds_of (rows_of (found_of matches.now))) }
    ensures valid_links { IfOk result (λ links. IfSome links AreLinks) }
{
    match all(matches, "seed") {
        Some(texts) => counted_links(alloc, texts),
        None => Ok(None),
    }
}
