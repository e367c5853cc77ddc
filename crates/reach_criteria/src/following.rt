ghost use Rattle.std.specs.Prelude.{◌≡◌, [], IfOk, OnOk, if◌then◌else◌, ◌↔◌, ℕ, List};
ghost use Rattle.std.specs.Option.{option_to_list};
ghost use Rattle.rdf_terms.specs.Lists.{IsIn, Apart, add_all};
ghost use Rattle.link_uri.specs.Links.{AreLinks, same_link, texts};
ghost use Rattle.reach_criteria.specs.Follow.{IsTarget, named_link, named_links, selects as is_selected};
ghost use Rattle.reach_criteria.specs.Follow as spec;

use crate::criterion::{Criterion, selects};
use crate::gathered::Gathered;
use link_uri::Link;
use rdf_terms::{Memory, Term, Triple};
use rows_core::TriplePattern;
use std::alloc::Global;

fn add_term(links: &mut Gathered, alloc: Global, term: &Term) -> Result<(), Memory>
    ensures { OnOk result (links.new ≡ add_all same_link links.old (option_to_list (named_link term.now))) }
{
    match term {
        Term::Iri(iri) => links.add(alloc, iri),
        _ => Ok(()),
    }
}

#[tactic(auto, using(crate::proofs::Targets::add_three))]
fn add_named(links: &mut Gathered, alloc: Global, triple: &Triple) -> Result<(), Memory>
    ensures { OnOk result (links.new ≡ add_all same_link links.old (named_links triple.now)) }
{
    add_term(links, alloc, &triple.s)?;
    add_term(links, alloc, &triple.p)?;
    add_term(links, alloc, &triple.o)
}

fn add_selected(
    links: &mut Gathered,
    alloc: Global,
    triple: &Triple,
    criterion: Criterion,
    patterns: &[TriplePattern],
) -> Result<(), Memory>
    ensures { OnOk result (links.new
        ≡ add_all same_link links.old (if is_selected criterion patterns.now triple.now then named_links triple.now else [])) }
{
    if selects(criterion, triple, patterns) {
        add_named(links, alloc, triple)?;
    }
    Ok(())
}

// Goes over the triples.
#[tactic(auto, using(crate::proofs::Targets::gathered_more))]
fn gather(
    alloc: Global,
    triples: &[Triple],
    criterion: Criterion,
    patterns: &[TriplePattern],
) -> Result<Vec<Link>, Memory>
    ensures links { IfOk result (λ links. links.items ≡ spec.links_of criterion patterns.now triples.now) }
    ensures valid_links { IfOk result (λ links. AreLinks links.items) }
{
    let mut links = Gathered::new(alloc);
    for triple in triples {
        add_selected(&mut links, alloc, triple, criterion, patterns)?;
    }
    links.into_vec(alloc)
}

/// The links that selected triples name, each once, in order of first appearance: subject,
/// predicate, object.
///
/// It takes the test of each triple and a hash of each IRI of a selected one; an IRI that comes for
/// the first time is read as a URL besides, in time in its length, and one that comes again is not.
/// It takes memory for the links, and while it runs for a share of each such IRI's text.
pub fn links_of(
    alloc: Global,
    triples: &[Triple],
    criterion: Criterion,
    patterns: &[TriplePattern],
) -> Result<Vec<Link>, Memory>
    ensures links { IfOk result (λ links. links.items ≡ spec.links_of criterion patterns.now triples.now) }
    // the same without the order: exactly the links that selected triples name, each once
    ensures exact { IfOk result (λ links. (text : List ℕ)
        → IsIn (texts links.items) text ↔ IsTarget criterion patterns.now triples.now text) }
    ensures once { IfOk result (λ links. Apart (texts links.items)) }
    ensures valid_links { IfOk result (λ links. AreLinks links.items) }
{
    let links = gather(alloc, triples, criterion, patterns)?;
    Ok(links)
}
