ghost use Rattle.std.specs.Prelude.{◌≡◌, [], OnOk, IfOk};
ghost use Rattle.std.specs.Option.{option_to_list};
ghost use Rattle.rdf_terms.specs.Lists.{add_all};
ghost use Rattle.link_uri.specs.Links as link;
ghost use Rattle.link_uri.specs.Links.{AreLinks, same_link};
ghost use Rattle.reach_criteria.specs.Met.{IsThere};

use indexmap::IndexSet;
use link_uri::{Link, link_of};
use rdf_terms::{Memory, TextBuf};
use std::alloc::Global;
use std::marker::Model;

/// The links of IRIs in the order in which they came, each once.
#[derive(Drop)]
pub struct Gathered {
    links: IndexSet<Link>,
    // IRIs whose link, where they have one, is there: what is met again need not be read again
    met: IndexSet<TextBuf>,
}

impl Model for Gathered {
    ghost use Rattle.std.specs.Prelude.{List};
    ghost use Rattle.link_uri.specs.declared.link.Link.{Link};
    ghost use Rattle.reach_criteria.specs.Met.{IsGathered};

    ghost Value = { List Link };

    ghost view = { λ g. g.links.keys };

    ghost invariant = { λ g. IsGathered g.links.keys g.met.keys };
}

impl Gathered {
    /// No links. No memory is taken.
    pub fn new(alloc: Global) -> Gathered
        ensures { result ≡ [] }
    {
        Gathered {
            links: IndexSet::new(alloc),
            met: IndexSet::new(alloc),
        }
    }

    // Appends the link of the IRI, where it has one that isn't there.
    fn add_link_of(&mut self, alloc: Global, iri: &str) -> Result<(), Memory>
        ensures { OnOk result (self.new ≡ add_all same_link self.old (option_to_list (link.link_of iri.now))) }
    {
        if let Some(link) = link_of(alloc, iri)? {
            self.links.insert(link)?;
        }
        Ok(())
    }

    /// Takes the IRI, whose link is there where it has one, for met. The text is shared.
    pub fn remember(&mut self, iri: &TextBuf) -> Result<(), Memory>
        requires { IsThere self.old iri.now }
        ensures { OnOk result (self.new ≡ self.old) }
    {
        self.met.insert(iri.copy()?)?;
        Ok(())
    }

    /// Appends the link of the IRI, where it has one that isn't there. An IRI that was met costs a
    /// hash, and any other its reading as a URL.
    pub fn add(&mut self, alloc: Global, iri: &TextBuf) -> Result<(), Memory>
        ensures { OnOk result (self.new ≡ add_all same_link self.old (option_to_list (link.link_of iri.now))) }
    {
        if self.met.contains(iri) {
            return Ok(());
        }
        self.add_link_of(alloc, iri.as_str())?;
        self.remember(iri)
    }

    pub fn into_vec(self, alloc: Global) -> Result<Vec<Link>, Memory>
        ensures links { IfOk result (λ v. v.items ≡ self) }
        ensures valid_links { IfOk result (λ v. AreLinks v.items) }
    {
        let Gathered { links, met: _ } = self;
        Ok(links.into_iter().collect(alloc)?)
    }
}
