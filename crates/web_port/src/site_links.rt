ghost use Rattle.std.specs.Prelude.{◌≡◌, ◌<◌, IfOk, OnOk, OnErr, Some, length};
ghost use Rattle.web_port.specs.Counts.{no_losses};
ghost use Rattle.rdf_terms.specs.Lists.{IsIn};
ghost use Rattle.link_uri.specs.Links.{IsLink};
ghost use Rattle.web_port.specs.Flights.{numbers};
ghost use Rattle.web_port.specs.Lanes.{port_of, started, FlightsKept};
ghost use Rattle.reachability.specs.Web.{heard_at};
ghost use Rattle.web_port.specs.Port.{Polls, Waits, Starts, Stays};
ghost use Rattle.web_port.specs.SiteWeb as spec;

use crate::lanes::Lanes;
use crate::{FetchSettings, Fetcher, Links, Losses, MakeFault, Polled};
use link_uri::{Heard, Link, Reply, Scheme};
use rdf_terms::{ByteBuf, Memory};
use site_core::Site;
use std::alloc::Global;
use std::marker::Model;
use std::sync::Arc;

/// Makes fetchers over one site, which they share. Making one fails only for want of memory.
#[derive(Drop)]
pub struct SiteLinks {
    alloc: Global,
    site: Arc<Site, Global>,
    spent: u64,
    lost: Losses,
}

impl Model for SiteLinks {
    ghost use Rattle.std.specs.Arc.{arc_value};
    ghost use Rattle.web_port.specs.SiteWeb.{SiteLinking};

    ghost Value = { SiteLinking };

    ghost view = { λ l. record { site = arc_value l.site; spent = l.spent; lost = l.lost } };
}

/// A fetcher over a site: each poll answers the link that was started first. Its web is the site,
/// and a 404 without fields and body everywhere else. No try fails.
#[derive(Drop)]
pub struct SiteFetcher {
    alloc: Global,
    site: Arc<Site, Global>,
    lanes: u16,
    tries: u8,
    flying: Lanes,
}

impl Model for SiteFetcher {
    ghost use Rattle.std.specs.Prelude.{◌<◌};
    ghost use Rattle.std.specs.Arc.{arc_value};
    ghost use Rattle.web_port.specs.Lanes.{FlightsKept};
    ghost use Rattle.web_port.specs.SiteWeb.{SiteFetching};

    ghost Value = { SiteFetching };

    ghost view = { λ f. record {
      site = arc_value f.site;
      lanes = f.lanes;
      tries = f.tries;
      flying = f.flying;
    } };

    ghost invariant = { λ f. (0 < f.lanes) × (0 < f.tries) × FlightsKept f.tries f.flying.flights };
}

impl SiteLinks {
    /// Fetchers over the site.
    pub fn new(alloc: Global, site: Site) -> Result<SiteLinks, Memory>
        ensures { IfOk result (λ l. l ≡ record { site = site; spent = 0; lost = no_losses }) }
    {
        Ok(SiteLinks {
            alloc,
            site: Arc::new(alloc, site)?,
            spent: 0,
            lost: Losses::none(),
        })
    }
}

// What the web of a site answers for the link of a text.
fn site_answer(alloc: Global, site: &Site, link: &str) -> Result<Heard, Memory>
    ensures { IfOk result (λ heard. heard ≡ heard_at (spec.web_of_site site.now) link.now) }
{
    match site.get(link) {
        Some(reply) => Ok(Heard::Reply(reply.copy()?)),
        None => Ok(Heard::Reply(not_found(alloc))),
    }
}

fn not_found(alloc: Global) -> Reply
    ensures { result ≡ spec.not_found }
{
    Reply {
        status: 404,
        media: None,
        coding: None,
        location: None,
        body: ByteBuf::new(alloc),
    }
}

// Answers the first of the open links.
fn answer_first(alloc: Global, flying: &mut Lanes, site: &Site) -> Result<Polled, Memory>
    ensures polled { IfOk result (λ polled.
        polled ≡ spec.site_polled (spec.web_of_site site.now) flying.old.flights) }
    ensures state { OnOk result (flying.new ≡ spec.after_site_poll flying.old flying.old.flights) }
    ensures err { OnErr result (flying.new ≡ flying.old) }
{
    if flying.flights().is_empty() {
        return Ok(Polled::Idle);
    }
    let heard = site_answer(alloc, site, flying.flights()[0].link.as_str())?;
    Ok(flying.answer(0, heard))
}

impl SiteFetcher {
    fn answer(&mut self) -> Result<Polled, Memory>
        ensures polled { IfOk result (λ polled.
            polled ≡ spec.site_polled (spec.web_of_site self.old.site) self.old.flying.flights) }
        ensures state { OnOk result (self.new ≡ record self.old {
          flying = spec.after_site_poll self.old.flying self.old.flying.flights;
        }) }
        ensures unchanged { OnErr result (self.new ≡ self.old) }
        ensures kept { FlightsKept self.old.tries self.old.flying.flights }
    {
        let polled = answer_first(self.alloc, &mut self.flying, &self.site)?;
        Ok(polled)
    }
}

impl Fetcher for SiteFetcher {
    ghost use Rattle.web_port.specs.SiteWeb.{site_fetch};

    ghost fetch = { λ f. site_fetch f.site f.tries };

    ghost lanes = { λ f. f.lanes };

    ghost port = { λ f. port_of 0 f.flying };

    fn room(&self) -> bool {
        self.flying.flights().len() < self.lanes as usize
    }

    #[tactic(auto, using(crate::proofs::LanesLemmas::starts_behind))]
    fn start(&mut self, number: u64, link: &Link) -> Result<(), Memory>
        requires room { length self.old.flying.flights < self.old.lanes }
        requires fresh { IsIn (numbers self.old.flying.flights) number → ⊥ }
        requires link { IsLink link.now }
        requires plain { link.now.scheme ≡ Scheme.Http }
        ensures same { (spec.site_fetch self.new.site self.new.tries
            ≡ spec.site_fetch self.old.site self.old.tries) × (self.new.lanes ≡ self.old.lanes) }
        ensures ok { OnOk result (Starts (port_of 0 self.old.flying) number link.now.text
            (port_of 0 self.new.flying)) }
        ensures err { OnErr result (Stays (port_of 0 self.old.flying) (port_of 0 self.new.flying)) }

        // The link comes last.
        ensures state { OnOk result (self.new ≡ record self.old {
          flying = started self.old.flying number link.now.text;
        }) }
        ensures unchanged { OnErr result (self.new ≡ self.old) }
    {
        self.flying.start(number, link.text.copy()?)
    }

    /// It costs a search in the site, and the length of the answer.
    fn poll(&mut self) -> Result<Polled, Memory>
        ensures same { (spec.site_fetch self.new.site self.new.tries
            ≡ spec.site_fetch self.old.site self.old.tries) × (self.new.lanes ≡ self.old.lanes) }
        ensures ok { IfOk result (λ polled. Polls (spec.site_fetch self.old.site self.old.tries)
            (port_of 0 self.old.flying) polled (port_of 0 self.new.flying)) }
        ensures err { OnErr result (Waits (spec.site_fetch self.old.site self.old.tries)
            (port_of 0 self.old.flying) (port_of 0 self.new.flying)) }

        // The link that was started first is answered, and nothing is counted.
        ensures polled { IfOk result (λ polled.
            polled ≡ spec.site_polled (spec.web_of_site self.old.site) self.old.flying.flights) }
        ensures state { OnOk result (self.new ≡ record self.old {
          flying = spec.after_site_poll self.old.flying self.old.flying.flights;
        }) }
        ensures unchanged { OnErr result (self.new ≡ self.old) }
    {
        self.answer()
    }
}

impl Links for SiteLinks {
    type F = SiteFetcher;

    ghost use Rattle.std.specs.Prelude.{Some, true};
    ghost use Rattle.reachability.specs.Web.{heard_at};
    ghost use Rattle.web_port.specs.SiteWeb.{web_of_site};

    ghost web = { λ l. Some (heard_at (web_of_site l.site)) };

    ghost sure = { λ _. true };

    ghost faults = { λ _. 0 };

    ghost spent = { λ l. l.spent };

    ghost lost = { λ l. l.lost };

    fn fetcher(&mut self, settings: &FetchSettings) -> Result<SiteFetcher, MakeFault> {
        match Arc::try_clone(&self.site) {
            Ok(site) => Ok(SiteFetcher {
                alloc: self.alloc,
                site,
                lanes: settings.lanes,
                tries: settings.tries,
                flying: Lanes::new(self.alloc),
            }),
            Err(_) => Err(MakeFault::Memory),
        }
    }

    fn retire(&mut self, fetcher: SiteFetcher) {
        self.spent = self.spent.saturating_add(fetcher.flying.faults());
        self.lost.add_all(&fetcher.flying.lost());
    }
}
