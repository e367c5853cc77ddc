ghost use Rattle.std.specs.Prelude.{◌≡◌, ◌<◌, length, IfOk, OnOk, OnErr};
ghost use Rattle.link_uri.specs.Links.{IsLink};
ghost use Rattle.rdf_terms.specs.Lists.{IsIn};
ghost use Rattle.web_port.specs.Flights.{numbers};
ghost use Rattle.web_port.specs.Lanes.{started, nothing_flying, FlightsKept};
ghost use Rattle.web_port.specs.MemoryWeb.{fetch_of, fetching_port, next_polled, after_poll};
ghost use Rattle.web_port.specs.Port.{Polls, Waits, Starts, Stays};
ghost use Rattle.web_port.specs.Settings.{AreSettings};

use crate::lanes::Lanes;
use crate::trying::{place_behind, try_turn, turn_at};
use crate::{FetchSettings, Fetcher, Losses, Polled};
use link_uri::{Link, Scheme};
use rdf_terms::{Memory, TextBuf};
use reachability::Web;
use std::alloc::Global;
use std::marker::Model;

/// A fetcher over a web in memory. Its lists say which open link a poll tries, and which fail.
///
/// Poll k, from 0, tries the open link at the place `turns[k]`, modulo their number, in the order
/// of their starts; where that turn is 65,535 no link is tried. Behind the end of the list each
/// poll tries the first. A link of `fails` fails to connect in its first so many tries after each
/// start; any other try fails exactly where the web never answers the link, and is then cut. A
/// poll that ends in want of memory uses up no turn.
#[derive(Drop)]
pub struct MemoryWeb {
    web: Web,
    lanes: u16,
    tries: u8,
    turns: Vec<u16>,
    at: usize,
    fails: Vec<(TextBuf, u8)>,
    flying: Lanes,
}

impl Model for MemoryWeb {
    ghost use Rattle.std.specs.Prelude.{◌<◌, ◌≤◌, length, drop};
    ghost use Rattle.web_port.specs.Lanes.{FlightsKept};
    ghost use Rattle.web_port.specs.MemoryWeb.{Fetching};

    ghost Value = { Fetching };

    ghost view = { λ w. record {
      web = w.web;
      lanes = w.lanes;
      tries = w.tries;
      turns = drop w.at w.turns.items;
      fails = w.fails.items;
      flying = w.flying;
    } };

    ghost invariant = { λ w. (0 < w.lanes) × (0 < w.tries) × (w.at ≤ length w.turns.items)
        × FlightsKept w.tries w.flying.flights };
}

impl MemoryWeb {
    /// Nothing is open, and nothing happened. Of entries of `fails` with equal texts the first
    /// counts.
    pub fn new(
        alloc: Global,
        web: Web,
        settings: FetchSettings,
        turns: Vec<u16>,
        fails: Vec<(TextBuf, u8)>,
    ) -> MemoryWeb
        requires { AreSettings settings }
        ensures { result ≡ record {
          web = web;
          lanes = settings.lanes;
          tries = settings.tries;
          turns = turns.items;
          fails = fails.items;
          flying = nothing_flying;
        } }
    {
        MemoryWeb {
            web,
            lanes: settings.lanes,
            tries: settings.tries,
            turns,
            at: 0,
            fails,
            flying: Lanes::new(alloc),
        }
    }

    /// The faults.
    pub fn faults(&self) -> u64
        ensures { result ≡ self.now.flying.faults }
    {
        self.flying.faults()
    }

    /// The links that were given up.
    pub fn lost(&self) -> Losses
        ensures { result ≡ self.now.flying.lost }
    {
        self.flying.lost()
    }

    fn take_turn(&mut self) -> Result<Polled, Memory>
        ensures polled { IfOk result (λ polled. polled ≡ next_polled self.old) }
        ensures state { OnOk result (self.new ≡ after_poll self.old) }
        ensures unchanged { OnErr result (self.new ≡ self.old) }
        ensures kept { FlightsKept self.old.tries self.old.flying.flights }
    {
        let turn = turn_at(self.turns.as_slice(), self.at);
        let polled = try_turn(
            &mut self.flying,
            turn,
            &self.web,
            self.fails.as_slice(),
            self.tries,
        )?;
        self.at = place_behind(self.turns.as_slice(), self.at);
        Ok(polled)
    }
}

impl Fetcher for MemoryWeb {
    ghost fetch = { λ w. fetch_of w.web w.tries w.fails };

    ghost lanes = { λ w. w.lanes };

    ghost port = { λ w. fetching_port w };

    fn room(&self) -> bool {
        self.flying.flights().len() < self.lanes as usize
    }

    #[tactic(auto, using(crate::proofs::LanesLemmas::starts_behind))]
    fn start(&mut self, number: u64, link: &Link) -> Result<(), Memory>
        requires room { length self.old.flying.flights < self.old.lanes }
        requires fresh { IsIn (numbers self.old.flying.flights) number → ⊥ }
        requires link { IsLink link.now }
        requires plain { link.now.scheme ≡ Scheme.Http }
        ensures same { (fetch_of self.new.web self.new.tries self.new.fails
            ≡ fetch_of self.old.web self.old.tries self.old.fails)
            × (self.new.lanes ≡ self.old.lanes) }
        ensures ok { OnOk result (Starts (fetching_port self.old) number link.now.text
            (fetching_port self.new)) }
        ensures err { OnErr result (Stays (fetching_port self.old) (fetching_port self.new)) }

        // The lists stay as they are.
        ensures state { OnOk result (self.new ≡ record self.old {
          flying = started self.old.flying number link.now.text;
        }) }
        ensures unchanged { OnErr result (self.new ≡ self.old) }
    {
        self.flying.start(number, link.text.copy()?)
    }

    /// It costs the web's entries and the length of the answer.
    fn poll(&mut self) -> Result<Polled, Memory>
        ensures same { (fetch_of self.new.web self.new.tries self.new.fails
            ≡ fetch_of self.old.web self.old.tries self.old.fails)
            × (self.new.lanes ≡ self.old.lanes) }
        ensures ok { IfOk result (λ polled. Polls
            (fetch_of self.old.web self.old.tries self.old.fails)
            (fetching_port self.old) polled (fetching_port self.new)) }
        ensures err { OnErr result (Waits
            (fetch_of self.old.web self.old.tries self.old.fails)
            (fetching_port self.old) (fetching_port self.new)) }

        // The lists say what is answered.
        ensures polled { IfOk result (λ polled. polled ≡ next_polled self.old) }
        ensures state { OnOk result (self.new ≡ after_poll self.old) }
        ensures unchanged { OnErr result (self.new ≡ self.old) }
    {
        self.take_turn()
    }
}
