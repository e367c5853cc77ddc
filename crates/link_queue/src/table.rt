ghost use Rattle.std.specs.Prelude.{◌≡◌, ◌≢◌, ◌<◌, ◌≤◌, ◌↔◌, ◌++◌, ◌∷◌, ℕ, List, [], length, take, slice_get, vec_capacity, Some, None, IsTrue, IsNone, IfSome, IfNone, IfOk, OnOk, OnErr};
ghost use Rattle.std.specs.List.{list_any};
ghost use Rattle.rdf_terms.specs.Lists.{Apart};
ghost use Rattle.link_uri.specs.Links.{IsLink, AreLinks, same_link, texts};
ghost use Rattle.link_queue.specs.Table.{links, link_at, state_at, with_state, first_queued, first_flying, flying, queue, queue_all, marks, queued_links};
ghost use Rattle.link_queue.specs.declared.state.LinkState.TheVariants.{Queued, InFlight, Settled};

use crate::LinkState;
use indexmap::IndexMap;
use link_uri::{Link, is_same_link};
use rdf_terms::{Memory, TextBuf};
use std::alloc::Global;
use std::marker::Model;

/// Links with their states, in order of coming, each once.
#[derive(Drop)]
pub struct LinkTable {
    map: IndexMap<Link, LinkState>,
    // no link before it waits, so that `take` need not search from the start
    cursor: usize,
    // empty, with room for the text of each link, so that `into_queued` takes no memory
    spare: Vec<TextBuf>,
}

impl Model for LinkTable {
    ghost use Rattle.std.specs.Prelude.{List, vec_capacity};
    ghost use Rattle.link_uri.specs.declared.link.Link.{Link};
    ghost use Rattle.link_queue.specs.declared.state.LinkState.{LinkState};
    ghost use Rattle.link_queue.specs.Table.{IsTable};

    ghost Value = { List (Link × LinkState) };

    ghost view = { λ t. t.map.entries };

    ghost invariant = { λ t. IsTable t.map.entries t.cursor t.spare.items (vec_capacity t.spare) };
}

fn state_in(map: &IndexMap<Link, LinkState>, place: usize) -> LinkState
    requires { place < length map.now.entries }
    ensures { state_at map.now.entries place ≡ Some result }
{
    match map.get_index(place) {
        Some((_link, state)) => *state,
        None => unreachable!(),
    }
}

// The first place that waits, where none before `from` does.
fn first_from(map: &IndexMap<Link, LinkState>, from: usize) -> Option<usize>
    requires waits { (n : ℕ) → state_at map.now.entries n ≡ Some Queued → from ≤ n }
    requires within { from ≤ length map.now.entries }
    ensures { result ≡ first_queued map.now.entries }
{
    for place in from..map.len() {
        if let LinkState::Queued = state_in(map, place) {
            return Some(place);
        }
    }
    None
}

fn first_out_of(map: &IndexMap<Link, LinkState>) -> Option<usize>
    ensures { result ≡ first_flying map.now.entries }
{
    for place in 0..map.len() {
        if let LinkState::InFlight = state_in(map, place) {
            return Some(place);
        }
    }
    None
}

#[tactic(auto, using(crate::proofs::Tables::set_is))]
fn mark(map: &mut IndexMap<Link, LinkState>, place: usize, state: LinkState)
    requires { place < length map.old.entries }
    ensures { map.new.entries ≡ with_state map.old.entries place state }
{
    map[place] = state;
}

// Appends the text of the link, for which there is room.
fn push_text(texts: &mut Vec<TextBuf>, link: Link)
    requires { length texts.old.items < vec_capacity texts.old }
    ensures items { texts.new.items ≡ texts.old.items ++ link.text ∷ [] }
    ensures room { vec_capacity texts.old ≤ vec_capacity texts.new }
{
    let Link {
        text,
        scheme: _,
        host: _,
        port: _,
        target: _,
    } = link;
    match texts.push(text) {
        Ok(()) => {}
        Err(_) => unreachable!(),
    }
}

fn least(a: usize, b: usize) -> usize
    ensures { (result ≤ a) × (result ≤ b) }
{
    if a < b { a } else { b }
}

impl LinkTable {
    /// No links. No memory is taken.
    pub fn new(alloc: Global) -> LinkTable
        ensures { result ≡ [] }
    {
        LinkTable {
            map: IndexMap::new(alloc),
            cursor: 0,
            spare: Vec::new(alloc),
        }
    }

    /// The number of links, of which no two have one text.
    pub fn len(&self) -> u64
        ensures len { result ≡ length self.now }
        ensures apart { Apart (texts (links self.now)) }
        ensures valid_links { AreLinks (links self.now) }
    {
        self.map.len() as u64
    }

    /// The link of a number.
    pub fn get(&self, number: u64) -> &Link
        requires { number < length self.now }
        ensures link { link_at self.now number ≡ Some result.now }
        ensures valid_links { IsLink result.now }
    {
        match self.map.get_index(number as usize) {
            Some((link, _state)) => link,
            None => unreachable!(),
        }
    }

    /// Where the look-up of a number's link stands.
    pub fn state(&self, number: u64) -> LinkState
        requires { number < length self.now }
        ensures { state_at self.now number ≡ Some result }
    {
        state_in(&self.map, number as usize)
    }

    /// Whether the number is in flight and its link equals the given one in all parts.
    pub fn is_out(&self, number: u64, link: &Link) -> bool
        ensures { IsTrue result ↔ (slice_get self.now number ≡ Some (link.now, InFlight)) }
    {
        match self.map.get_index(number as usize) {
            Some((queued, LinkState::InFlight)) => is_same_link(queued, link),
            _ => false,
        }
    }

    /// The number that `take` would give. No memory is taken.
    pub fn first_queued(&self) -> Option<u64>
        ensures { result ≡ first_queued self.now }
    {
        match first_from(&self.map, self.cursor) {
            Some(place) => Some(place as u64),
            None => None,
        }
    }

    /// The least number in flight. No memory is taken; it costs a search from the start.
    pub fn first_out(&self) -> Option<u64>
        ensures first { result ≡ first_flying self.now }
        ensures some { IfSome result (λ number. state_at self.now number ≡ Some InFlight) }
        ensures least { IfSome result (λ number. (k : ℕ) → k < number → state_at self.now k ≢ Some InFlight) }
        ensures none { IsNone result ↔ (flying self.now ≡ 0) }
    {
        match first_out_of(&self.map) {
            Some(place) => Some(place as u64),
            None => None,
        }
    }

    /// Takes the first link that waits. No memory is taken, and all calls together cost what the
    /// table's length and what was given back cost.
    #[tactic(auto, using(crate::proofs::Tables::first_within, crate::proofs::Tables::first_taken))]
    pub fn take(&mut self) -> Option<u64>
        ensures first { result ≡ first_queued self.old }
        ensures taken { IfSome result (λ number. self.new ≡ with_state self.old number InFlight) }
        ensures out { IfSome result (λ number. state_at self.new number ≡ Some InFlight) }
        ensures none { IfNone result (self.new ≡ self.old) }
    {
        match first_from(&self.map, self.cursor) {
            Some(place) => {
                mark(&mut self.map, place, LinkState::InFlight);
                self.cursor = place;
                Some(place as u64)
            }
            None => {
                self.cursor = self.map.len();
                None
            }
        }
    }

    /// Records that the look-up of a link is over. No memory is taken.
    #[tactic(auto, using(crate::proofs::Places::state_within))]
    pub fn settle(&mut self, number: u64)
        requires in_flight { state_at self.old number ≡ Some InFlight }
        ensures { self.new ≡ with_state self.old number Settled }
    {
        mark(&mut self.map, number as usize, LinkState::Settled);
    }

    /// Lets a link wait again, at its old place. No memory is taken.
    #[tactic(auto, using(crate::proofs::Places::state_within))]
    pub fn give_back(&mut self, number: u64)
        requires in_flight { state_at self.old number ≡ Some InFlight }
        ensures { self.new ≡ with_state self.old number Queued }
    {
        let place = number as usize;
        mark(&mut self.map, place, LinkState::Queued);
        self.cursor = least(self.cursor, place);
    }

    /// The number of the link, which is appended and waits where its text is new.
    pub fn add(&mut self, link: Link) -> Result<u64, Memory>
        requires { IsLink link }
        ensures ok { OnOk result (self.new ≡ queue self.old link) }
        ensures place { IfOk result (λ number. link_at self.new number ≡ Some link) }
        ensures err { OnErr result (self.new ≡ self.old) }
    {
        match self.map.get_index_of(&link) {
            Some(place) => Ok(place as u64),
            None => {
                let place = self.map.len();
                self.spare.reserve(place + 1)?;
                self.map.insert(link, LinkState::Queued)?;
                Ok(place as u64)
            }
        }
    }

    /// Adds the links whose texts are new, or none of them. Only these are copied.
    #[tactic(auto, using(crate::proofs::Growth::queue_all_more, crate::proofs::Growth::take_queue_all, crate::proofs::Growth::le_queue_all))]
    pub fn extend(&mut self, links: &[Link]) -> Result<(), Memory>
        requires { AreLinks links.now }
        ensures ok { OnOk result (self.new ≡ queue_all self.old links.now) }
        ensures err { OnErr result (self.new ≡ self.old) }
    {
        let len = self.len();
        for link in links {
            match self.add_copy(link) {
                Ok(()) => {}
                Err(error) => {
                    self.shorten(len);
                    return Err(error);
                }
            }
        }
        Ok(())
    }

    #[tactic(auto, using(crate::proofs::Growth::queue_there))]
    fn add_copy(&mut self, link: &Link) -> Result<(), Memory>
        requires { IsLink link.now }
        ensures ok { OnOk result (self.new ≡ queue self.old link.now) }
        ensures err { OnErr result (self.new ≡ self.old) }
    {
        if !self.has(link) {
            self.add(link.copy()?)?;
        }
        Ok(())
    }

    fn has(&self, link: &Link) -> bool
        ensures { result ≡ list_any (same_link link.now) (links self.now) }
    {
        self.map.get_index_of(link).is_some()
    }

    /// Keeps the first `len` links, whatever their states. No memory is taken.
    pub fn shorten(&mut self, len: u64)
        requires { len ≤ length self.old }
        ensures { self.new ≡ take len self.old }
    {
        let len = len as usize;
        self.map.truncate(len);
        self.cursor = least(self.cursor, len);
    }

    /// The texts of the links that wait, in order. No memory is taken.
    pub fn into_queued(self) -> Vec<TextBuf>
        ensures { result.items ≡ queued_links (marks self) }
    {
        let LinkTable {
            map,
            cursor: _,
            spare,
        } = self;
        let mut texts = spare;
        for (link, state) in map {
            if let LinkState::Queued = state {
                push_text(&mut texts, link);
            }
        }
        texts
    }
}
