ghost use Rattle.std.specs.Prelude.{◌≡◌, ◌<◌, ◌+◌, length, IfOk, OnOk, OnErr, get_or};
ghost use Rattle.web_port.specs.Lanes as spec;

use crate::{Flight, Got, Losses, Polled};
use link_uri::Heard;
use rdf_terms::{Memory, TextBuf};
use reachability::Cause;
use std::alloc::Global;
use std::marker::Model;

/// The links that a fetcher in memory has open, in the order of their starts, and its counts. A
/// count that is full is answered as want of memory.
#[derive(Debug, Drop)]
pub struct Lanes {
    flights: Vec<Flight>,
    faults: u64,
    starts: u64,
    lost: Losses,
}

impl Model for Lanes {
    ghost use Rattle.web_port.specs.Lanes.{Flying};

    ghost Value = { Flying };

    ghost view = { λ l. record {
      flights = l.flights.items;
      faults = l.faults;
      starts = l.starts;
      lost = l.lost;
    } };
}

impl Lanes {
    /// Nothing is open, and nothing happened.
    pub fn new(alloc: Global) -> Lanes
        ensures { result ≡ spec.nothing_flying }
    {
        Lanes {
            flights: Vec::new(alloc),
            faults: 0,
            starts: 0,
            lost: Losses::none(),
        }
    }

    /// The open links.
    pub fn flights(&self) -> &[Flight]
        ensures { result.now ≡ self.now.flights }
    {
        self.flights.as_slice()
    }

    /// The faults.
    pub fn faults(&self) -> u64
        ensures { result ≡ self.now.faults }
    {
        self.faults
    }

    /// The links that were given up.
    pub fn lost(&self) -> Losses
        ensures { result ≡ self.now.lost }
    {
        self.lost
    }

    /// Starts a link.
    pub fn start(&mut self, number: u64, link: TextBuf) -> Result<(), Memory>
        ensures ok { OnOk result (self.new ≡ spec.started self.old number link) }
        ensures err { OnErr result (self.new ≡ self.old) }
    {
        if self.starts == u64::MAX {
            return Err(Memory);
        }
        self.flights.push(Flight {
            number,
            link,
            failed: 0,
            last: None,
        })?;
        self.starts += 1;
        Ok(())
    }

    /// The link at a place is answered, and open no more.
    pub fn answer(&mut self, place: usize, heard: Heard) -> Polled
        requires { place < length self.old.flights }
        ensures state { self.new ≡ spec.answered self.old place }
        ensures polled { (d : _) → result
            ≡ Polled.Settled (get_or self.old.flights place d).number (Got.Heard heard) }
    {
        let settled = self.flights.remove(place);
        Polled::Settled {
            number: settled.number,
            got: Got::Heard(heard),
        }
    }

    /// A try of the link at a place failed: it waits for the next, or is given up.
    pub fn fail(&mut self, place: usize, cause: Cause, tries: u8) -> Result<Polled, Memory>
        requires place { place < length self.old.flights }
        requires below { (d : _) → (get_or self.old.flights place d).failed < tries }
        ensures polled { (d : _) → IfOk result (λ polled.
            polled ≡ spec.polled_failed tries (get_or self.old.flights place d) cause) }
        ensures ok { (d : _) → OnOk result (self.new
            ≡ spec.after_failed tries self.old place (get_or self.old.flights place d) cause) }
        ensures err { OnErr result (self.new ≡ self.old) }
    {
        if self.faults == u64::MAX || self.lost.of(cause) == u64::MAX {
            return Err(Memory);
        }
        self.faults += 1;
        if self.flights[place].failed + 1 < tries {
            let flight = &mut self.flights[place];
            flight.failed += 1;
            flight.last = Some(cause);
            return Ok(Polled::Pending);
        }
        self.lost.add(cause);
        let flight = self.flights.remove(place);
        Ok(Polled::Settled {
            number: flight.number,
            got: Got::Unreachable { cause, tries },
        })
    }
}
