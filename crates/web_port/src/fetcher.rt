ghost use Rattle.std.specs.Prelude.{◌≡◌, ◌<◌, ◌↔◌, ℕ, length, true, IsTrue, IsSome, OnOk, OnErr, IfOk};
ghost use Rattle.rdf_terms.specs.Lists.{IsIn};
ghost use Rattle.link_uri.specs.Links.{IsLink};
ghost use Rattle.reachability.specs.Web.{Fetch};
ghost use Rattle.web_port.specs.Flights.{numbers};
ghost use Rattle.web_port.specs.Port.{Port, Polls, Starts, Stays, Waits};

use link_uri::{Heard, Link, Scheme};
use rdf_terms::Memory;
use reachability::Cause;

/// What was got for a link.
#[derive(Debug, Drop)]
pub enum Got {
    /// What the web answers, which is never `Heard::Never`.
    Heard(Heard),
    /// Nothing, in so many tries. The cause is that of the last.
    Unreachable { cause: Cause, tries: u8 },
}

/// What a poll answers.
#[derive(Debug, Drop)]
pub enum Polled {
    /// The link of the number was looked up, and is open no more.
    Settled { number: u64, got: Got },
    /// No link was settled in this poll.
    Pending,
    /// No link is open.
    Idle,
}

/// Looks up links, so many at a time as it has lanes.
///
/// A link is started under a number, and polls settle one link at a time. Each failed try is a
/// fault. A start without memory changes nothing. After want of memory in a poll the same links
/// are open, but more of their tries may have failed, with as many more faults.
pub trait Fetcher {
    /// The web, where it is told, the number of tries, and whether only links that the web never
    /// answers fail: what is sure tells its web. No call changes it.
    ghost fetch: { Self → Fetch };

    /// How many links may be open at a time. No call changes it.
    ghost lanes: { Self → ℕ };

    /// The open links, how often a poll may still be pending, and the counts.
    ghost port: { Self → Port };

    /// Whether one more link may be started. No memory is taken.
    fn room(&self) -> bool
        ensures room { IsTrue result ↔ (length (port self.now).flights < lanes self.now) }
        ensures some { (0 < lanes self.now) × (0 < (fetch self.now).tries) }
        // what is sure tells its web
        ensures told { (fetch self.now).sure ≡ true → IsSome (fetch self.now).web };

    /// Starts the look-up of a link.
    fn start(&mut self, number: u64, link: &Link) -> Result<(), Memory>
        requires room { length (port self.old).flights < lanes self.old }
        requires fresh { IsIn (numbers (port self.old).flights) number → ⊥ }
        requires link { IsLink link.now }
        requires plain { link.now.scheme ≡ Scheme.Http }
        ensures same { (fetch self.new ≡ fetch self.old) × (lanes self.new ≡ lanes self.old) }
        ensures ok { OnOk result (Starts (port self.old) number link.now.text (port self.new)) }
        ensures err { OnErr result (Stays (port self.old) (port self.new)) };

    /// Goes on with the look-ups.
    fn poll(&mut self) -> Result<Polled, Memory>
        ensures same { (fetch self.new ≡ fetch self.old) × (lanes self.new ≡ lanes self.old) }
        ensures ok { IfOk result (λ polled.
            Polls (fetch self.old) (port self.old) polled (port self.new)) }
        ensures err { OnErr result (Waits (fetch self.old) (port self.old) (port self.new)) };
}
