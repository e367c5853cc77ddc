ghost use Rattle.std.specs.Prelude.{◌≡◌, ◌≤◌, ℕ, Bool, true, IsSome, IfOk, OnOk};
ghost use Rattle.std.specs.declared.option.Option.{Option};
ghost use Rattle.outer_ports.specs.Causes.{Rose};
ghost use Rattle.reachability.specs.declared.record.Cause.{Cause};
ghost use Rattle.reachability.specs.Web.{ToldWeb};
ghost use Rattle.web_port.specs.declared.losses.Losses.{Losses};
ghost use Rattle.web_port.specs.Counts.{RoseBy, lost_in};
ghost use Rattle.web_port.specs.Port.{IsNew};
ghost use Rattle.web_port.specs.Settings.{AreSettings};

use crate::{FetchSettings, Fetcher};
use std::marker::Send;

/// Why no fetcher was made.
#[derive(Clone, Copy, Debug, PartialEq, Eq, Drop)]
pub enum MakeFault {
    /// Making it failed.
    Failed,
    /// Memory ran out.
    Memory,
}

/// What makes the fetchers of a web, and takes them back. Whoever has a fetcher made hands it to
/// `retire` once its use ends, however it ends: only then are its faults and losses counted here.
pub trait Links {
    type F: Fetcher + Send + Drop;

    /// The web, where it is told, by what it answers for the text of each link. No call changes it.
    ghost web: { Self → Option ToldWeb };

    /// Whether only links that the web never answers fail: what is sure tells its web. No call
    /// changes it.
    ghost sure: { Self → Bool };

    /// How often making a fetcher has failed.
    ghost faults: { Self → ℕ };

    /// The faults of the fetchers that were taken back; what a fetcher counted that is still in use
    /// is not in it.
    ghost spent: { Self → ℕ };

    /// The links that these gave up, by cause.
    ghost lost: { Self → Losses };

    /// A fetcher of this web, at which nothing is open and nothing happened.
    fn fetcher(&mut self, settings: &FetchSettings) -> Result<Self::F, MakeFault>
        requires { AreSettings settings.now }
        ensures fetch { IfOk result (λ f. Self.F.fetch f
            ≡ record { web = web self.old; tries = settings.now.tries; sure = sure self.old }) }
        ensures lanes { IfOk result (λ f. Self.F.lanes f ≡ settings.now.lanes) }
        ensures new { IfOk result (λ f. IsNew (Self.F.port f)) }

        // A failure has its cause.
        ensures cause { result ≡ Err MakeFault.Failed → Rose (faults self.old) (faults self.new) }
        ensures later { faults self.old ≤ faults self.new }
        ensures memory { result ≡ Err MakeFault.Memory → faults self.new ≡ faults self.old }
        ensures calm { OnOk result (faults self.new ≡ faults self.old) }

        // what is sure tells its web
        ensures told { sure self.old ≡ true → IsSome (web self.old) }

        ensures same { (web self.new ≡ web self.old) × (sure self.new ≡ sure self.old) }
        ensures kept { (spent self.new ≡ spent self.old) × (lost self.new ≡ lost self.old) };

    /// Takes a fetcher back, with its counts. No memory is taken.
    fn retire(&mut self, fetcher: Self::F)
        ensures spent { RoseBy (spent self.old) (Self.F.port fetcher).faults (spent self.new) }
        ensures lost { (c : Cause) → RoseBy
            (lost_in (lost self.old) c)
            (lost_in (Self.F.port fetcher).lost c)
            (lost_in (lost self.new) c) }
        ensures same { (web self.new ≡ web self.old) × (sure self.new ≡ sure self.old) }
        ensures faults { faults self.new ≡ faults self.old };
}
