ghost use Rattle.std.specs.Prelude.{◌≡◌};
ghost use Rattle.outer_ports.specs.Causes.{one_more};
ghost use Rattle.outer_ports.specs.Wire.{no_counts, one_more_first};

/// How often each kind of trouble came. A count that is full stands still.
#[derive(Clone, Copy, Debug, PartialEq, Eq)]
pub struct WireCounts {
    /// The faults.
    pub faults: u64,
    /// The openings that failed.
    pub misses: u64,
    /// The waits that failed.
    pub stalls: u64,
    /// The connections on which a send or a receive failed.
    pub breaks: u64,
    /// The connections that answered their end.
    pub ends: u64,
    /// The quiet waits, and the answers that a ready connection is to be tried again.
    pub quiets: u64,
}

impl WireCounts {
    /// Nothing happened.
    pub fn none() -> WireCounts
        ensures { result ≡ no_counts }
    {
        WireCounts {
            faults: 0,
            misses: 0,
            stalls: 0,
            breaks: 0,
            ends: 0,
            quiets: 0,
        }
    }

    /// A fault.
    pub fn add_fault(&mut self)
        ensures { self.new ≡ record self.old { faults = one_more self.old.faults } }
    {
        self.faults = self.faults.saturating_add(1);
    }

    /// An opening failed.
    pub fn add_miss(&mut self)
        ensures { self.new ≡ record self.old {
          faults = one_more self.old.faults;
          misses = one_more self.old.misses;
        } }
    {
        self.add_fault();
        self.misses = self.misses.saturating_add(1);
    }

    /// A wait failed.
    pub fn add_stall(&mut self)
        ensures { self.new ≡ record self.old {
          faults = one_more self.old.faults;
          stalls = one_more self.old.stalls;
        } }
    {
        self.add_fault();
        self.stalls = self.stalls.saturating_add(1);
    }

    /// A send or a receive failed, on a connection where one had failed before or not.
    pub fn add_break(&mut self, before: bool)
        ensures { self.new ≡ record self.old {
          faults = one_more self.old.faults;
          breaks = one_more_first before self.old.breaks;
        } }
    {
        self.add_fault();
        if !before {
            self.breaks = self.breaks.saturating_add(1);
        }
    }

    /// A connection answered its end, as it had done before or not.
    pub fn add_end(&mut self, before: bool)
        ensures { self.new ≡ record self.old { ends = one_more_first before self.old.ends } }
    {
        if !before {
            self.ends = self.ends.saturating_add(1);
        }
    }

    /// A wait was quiet.
    pub fn add_quiet(&mut self)
        ensures { self.new ≡ record self.old { quiets = one_more self.old.quiets } }
    {
        self.quiets = self.quiets.saturating_add(1);
    }
}
