ghost use Rattle.std.specs.Prelude.{◌≡◌, ◌+◌, ◌<◌, ◌^◌};
ghost use Rattle.reachability.specs.declared.record.Cause.{Cause};

use reachability::Cause;

/// How many links were given up, by the cause of their last failed try.
#[derive(Clone, Copy, Debug, PartialEq, Eq, Drop)]
pub struct Losses {
    pub connect: u64,
    pub broken: u64,
    pub cut: u64,
    pub silent: u64,
}

impl Losses {
    ghost use Rattle.web_port.specs.Counts.{RoseBy, lost_in, no_losses, one_more};

    /// No link was given up.
    pub fn none() -> Losses
        ensures { result ≡ no_losses }
    {
        Losses {
            connect: 0,
            broken: 0,
            cut: 0,
            silent: 0,
        }
    }

    /// The number of this cause.
    pub fn of(&self, cause: Cause) -> u64
        ensures { result ≡ lost_in self.now cause }
    {
        match cause {
            Cause::Connect => self.connect,
            Cause::Broken => self.broken,
            Cause::Cut => self.cut,
            Cause::Silent => self.silent,
        }
    }

    /// One more link was given up. The count of its cause has room.
    pub(crate) fn add(&mut self, cause: Cause)
        requires { lost_in self.old cause + 1 < 2 ^ 64 }
        ensures { self.new ≡ one_more self.old cause }
    {
        match cause {
            Cause::Connect => self.connect += 1,
            Cause::Broken => self.broken += 1,
            Cause::Cut => self.cut += 1,
            Cause::Silent => self.silent += 1,
        }
    }

    /// All of the others were given up too. A count stands still at its end.
    pub fn add_all(&mut self, others: &Losses)
        ensures { (c : Cause) →
            RoseBy (lost_in self.old c) (lost_in others.now c) (lost_in self.new c) }
    {
        self.connect = self.connect.saturating_add(others.connect);
        self.broken = self.broken.saturating_add(others.broken);
        self.cut = self.cut.saturating_add(others.cut);
        self.silent = self.silent.saturating_add(others.silent);
    }
}
