ghost use Rattle.std.specs.Prelude.{◌≡◌, ◌≢◌, ◌<◌, ◌≤◌, ℕ, List, [], length, Option, Some, None, IsSome, Bool, true, IfOk, OnErr};
ghost use Rattle.outer_ports.specs.Causes.{Rose};
ghost use Rattle.outer_ports.specs.declared.host.Host.{Host};
ghost use Rattle.outer_ports.specs.declared.wire_counts.WireCounts.{WireCounts};
ghost use Rattle.outer_ports.specs.Wire.{Conn, Conns, ChangesOnly, ChangesNone, Opens, Sends, Receives, Waits, IsTold, IsWhole, CountsOpen, CountsSend, CountsReceive, CountsWait, SurelyOpens, SurelySends, SurelyReceives, SurelyWaits};

use rdf_terms::Memory;

/// What an opening answers.
#[derive(Clone, Copy, Debug, PartialEq, Eq)]
pub enum Opened {
    /// A connection is open, under a number that no other open one has.
    Conn(u64),
    /// No connection was opened.
    Failed,
}

/// What a send answers.
#[derive(Clone, Copy, Debug, PartialEq, Eq)]
pub enum Sent {
    /// So many bytes of the piece, at least one, were taken from its front.
    Took(usize),
    /// Nothing can be sent now.
    Again,
    /// Sending failed, and nothing was taken.
    Failed,
    /// Memory ran out, and nothing was taken.
    Memory,
}

/// What a receive answers.
#[derive(Clone, Copy, Debug, PartialEq, Eq)]
pub enum Received {
    /// So many bytes, at least one, stand at the front of the buffer.
    Took(usize),
    /// No more bytes come.
    End,
    /// Nothing can be received now.
    Again,
    /// Receiving failed.
    Failed,
}

/// What a wait answers.
#[derive(Clone, Copy, Debug, PartialEq, Eq)]
pub enum Waited {
    /// Something can be done on the open connection of this number.
    Ready(u64),
    /// Nothing came for a while.
    Quiet,
    /// Waiting failed.
    Failed,
}

/// Connections to hosts.
///
/// Each call that wants memory leaves all as it was.
pub trait Wire {
    /// The hosts that it leads to, where they are told. No call changes them.
    ghost hosts: { Self → Option (List Host) };

    /// Whether no call ever fails, is to be tried again or is quiet, and each response comes whole.
    /// No call changes it.
    ghost sure: { Self → Bool };

    /// What is sure tells its hosts.
    ghost told: { (w : Self) → sure w ≡ true → IsSome (hosts w) };

    /// The open connections, by their numbers.
    ghost conns: { Self → Conns };

    /// How often each kind of trouble came.
    ghost counts: { Self → WireCounts };

    /// Opens a connection.
    fn open(&mut self, host: &str, port: u16) -> Result<Opened, Memory>
        ensures same { (hosts self.new ≡ hosts self.old) × (sure self.new ≡ sure self.old) }
        ensures opens { IfOk result (λ opened.
            Opens (conns self.old) host.now port opened (conns self.new)) }
        ensures counts { IfOk result (λ opened.
            CountsOpen (counts self.old) (counts self.new) opened) }
        ensures sure { IfOk result (λ opened. sure self.old ≡ true → SurelyOpens opened) }
        ensures err { OnErr result (ChangesNone (conns self.old) (conns self.new)
            × (counts self.new ≡ counts self.old)) };

    /// Sends some bytes from the front of `piece`, on a connection that has received nothing yet.
    fn send(&mut self, conn: u64, piece: &[u8]) -> Sent
        requires is_open { IsSome (conns self.old conn) }
        requires some { 0 < length piece.now }
        requires first { (c : Conn) → conns self.old conn ≡ Some c → c.received ≡ [] }
        ensures same { (hosts self.new ≡ hosts self.old) × (sure self.new ≡ sure self.old) }
        ensures sends { (c : Conn) → conns self.old conn ≡ Some c →
            Sends c piece.now result (conns self.new conn) }
        ensures others { ChangesOnly conn (conns self.old) (conns self.new) }
        ensures counts { (c : Conn) → conns self.old conn ≡ Some c →
            CountsSend c (counts self.old) (counts self.new) result }
        ensures sure { sure self.old ≡ true → SurelySends result };

    /// Receives some bytes into the front of `buf`.
    fn recv(&mut self, conn: u64, buf: &mut [u8]) -> Received
        requires is_open { IsSome (conns self.old conn) }
        requires some { 0 < length buf.old }
        ensures same { (hosts self.new ≡ hosts self.old) × (sure self.new ≡ sure self.old) }
        ensures receives { (c : Conn) → conns self.old conn ≡ Some c →
            Receives c buf.new result (conns self.new conn) }
        ensures others { ChangesOnly conn (conns self.old) (conns self.new) }
        ensures counts { (c : Conn) → conns self.old conn ≡ Some c →
            CountsReceive c (counts self.old) (counts self.new) result }
        ensures sure { sure self.old ≡ true → SurelyReceives result }

        // What is received begins the response, and an end before the response's end is a fault.
        ensures prefix { IsTold (hosts self.old) (conns self.new conn) }
        ensures whole { (c : Conn) → conns self.old conn ≡ Some c → IsWhole (hosts self.old)
            (sure self.old) c (counts self.old).faults (counts self.new).faults result };

    /// Waits until something can be done on an open connection.
    fn wait(&mut self) -> Waited
        requires { (k : ℕ) × IsSome (conns self.old k) }
        ensures same { (hosts self.new ≡ hosts self.old) × (sure self.new ≡ sure self.old) }
        ensures waits { Waits (conns self.old) result (conns self.new) }
        ensures counts { CountsWait (counts self.old) (counts self.new) result }
        ensures sure { sure self.old ≡ true → SurelyWaits result };

    /// Closes a connection.
    fn close(&mut self, conn: u64)
        requires { IsSome (conns self.old conn) }
        ensures same { (hosts self.new ≡ hosts self.old) × (sure self.new ≡ sure self.old) }
        ensures closed { conns self.new conn ≡ None }
        ensures others { ChangesOnly conn (conns self.old) (conns self.new) }
        ensures counts { counts self.new ≡ counts self.old };
}
