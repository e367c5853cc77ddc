ghost use Rattle.std.specs.Prelude.{◌≡◌, ◌≢◌, ◌⊎◌, ◌<◌, ◌≤◌, ◌↔◌, ℕ, [], ◌∷◌, length, drop, take, min, Some, None, IsSome, IfOk, OnOk, OnErr, true, Contains};
ghost use Rattle.std.proofs.Common.{refl};
ghost use Rattle.outer_ports.specs.Causes.{RoseOnce, one_more};
ghost use Rattle.outer_ports.specs.Wire.{Conn, ChangesOnly, ChangesNone, Opens, Sends, Receives, Waits, IsTold, IsWhole, CountsOpen, CountsSend, CountsReceive, CountsWait, SurelyOpens, SurelySends, SurelyReceives, SurelyWaits, no_counts, one_more_first, response_of};
ghost use Rattle.outer_ports.specs.MemoryWire.{open_in, since_of, conns_of, is_sure, BecomesAt, WaitsSince, OpensSince, NamesSince, WaitsLongest, SameLists, SendsUpTo, ReceivesUpTo, left_of};

use crate::open_conns::{OpenConn, OpenConns};
use crate::piece::copy_piece;
use crate::{Host, Opened, Received, Sent, Waited, Wire, WireCounts};
use rdf_terms::Memory;
use std::alloc::Global;
use std::marker::Model;

// The response to what was sent on a connection: that of the first host that answers it.
fn response_for<'a>(hosts: &'a [Host], asked: &OpenConn) -> &'a [u8]
    ensures { result.now ≡ response_of hosts.now asked.now.host asked.now.port asked.now.sent }
{
    for host in hosts {
        if host.host == asked.host && host.port == asked.port && host.request == asked.sent {
            return host.response.as_slice();
        }
    }
    &[]
}

// The bytes from `at` on; none where there are fewer.
fn rest_of(bytes: &[u8], at: usize) -> &[u8]
    ensures { result.now ≡ drop at bytes.now }
{
    &bytes[at.min(bytes.len())..]
}

// A send or a receive on a connection failed.
fn fail_on(conns: &mut OpenConns, counts: &mut WireCounts, conn: u64)
    requires { IsSome (open_in conns.old conn) }
    ensures becomes { (o : OpenConn) → open_in conns.old conn ≡ Some o →
        BecomesAt conns.old conn (record o { broken = true }) conns.new }
    ensures counts { (o : OpenConn) → open_in conns.old conn ≡ Some o →
        counts.new ≡ record counts.old {
          faults = one_more counts.old.faults;
          breaks = one_more_first o.broken counts.old.breaks;
        } }
{
    let before = conns.set_broken(conn);
    counts.add_break(before);
}

// A connection answered its end.
fn end_on(conns: &mut OpenConns, counts: &mut WireCounts, conn: u64)
    requires { IsSome (open_in conns.old conn) }
    ensures becomes { (o : OpenConn) → open_in conns.old conn ≡ Some o →
        BecomesAt conns.old conn (record o { ended = true }) conns.new }
    ensures counts { (o : OpenConn) → open_in conns.old conn ≡ Some o →
        counts.new ≡ record counts.old { ends = one_more_first o.ended counts.old.ends } }
{
    let before = conns.set_ended(conn);
    counts.add_end(before);
}

/// A wire in memory. Its lists say which calls fail, end early or are quiet.
///
/// Calls of `open`, `send`, `recv` and `wait` are numbered together from 0; one that ends in want of
/// memory is not counted. Each open connection can always be sent to and received from, and a
/// `wait` names the one that was opened or named longest ago. A call costs what it copies, and a
/// look through the lists and the open connections, a `recv` one through the hosts too.
#[derive(Drop)]
pub struct MemoryWire {
    alloc: Global,
    hosts: Vec<Host>,
    piece: usize,
    fail: Vec<u64>,
    cut: Vec<u64>,
    quiet: Vec<u64>,
    conns: OpenConns,
    calls: u64,
    counts: WireCounts,
}

impl Model for MemoryWire {
    ghost use Rattle.std.specs.Prelude.{◌<◌};
    ghost use Rattle.outer_ports.specs.MemoryWire.{Wiring};

    ghost Value = { Wiring };

    ghost view = { λ w. record {
      hosts = w.hosts.items;
      piece = w.piece;
      fail = w.fail.items;
      cut = w.cut.items;
      quiet = w.quiet.items;
      conns = w.conns;
      calls = w.calls;
      counts = w.counts;
    } };

    ghost invariant = { λ w. 0 < w.piece };
}

impl MemoryWire {
    /// At most `piece` bytes a call. The calls whose numbers stand in `fail` fail; other receives of
    /// `cut` answer the end, which is a fault; other waits of `quiet` are quiet.
    pub fn new(
        alloc: Global,
        hosts: Vec<Host>,
        piece: usize,
        fail: Vec<u64>,
        cut: Vec<u64>,
        quiet: Vec<u64>,
    ) -> MemoryWire
        requires { 0 < piece }
        ensures { result ≡ record {
          hosts = hosts.items;
          piece = piece;
          fail = fail.items;
          cut = cut.items;
          quiet = quiet.items;
          conns = [];
          calls = 0;
          counts = no_counts;
        } }
    {
        MemoryWire {
            alloc,
            hosts,
            piece,
            fail,
            cut,
            quiet,
            conns: OpenConns::new(alloc),
            calls: 0,
            counts: WireCounts::none(),
        }
    }

    /// How often each kind of trouble came.
    pub fn counts(&self) -> WireCounts
        ensures { result ≡ self.now.counts }
    {
        self.counts
    }
}

impl Wire for MemoryWire {
    ghost hosts = { λ w. Some w.hosts };

    ghost sure = { λ w. is_sure w.fail w.cut w.quiet };

    ghost told = { λ w s. refl };

    ghost conns = { λ w. conns_of w.hosts w.conns };

    ghost counts = { λ w. w.counts };

    fn open(&mut self, host: &str, port: u16) -> Result<Opened, Memory>
        ensures same { (Some self.new.hosts ≡ Some self.old.hosts)
            × (is_sure self.new.fail self.new.cut self.new.quiet
            ≡ is_sure self.old.fail self.old.cut self.old.quiet) }
        ensures opens { IfOk result (λ opened. Opens (conns_of self.old.hosts self.old.conns)
            host.now port opened (conns_of self.new.hosts self.new.conns)) }
        ensures counts { IfOk result (λ opened.
            CountsOpen self.old.counts self.new.counts opened) }
        ensures sure { IfOk result (λ opened.
            is_sure self.old.fail self.old.cut self.old.quiet ≡ true → SurelyOpens opened) }
        ensures err { OnErr result (ChangesNone (conns_of self.old.hosts self.old.conns)
            (conns_of self.new.hosts self.new.conns) × (self.new.counts ≡ self.old.counts)) }

        // It fails exactly at the numbered calls.
        ensures exactly { IfOk result (λ opened.
            (opened ≡ Opened.Failed) ↔ Contains self.old.fail self.old.calls) }
        ensures once { result ≡ Ok Opened.Failed →
            RoseOnce self.old.counts.faults self.new.counts.faults }
        ensures since { IfOk result (λ opened.
            OpensSince self.old.conns self.old.calls opened self.new.conns) }
        ensures calls { OnOk result (self.new.calls ≡ one_more self.old.calls) }
        ensures lists { SameLists self.old self.new }
        ensures unchanged { OnErr result (self.new ≡ self.old) }
    {
        if self.fail.contains(&self.calls) {
            self.calls = self.calls.saturating_add(1);
            self.counts.add_miss();
            return Ok(Opened::Failed);
        }
        let conn = self.conns.open(self.alloc, host, port, self.calls)?;
        self.calls = self.calls.saturating_add(1);
        Ok(Opened::Conn(conn))
    }

    fn send(&mut self, conn: u64, piece: &[u8]) -> Sent
        requires is_open { IsSome (conns_of self.old.hosts self.old.conns conn) }
        requires some { 0 < length piece.now }
        requires first { (c : Conn) → conns_of self.old.hosts self.old.conns conn ≡ Some c →
            c.received ≡ [] }
        ensures same { (Some self.new.hosts ≡ Some self.old.hosts)
            × (is_sure self.new.fail self.new.cut self.new.quiet
            ≡ is_sure self.old.fail self.old.cut self.old.quiet) }
        ensures sends { (c : Conn) → conns_of self.old.hosts self.old.conns conn ≡ Some c →
            Sends c piece.now result (conns_of self.new.hosts self.new.conns conn) }
        ensures others { ChangesOnly conn (conns_of self.old.hosts self.old.conns)
            (conns_of self.new.hosts self.new.conns) }
        ensures counts { (c : Conn) → conns_of self.old.hosts self.old.conns conn ≡ Some c →
            CountsSend c self.old.counts self.new.counts result }
        ensures sure { is_sure self.old.fail self.old.cut self.old.quiet ≡ true →
            SurelySends result }

        // It fails exactly at the numbered calls, and else takes as much as it may.
        ensures exactly { (result ≡ Sent.Failed) ↔ Contains self.old.fail self.old.calls }
        ensures once { result ≡ Sent.Failed →
            RoseOnce self.old.counts.faults self.new.counts.faults }
        ensures up_to { SendsUpTo (min self.old.piece (length piece.now)) result }
        ensures since { WaitsSince self.old.conns conn (since_of self.old.conns conn)
            self.new.conns }
        ensures calls { result ≢ Sent.Memory → self.new.calls ≡ one_more self.old.calls }
        ensures lists { SameLists self.old self.new }
        ensures unchanged { result ≡ Sent.Memory → self.new ≡ self.old }
    {
        if self.fail.contains(&self.calls) {
            self.calls = self.calls.saturating_add(1);
            fail_on(&mut self.conns, &mut self.counts, conn);
            return Sent::Failed;
        }
        let count = self.piece.min(piece.len());
        if self.conns.add_sent(conn, &piece[..count]).is_err() {
            return Sent::Memory;
        }
        self.calls = self.calls.saturating_add(1);
        Sent::Took(count)
    }

    fn recv(&mut self, conn: u64, buf: &mut [u8]) -> Received
        requires is_open { IsSome (conns_of self.old.hosts self.old.conns conn) }
        requires some { 0 < length buf.old }
        ensures same { (Some self.new.hosts ≡ Some self.old.hosts)
            × (is_sure self.new.fail self.new.cut self.new.quiet
            ≡ is_sure self.old.fail self.old.cut self.old.quiet) }
        ensures receives { (c : Conn) → conns_of self.old.hosts self.old.conns conn ≡ Some c →
            Receives c buf.new result (conns_of self.new.hosts self.new.conns conn) }
        ensures others { ChangesOnly conn (conns_of self.old.hosts self.old.conns)
            (conns_of self.new.hosts self.new.conns) }
        ensures counts { (c : Conn) → conns_of self.old.hosts self.old.conns conn ≡ Some c →
            CountsReceive c self.old.counts self.new.counts result }
        ensures sure { is_sure self.old.fail self.old.cut self.old.quiet ≡ true →
            SurelyReceives result }
        ensures prefix { IsTold (Some self.old.hosts)
            (conns_of self.new.hosts self.new.conns conn) }
        ensures whole { (c : Conn) → conns_of self.old.hosts self.old.conns conn ≡ Some c →
            IsWhole (Some self.old.hosts) (is_sure self.old.fail self.old.cut self.old.quiet) c
            self.old.counts.faults self.new.counts.faults result }

        // It fails exactly at the numbered calls, ends early at those of `cut`, and else gives as
        // much as it may.
        ensures exactly { (result ≡ Received.Failed) ↔ Contains self.old.fail self.old.calls }
        ensures once { result ≡ Received.Failed →
            RoseOnce self.old.counts.faults self.new.counts.faults }
        ensures cut { (Contains self.old.fail self.old.calls → ⊥) →
            Contains self.old.cut self.old.calls → (result ≡ Received.End)
            × RoseOnce self.old.counts.faults self.new.counts.faults }
        ensures calm { (Contains self.old.fail self.old.calls → ⊥) →
            (Contains self.old.cut self.old.calls → ⊥) →
            self.new.counts.faults ≡ self.old.counts.faults }
        ensures up_to { (o : OpenConn) → open_in self.old.conns conn ≡ Some o →
            ReceivesUpTo self.old.piece (left_of self.old.hosts o) buf.new result }
        ensures ends { (o : OpenConn) → open_in self.old.conns conn ≡ Some o →
            (result ≡ Received.End) ↔ ((Contains self.old.fail self.old.calls → ⊥)
            × (Contains self.old.cut self.old.calls ⊎ (left_of self.old.hosts o ≡ []))) }
        ensures since { WaitsSince self.old.conns conn (since_of self.old.conns conn)
            self.new.conns }
        ensures calls { self.new.calls ≡ one_more self.old.calls }
        ensures lists { SameLists self.old self.new }
    {
        let call = self.calls;
        self.calls = call.saturating_add(1);
        if self.fail.contains(&call) {
            fail_on(&mut self.conns, &mut self.counts, conn);
            return Received::Failed;
        }
        if self.cut.contains(&call) {
            self.counts.add_fault();
            end_on(&mut self.conns, &mut self.counts, conn);
            return Received::End;
        }
        let open = self.conns.get(conn);
        let left = rest_of(response_for(self.hosts.as_slice(), open), open.taken);
        let count = copy_piece(left, self.piece, buf);
        if count == 0 {
            end_on(&mut self.conns, &mut self.counts, conn);
            return Received::End;
        }
        let taken = open.taken + count;
        self.conns.set_taken(conn, taken);
        Received::Took(count)
    }

    fn wait(&mut self) -> Waited
        requires { (k : ℕ) × IsSome (conns_of self.old.hosts self.old.conns k) }
        ensures same { (Some self.new.hosts ≡ Some self.old.hosts)
            × (is_sure self.new.fail self.new.cut self.new.quiet
            ≡ is_sure self.old.fail self.old.cut self.old.quiet) }
        ensures waits { Waits (conns_of self.old.hosts self.old.conns) result
            (conns_of self.new.hosts self.new.conns) }
        ensures counts { CountsWait self.old.counts self.new.counts result }
        ensures sure { is_sure self.old.fail self.old.cut self.old.quiet ≡ true →
            SurelyWaits result }

        // It fails exactly at the numbered calls, is quiet at those of `quiet`, and else names the
        // connection that waits longest.
        ensures exactly { (result ≡ Waited.Failed) ↔ Contains self.old.fail self.old.calls }
        ensures once { result ≡ Waited.Failed →
            RoseOnce self.old.counts.faults self.new.counts.faults }
        ensures quiet { (result ≡ Waited.Quiet) ↔ ((Contains self.old.fail self.old.calls → ⊥)
            × Contains self.old.quiet self.old.calls) }
        ensures longest { (n : ℕ) → result ≡ Waited.Ready n → WaitsLongest self.old.conns n }
        ensures since { NamesSince self.old.conns self.old.calls result self.new.conns }
        ensures calls { self.new.calls ≡ one_more self.old.calls }
        ensures lists { SameLists self.old self.new }
    {
        let call = self.calls;
        self.calls = call.saturating_add(1);
        if self.fail.contains(&call) {
            self.counts.add_stall();
            return Waited::Failed;
        }
        if self.quiet.contains(&call) {
            self.counts.add_quiet();
            return Waited::Quiet;
        }
        Waited::Ready(self.conns.name_longest(call))
    }

    fn close(&mut self, conn: u64)
        requires { IsSome (conns_of self.old.hosts self.old.conns conn) }
        ensures same { (Some self.new.hosts ≡ Some self.old.hosts)
            × (is_sure self.new.fail self.new.cut self.new.quiet
            ≡ is_sure self.old.fail self.old.cut self.old.quiet) }
        ensures closed { conns_of self.new.hosts self.new.conns conn ≡ None }
        ensures others { ChangesOnly conn (conns_of self.old.hosts self.old.conns)
            (conns_of self.new.hosts self.new.conns) }
        ensures counts { self.new.counts ≡ self.old.counts }

        // It is no call that has a number, and the others wait as before.
        ensures since { WaitsSince self.old.conns conn None self.new.conns }
        ensures calls { self.new.calls ≡ self.old.calls }
        ensures lists { SameLists self.old self.new }
    {
        self.conns.close(conn);
    }
}
