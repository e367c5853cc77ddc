ghost use Rattle.std.specs.Prelude.{◌≡◌, ◌≢◌, ◌<◌, ℕ, [], ◌∷◌, ◌++◌, length, Some, None, IsSome, IfOk, OnOk, OnErr, true, get_or, set};
ghost use Rattle.outer_ports.specs.MemoryWire.{fresh_open, open_in, BecomesAt, NumbersRise, WaitsLongest};

use rdf_terms::{ByteBuf, Memory, TextBuf};
use std::alloc::Global;
use std::marker::Model;

/// An open connection of a wire in memory. `taken` is how many bytes of the response were received,
/// `since` the number of the call that opened it or named it last.
#[derive(Debug, Drop)]
pub struct OpenConn {
    pub number: u64,
    pub host: TextBuf,
    pub port: u16,
    pub sent: ByteBuf,
    pub taken: usize,
    pub since: u64,
    pub ready: bool,
    pub broken: bool,
    pub ended: bool,
}

// A connection that was just opened, at a call.
fn fresh(alloc: Global, number: u64, host: &str, port: u16, since: u64) -> Result<OpenConn, Memory>
    ensures { IfOk result (λ o. o ≡ fresh_open number host.now port since) }
{
    Ok(OpenConn {
        number,
        host: TextBuf::from_str(alloc, host)?,
        port,
        sent: ByteBuf::new(alloc),
        taken: 0,
        since,
        ready: false,
        broken: false,
        ended: false,
    })
}

// The place of the open connection of a number.
fn place_of(conns: &[OpenConn], number: u64) -> usize
    requires { IsSome (open_in conns.now number) }
    ensures within { result < length conns.now }
    ensures at { (d : OpenConn) → open_in conns.now number ≡ Some (get_or conns.now result d) }
    ensures number { (d : OpenConn) → (get_or conns.now result d).number ≡ number }
    ensures becomes { (o : OpenConn) → o.number ≡ number →
        BecomesAt conns.now number o (set conns.now result o) }
{
    let mut at = 0;
    while conns[at].number != number {
        at += 1;
    }
    at
}

// The number of the connection that waits longest: none waits since an earlier call.
fn longest_waiting(conns: &[OpenConn]) -> u64
    requires some { 0 < length conns.now }
    requires rise { (next : ℕ) × NumbersRise 0 next conns.now }
    ensures there { IsSome (open_in conns.now result) }
    ensures longest { WaitsLongest conns.now result }
{
    let mut first = 0;
    for (at, open) in conns.iter().enumerate() {
        if open.since < conns[first].since {
            first = at;
        }
    }
    conns[first].number
}

/// The open connections of a wire in memory. Contracts see them as a list, in the order of their
/// numbers, which are never used again.
#[derive(Debug, Drop)]
pub struct OpenConns {
    conns: Vec<OpenConn>,
    next: u64,
}

impl Model for OpenConns {
    ghost use Rattle.std.specs.Prelude.{List};
    ghost use Rattle.outer_ports.specs.declared.open_conns.OpenConn.{OpenConn};
    ghost use Rattle.outer_ports.specs.MemoryWire.{NumbersRise};

    ghost Value = { List OpenConn };

    ghost view = { λ s. s.conns.items };

    ghost invariant = { λ s. NumbersRise 0 s.next s.conns.items };
}

impl OpenConns {
    /// No connection is open.
    pub fn new(alloc: Global) -> OpenConns
        ensures { result ≡ [] }
    {
        OpenConns {
            conns: Vec::new(alloc),
            next: 0,
        }
    }

    /// Opens a connection at a call. Numbers that are used up are answered as want of memory.
    pub fn open(&mut self, alloc: Global, host: &str, port: u16, since: u64) -> Result<u64, Memory>
        ensures ok { IfOk result (λ n.
            self.new ≡ self.old ++ fresh_open n host.now port since ∷ []) }
        ensures new { IfOk result (λ n. open_in self.old n ≡ None) }
        ensures becomes { IfOk result (λ n.
            BecomesAt self.old n (fresh_open n host.now port since) self.new) }
        ensures err { OnErr result (self.new ≡ self.old) }
    {
        let number = self.next;
        if number == u64::MAX {
            return Err(Memory);
        }
        let conn = fresh(alloc, number, host, port, since)?;
        self.conns.push(conn)?;
        self.next += 1;
        Ok(number)
    }

    /// The open connection of a number.
    pub fn get(&self, number: u64) -> &OpenConn
        requires { IsSome (open_in self.now number) }
        ensures { open_in self.now number ≡ Some result.now }
    {
        let place = place_of(self.conns.as_slice(), number);
        &self.conns.as_slice()[place]
    }

    /// Bytes were sent, on a connection that has received nothing: its response is taken from the
    /// front.
    pub fn add_sent(&mut self, number: u64, piece: &[u8]) -> Result<(), Memory>
        requires { IsSome (open_in self.old number) }
        ensures ok { OnOk result ((o : OpenConn) → open_in self.old number ≡ Some o → BecomesAt
            self.old number (record o { sent = o.sent ++ piece.now; taken = 0 }) self.new) }
        ensures err { OnErr result (self.new ≡ self.old) }
    {
        let place = place_of(self.conns.as_slice(), number);
        let open = &mut self.conns[place];
        open.sent.extend(piece)?;
        open.taken = 0;
        Ok(())
    }

    /// So many bytes of the response were taken in all.
    pub fn set_taken(&mut self, number: u64, taken: usize)
        requires { IsSome (open_in self.old number) }
        ensures { (o : OpenConn) → open_in self.old number ≡ Some o →
            BecomesAt self.old number (record o { taken = taken }) self.new }
    {
        let place = place_of(self.conns.as_slice(), number);
        self.conns[place].taken = taken;
    }

    /// A send or a receive failed. Says whether one had failed before.
    pub fn set_broken(&mut self, number: u64) -> bool
        requires { IsSome (open_in self.old number) }
        ensures becomes { (o : OpenConn) → open_in self.old number ≡ Some o →
            BecomesAt self.old number (record o { broken = true }) self.new }
        ensures before { (o : OpenConn) → open_in self.old number ≡ Some o → result ≡ o.broken }
    {
        let place = place_of(self.conns.as_slice(), number);
        let open = &mut self.conns[place];
        let before = open.broken;
        open.broken = true;
        before
    }

    /// The end was answered. Says whether it had been before.
    pub fn set_ended(&mut self, number: u64) -> bool
        requires { IsSome (open_in self.old number) }
        ensures becomes { (o : OpenConn) → open_in self.old number ≡ Some o →
            BecomesAt self.old number (record o { ended = true }) self.new }
        ensures before { (o : OpenConn) → open_in self.old number ≡ Some o → result ≡ o.ended }
    {
        let place = place_of(self.conns.as_slice(), number);
        let open = &mut self.conns[place];
        let before = open.ended;
        open.ended = true;
        before
    }

    /// Names the connection that waits longest, at a call.
    pub fn name_longest(&mut self, since: u64) -> u64
        requires { 0 < length self.old }
        ensures becomes { (o : OpenConn) × (open_in self.old result ≡ Some o)
            × BecomesAt self.old result (record o { since = since; ready = true }) self.new }
        ensures longest { WaitsLongest self.old result }
    {
        let number = longest_waiting(self.conns.as_slice());
        let place = place_of(self.conns.as_slice(), number);
        let open = &mut self.conns[place];
        open.since = since;
        open.ready = true;
        number
    }

    /// Closes a connection.
    pub fn close(&mut self, number: u64)
        ensures closed { open_in self.new number ≡ None }
        ensures others { (k : ℕ) → k ≢ number → open_in self.new k ≡ open_in self.old k }
    {
        self.conns.retain(|open| open.number != number);
    }
}
