ghost use Rattle.std.specs.Prelude.{◌≡◌, ◌<◌, [], length, IfOk, OnOk, OnErr, None, Some, true};
ghost use Rattle.outer_ports.specs.Wire.{ChangesOnly};
ghost use Rattle.fetch_lane.specs.Lanes.{IsAt, IsOpen, Keeps, conn_of, moved_of, silence};
ghost use Rattle.fetch_lane.specs.Responses.{IsHeardOver};
ghost use Rattle.fetch_lane.specs.Went.{CountsWent, HeardWent, IsClosed, IsHeld, LaneWent, MovedWent, SilentWent, flight_after};

use crate::lane::{Lane, Stage};
use crate::receiving::{read_held, receive};
use crate::sending::send;
use crate::went::Went;
use link_uri::Heard;
use outer_ports::Wire;
use rdf_terms::Memory;

impl Lane {
    /// Goes on over the lane's connection, which is of this number and was named ready: sends a piece of the request, or
    /// receives a piece of the response and reads it.
    pub fn go_on<W: Wire>(
        &mut self,
        wire: &mut W,
        conn: u64,
        buffer: &mut [u8],
    ) -> Result<Went, Memory>
        requires is_open { conn_of self.old.stage ≡ Some conn }
        requires ready { IsAt (W.hosts wire.old) [] (W.conns wire.old) self.old true self.old.stage }
        requires calm { self.old.silent < silence }
        requires some { 0 < length buffer.old }
        requires room { self.old.flight.failed < 255 }
        ensures keeps { IfOk result (λ went. Keeps self.old self.new) }
        ensures flight { IfOk result (λ went. self.new.flight ≡ flight_after went self.old.flight) }
        ensures silent { IfOk result (λ went. SilentWent went self.old.silent self.new.silent) }
        ensures moved { IfOk result (λ went. MovedWent went (moved_of (W.conns wire.old) self.old) (moved_of (W.conns wire.new) self.new)) }
        ensures lane { IfOk result (λ went. LaneWent went (W.hosts wire.new) conn (W.conns wire.new) self.new) }
        ensures counts { IfOk result (λ went. CountsWent went (W.counts wire.old) (W.counts wire.new)) }
        ensures heard { IfOk result (λ went. HeardWent went (W.sure wire.old) (W.hosts wire.old) self.old) }
        ensures held { OnErr result (IsHeld (W.hosts wire.new) buffer.new conn self.old (W.conns wire.old) (W.conns wire.new) self.new) }
        ensures uncounted { OnErr result (W.counts wire.new ≡ W.counts wire.old) }
        ensures others { ChangesOnly conn (W.conns wire.old) (W.conns wire.new) }
        ensures hosts { W.hosts wire.new ≡ W.hosts wire.old }
        ensures sure { W.sure wire.new ≡ W.sure wire.old }
    {
        match self.stage {
            Stage::Closed => unreachable!(),
            Stage::Sending { at, .. } => send(wire, self, conn, at),
            Stage::Receiving { .. } => receive(wire, self, conn, buffer),
        }
    }

    /// Reads what is held in the buffer for want of memory. None where the response goes on.
    pub fn read_on<W: Wire>(
        &mut self,
        wire: &mut W,
        conn: u64,
        buffer: &[u8],
    ) -> Result<Option<Heard>, Memory>
        requires goes { IsOpen (W.hosts wire.old) buffer.now conn (W.conns wire.old) self.old }
        ensures keeps { OnOk result (Keeps self.old self.new) }
        ensures flight { OnOk result (self.new.flight ≡ self.old.flight) }
        ensures silent { OnOk result (self.new.silent ≡ self.old.silent) }
        ensures more { result ≡ Ok None → IsOpen (W.hosts wire.new) [] conn (W.conns wire.new) self.new }
        ensures stays { result ≡ Ok None → W.conns wire.new conn ≡ W.conns wire.old conn }
        ensures closed { (h : Heard) → result ≡ Ok (Some h) → IsClosed conn (W.conns wire.new) self.new }
        ensures heard { (h : Heard) → result ≡ Ok (Some h) → IsHeardOver self.old.limit (W.sure wire.old) (W.hosts wire.old) self.old.host self.old.port self.old.request h }
        ensures held { OnErr result (self.new ≡ self.old) }
        ensures unmoved { OnErr result (W.conns wire.new conn ≡ W.conns wire.old conn) }
        ensures others { ChangesOnly conn (W.conns wire.old) (W.conns wire.new) }
        ensures counts { W.counts wire.new ≡ W.counts wire.old }
        ensures hosts { W.hosts wire.new ≡ W.hosts wire.old }
        ensures sure { W.sure wire.new ≡ W.sure wire.old }
    {
        match self.stage {
            Stage::Closed => unreachable!(),
            Stage::Sending { .. } => Ok(None),
            Stage::Receiving { held, .. } => read_held(wire, self, conn, held, buffer),
        }
    }
}
