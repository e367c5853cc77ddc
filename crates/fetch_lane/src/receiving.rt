ghost use Rattle.std.specs.Prelude.{◌≡◌, ◌<◌, ◌≤◌, Bool, [], length, IfOk, OnOk, OnErr, None, Some, true};
ghost use Rattle.outer_ports.specs.Wire.{ChangesOnly};
ghost use Rattle.fetch_lane.specs.Lanes.{IsOpen, IsReceiving, Keeps, moved_of, silence};
ghost use Rattle.fetch_lane.specs.Responses.{IsHeardOver};
ghost use Rattle.fetch_lane.specs.Went.{CountsWent, FinishedBy, HeardWent, IsClosed, IsEnded, IsHeld, LaneWent, MovedWent, SilentWent, flight_after};

use crate::lane::{Lane, Stage};
use crate::went::Went;
use http_message::{Ended, Fed};
use link_uri::Heard;
use outer_ports::{Received, Wire};
use rdf_terms::Memory;
use reachability::Cause;

// Reads the first bytes of the buffer, which were received last, and closes the connection once the response is read.
pub(crate) fn read_held<W: Wire>(
    wire: &mut W,
    lane: &mut Lane,
    conn: u64,
    held: usize,
    buffer: &[u8],
) -> Result<Option<Heard>, Memory>
    requires receiving { (ready : Bool) × IsReceiving (W.hosts wire.old) buffer.now (W.conns wire.old) lane.old ready conn held }
    requires calm { lane.old.silent < silence }
    ensures keeps { OnOk result (Keeps lane.old lane.new) }
    ensures flight { OnOk result (lane.new.flight ≡ lane.old.flight) }
    ensures silent { OnOk result (lane.new.silent ≡ lane.old.silent) }
    ensures more { result ≡ Ok None → IsOpen (W.hosts wire.new) [] conn (W.conns wire.new) lane.new }
    ensures stays { result ≡ Ok None → W.conns wire.new conn ≡ W.conns wire.old conn }
    ensures closed { (h : Heard) → result ≡ Ok (Some h) → IsClosed conn (W.conns wire.new) lane.new }
    ensures heard { (h : Heard) → result ≡ Ok (Some h) → IsHeardOver lane.old.limit (W.sure wire.old) (W.hosts wire.old) lane.old.host lane.old.port lane.old.request h }
    ensures held { OnErr result (lane.new ≡ lane.old) }
    ensures unmoved { OnErr result (W.conns wire.new conn ≡ W.conns wire.old conn) }
    ensures others { ChangesOnly conn (W.conns wire.old) (W.conns wire.new) }
    ensures counts { W.counts wire.new ≡ W.counts wire.old }
    ensures hosts { W.hosts wire.new ≡ W.hosts wire.old }
    ensures sure { W.sure wire.new ≡ W.sure wire.old }
{
    match lane.reading.feed(&buffer[..held])? {
        Fed::More => {
            lane.stage = Stage::Receiving { conn, held: 0 };
            Ok(None)
        }
        Fed::Done(heard) => {
            wire.close(conn);
            lane.stage = Stage::Closed;
            Ok(Some(heard))
        }
    }
}

// The connection has ended, and is closed: a body that only its end delimits is whole, and any other response is cut.
fn finish<W: Wire>(wire: &mut W, lane: &mut Lane, conn: u64) -> Went
    requires ended { IsEnded (W.sure wire.old) (W.hosts wire.old) (W.conns wire.old) lane.old conn }
    requires room { lane.old.flight.failed < 255 }
    ensures finished { FinishedBy result }
    ensures keeps { Keeps lane.old lane.new }
    ensures flight { lane.new.flight ≡ flight_after result lane.old.flight }
    ensures silent { lane.new.silent ≡ lane.old.silent }
    ensures lane { IsClosed conn (W.conns wire.new) lane.new }
    ensures heard { HeardWent result (W.sure wire.old) (W.hosts wire.old) lane.old }
    ensures others { ChangesOnly conn (W.conns wire.old) (W.conns wire.new) }
    ensures counts { W.counts wire.new ≡ W.counts wire.old }
    ensures hosts { W.hosts wire.new ≡ W.hosts wire.old }
    ensures sure { W.sure wire.new ≡ W.sure wire.old }
{
    match lane.reading.end() {
        Ended::Done(heard) => {
            wire.close(conn);
            lane.stage = Stage::Closed;
            Went::Heard(heard)
        }
        Ended::Cut => {
            lane.end_try(wire, conn, Cause::Cut);
            Went::Failed(Cause::Cut)
        }
    }
}

// Receives some of the response into the buffer, and reads it.
pub(crate) fn receive<W: Wire>(
    wire: &mut W,
    lane: &mut Lane,
    conn: u64,
    buffer: &mut [u8],
) -> Result<Went, Memory>
    requires receiving { IsReceiving (W.hosts wire.old) [] (W.conns wire.old) lane.old true conn 0 }
    requires stage { lane.old.stage ≡ Stage.Receiving conn 0 }
    requires some { 0 < length buffer.old }
    requires calm { lane.old.silent < silence }
    requires room { lane.old.flight.failed < 255 }
    ensures keeps { IfOk result (λ went. Keeps lane.old lane.new) }
    ensures flight { IfOk result (λ went. lane.new.flight ≡ flight_after went lane.old.flight) }
    ensures silent { IfOk result (λ went. SilentWent went lane.old.silent lane.new.silent) }
    ensures moved { IfOk result (λ went. MovedWent went (moved_of (W.conns wire.old) lane.old) (moved_of (W.conns wire.new) lane.new)) }
    ensures lane { IfOk result (λ went. LaneWent went (W.hosts wire.new) conn (W.conns wire.new) lane.new) }
    ensures counts { IfOk result (λ went. CountsWent went (W.counts wire.old) (W.counts wire.new)) }
    ensures heard { IfOk result (λ went. HeardWent went (W.sure wire.old) (W.hosts wire.old) lane.old) }
    ensures held { OnErr result (IsHeld (W.hosts wire.new) buffer.new conn lane.old (W.conns wire.old) (W.conns wire.new) lane.new) }
    ensures uncounted { OnErr result (W.counts wire.new ≡ W.counts wire.old) }
    ensures others { ChangesOnly conn (W.conns wire.old) (W.conns wire.new) }
    ensures hosts { W.hosts wire.new ≡ W.hosts wire.old }
    ensures sure { W.sure wire.new ≡ W.sure wire.old }
{
    match wire.recv(conn, buffer) {
        Received::Took(count) => {
            lane.silent = 0;
            lane.stage = Stage::Receiving { conn, held: count };
            match read_held(wire, lane, conn, count, buffer)? {
                None => Ok(Went::Moved),
                Some(heard) => Ok(Went::Heard(heard)),
            }
        }
        Received::End => Ok(finish(wire, lane, conn)),
        Received::Again => Ok(lane.count_silence(wire, conn)),
        Received::Failed => {
            lane.end_try(wire, conn, Cause::Broken);
            Ok(Went::Failed(Cause::Broken))
        }
    }
}
