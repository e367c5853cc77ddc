ghost use Rattle.std.specs.Prelude.{◌≡◌, ◌<◌, IfOk, OnErr, true};
ghost use Rattle.outer_ports.specs.Wire.{ChangesOnly};
ghost use Rattle.fetch_lane.specs.Lanes.{IsSending, Keeps, moved_of, silence};
ghost use Rattle.fetch_lane.specs.Went.{CountsWent, HeardWent, IsHeld, LaneWent, MovedWent, SilentWent, flight_after};

use crate::lane::{Lane, Stage};
use crate::opening::stage_after;
use crate::went::Went;
use outer_ports::{Sent, Wire};
use rdf_terms::Memory;
use reachability::Cause;

// Sends some of the request, from its byte `at` on.
pub(crate) fn send<W: Wire>(
    wire: &mut W,
    lane: &mut Lane,
    conn: u64,
    at: usize,
) -> Result<Went, Memory>
    requires sending { IsSending (W.hosts wire.old) (W.conns wire.old) lane.old true conn at }
    requires stage { lane.old.stage ≡ Stage.Sending conn at }
    requires calm { lane.old.silent < silence }
    requires room { lane.old.flight.failed < 255 }
    ensures keeps { IfOk result (λ went. Keeps lane.old lane.new) }
    ensures flight { IfOk result (λ went. lane.new.flight ≡ flight_after went lane.old.flight) }
    ensures silent { IfOk result (λ went. SilentWent went lane.old.silent lane.new.silent) }
    ensures moved { IfOk result (λ went. MovedWent went (moved_of (W.conns wire.old) lane.old) (moved_of (W.conns wire.new) lane.new)) }
    ensures lane { IfOk result (λ went. LaneWent went (W.hosts wire.new) conn (W.conns wire.new) lane.new) }
    ensures counts { IfOk result (λ went. CountsWent went (W.counts wire.old) (W.counts wire.new)) }
    ensures heard { IfOk result (λ went. HeardWent went (W.sure wire.old) (W.hosts wire.old) lane.old) }
    ensures held { OnErr result (lane.new ≡ lane.old) }
    ensures unmoved { OnErr result (W.conns wire.new conn ≡ W.conns wire.old conn) }
    ensures uncounted { OnErr result (W.counts wire.new ≡ W.counts wire.old) }
    ensures others { ChangesOnly conn (W.conns wire.old) (W.conns wire.new) }
    ensures hosts { W.hosts wire.new ≡ W.hosts wire.old }
    ensures sure { W.sure wire.new ≡ W.sure wire.old }
{
    let len = lane.request.len();
    match wire.send(conn, &lane.request.as_slice()[at..]) {
        Sent::Took(count) => {
            lane.silent = 0;
            lane.stage = stage_after(conn, at + count, len);
            Ok(Went::Moved)
        }
        Sent::Again => Ok(lane.count_silence(wire, conn)),
        Sent::Failed => {
            lane.end_try(wire, conn, Cause::Broken);
            Ok(Went::Failed(Cause::Broken))
        }
        Sent::Memory => Err(Memory),
    }
}
