ghost use Rattle.std.specs.Prelude.{◌≡◌, ◌<◌, [], IsSome, None, Some};
ghost use Rattle.outer_ports.specs.Wire.{ChangesOnly};
ghost use Rattle.fetch_lane.specs.Lanes.{IsOpen, Keeps, moved_of};
ghost use Rattle.fetch_lane.specs.Went.{IsHush, LaneWent, MovedWent, SilentWent, after_try, flight_after};

use crate::lane::{Lane, Stage};
use crate::went::Went;
use outer_ports::Wire;
use reachability::Cause;

/// How often nothing comes until a try fails by silence.
const SILENCE: u8 = 100;

// Counts a failed try, which has no connection any more.
pub(crate) fn count_failure(lane: &mut Lane, cause: Cause)
    requires { lane.old.flight.failed < 255 }
    ensures { lane.new ≡ after_try lane.old cause }
{
    lane.flight.failed += 1;
    lane.flight.last = Some(cause);
    lane.stage = Stage::Closed;
}

impl Lane {
    /// Ends a try that failed: closes its connection, which is of this number.
    pub fn end_try<W: Wire>(&mut self, wire: &mut W, conn: u64, cause: Cause)
        requires is_open { IsSome (W.conns wire.old conn) }
        requires room { self.old.flight.failed < 255 }
        ensures lane { self.new ≡ after_try self.old cause }
        ensures gone { W.conns wire.new conn ≡ None }
        ensures others { ChangesOnly conn (W.conns wire.old) (W.conns wire.new) }
        ensures counts { W.counts wire.new ≡ W.counts wire.old }
        ensures hosts { W.hosts wire.new ≡ W.hosts wire.old }
        ensures sure { W.sure wire.new ≡ W.sure wire.old }
    {
        wire.close(conn);
        count_failure(self, cause);
    }

    /// Nothing came over the lane's connection, which is of this number, once more. The hundredth time ends the try.
    pub fn count_silence<W: Wire>(&mut self, wire: &mut W, conn: u64) -> Went
        requires goes { IsOpen (W.hosts wire.old) [] conn (W.conns wire.old) self.old }
        requires room { self.old.flight.failed < 255 }
        ensures hush { IsHush result }
        ensures keeps { Keeps self.old self.new }
        ensures flight { self.new.flight ≡ flight_after result self.old.flight }
        ensures silent { SilentWent result self.old.silent self.new.silent }
        ensures moved { MovedWent result (moved_of (W.conns wire.old) self.old) (moved_of (W.conns wire.new) self.new) }
        ensures lane { LaneWent result (W.hosts wire.new) conn (W.conns wire.new) self.new }
        ensures others { ChangesOnly conn (W.conns wire.old) (W.conns wire.new) }
        ensures counts { W.counts wire.new ≡ W.counts wire.old }
        ensures hosts { W.hosts wire.new ≡ W.hosts wire.old }
        ensures sure { W.sure wire.new ≡ W.sure wire.old }
    {
        self.silent += 1;
        if self.silent < SILENCE {
            return Went::Quiet;
        }
        self.end_try(wire, conn, Cause::Silent);
        Went::Failed(Cause::Silent)
    }
}
