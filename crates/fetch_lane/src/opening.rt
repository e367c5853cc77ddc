ghost use Rattle.std.specs.Prelude.{◌≡◌, ◌<◌, ◌≤◌, length, IfOk, OnErr, Some, true};
ghost use Rattle.outer_ports.specs.Wire.{ChangesNone, CountsOpen, Opens, SurelyOpens};
ghost use Rattle.fetch_lane.specs.Lanes.{conn_of};
ghost use Rattle.fetch_lane.specs.Went.{LaneOpened};

use crate::lane::{Lane, Stage};
use crate::silence::count_failure;
use http_message::Reading;
use outer_ports::{Opened, Wire};
use rdf_terms::Memory;
use reachability::Cause;

// The stage once so many bytes of the request are sent.
pub(crate) fn stage_after(conn: u64, at: usize, len: usize) -> Stage
    ensures more { at < len → result ≡ Stage.Sending conn at }
    ensures conn { conn_of result ≡ Some conn }
    ensures all { len ≤ at → result ≡ Stage.Receiving conn 0 }
{
    if at < len {
        Stage::Sending { conn, at }
    } else {
        Stage::Receiving { conn, held: 0 }
    }
}

impl Lane {
    /// Begins a try: opens a connection to the lane's host. Where none is opened the try has failed.
    pub fn open<W: Wire>(&mut self, wire: &mut W) -> Result<Opened, Memory>
        requires closed { self.old.stage ≡ Stage.Closed }
        requires room { self.old.flight.failed < 255 }
        ensures lane { IfOk result (λ opened. LaneOpened opened (W.hosts wire.new) self.old (W.conns wire.new) self.new) }
        ensures opens { IfOk result (λ opened. Opens (W.conns wire.old) self.old.host self.old.port opened (W.conns wire.new)) }
        ensures counts { IfOk result (λ opened. CountsOpen (W.counts wire.old) (W.counts wire.new) opened) }
        ensures surely { IfOk result (λ opened. W.sure wire.old ≡ true → SurelyOpens opened) }
        ensures err { OnErr result (self.new ≡ self.old) }
        ensures unopened { OnErr result (ChangesNone (W.conns wire.old) (W.conns wire.new)) }
        ensures uncounted { OnErr result (W.counts wire.new ≡ W.counts wire.old) }
        ensures hosts { W.hosts wire.new ≡ W.hosts wire.old }
        ensures sure { W.sure wire.new ≡ W.sure wire.old }
    {
        match wire.open(self.host.as_str(), self.port)? {
            Opened::Conn(conn) => {
                self.silent = 0;
                self.reading = Reading::new(self.alloc, self.limit);
                self.stage = stage_after(conn, 0, self.request.len());
                Ok(Opened::Conn(conn))
            }
            Opened::Failed => {
                count_failure(self, Cause::Connect);
                Ok(Opened::Failed)
            }
        }
    }
}
