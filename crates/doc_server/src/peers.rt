ghost use Rattle.std.specs.Prelude.{◌≡◌, ◌≤◌, IfOk, OnErr};
ghost use Rattle.outer_ports.specs.Causes.{one_more};
ghost use Rattle.doc_server.specs.Peering.{Peering, GivesNext, TakesBack};

use outer_ports::Stream;
use rdf_terms::Memory;

/// What is given next.
#[derive(Debug)]
pub enum NextPeer<C> {
    /// A connection, in which nothing stands written, without faults.
    Peer(C),
    /// No connection could be given.
    Failed,
}

/// What gives connections one after the other, and takes each back.
pub trait Peers {
    type Conn: Stream;

    /// How often it has failed, how many connections it gave and took back, and, where they are told, what
    /// each given one held to be read and what stood written in each that was taken back.
    ghost peering: { Self → Peering };

    /// Gives a connection, which is to be handed back. Want of memory leaves all as it was.
    fn next(&mut self) -> Result<NextPeer<Self::Conn>, Memory>
        ensures gives { IfOk result (λ next. GivesNext
            (λ c. record {
              left = Self.Conn.left c;
              content = Self.Conn.content c;
              read_faults = Self.Conn.Source.faults c;
              write_faults = Self.Conn.Sink.faults c;
            })
            (peering self.old) next (peering self.new)) }
        ensures err { OnErr result (peering self.new ≡ peering self.old) };

    /// Takes a given connection back. It needs no memory.
    fn back(&mut self, conn: Self::Conn)
        requires { one_more (peering self.old).returned ≤ (peering self.old).given }
        ensures { TakesBack (peering self.old)
            (record {
              left = Self.Conn.left conn;
              content = Self.Conn.content conn;
              read_faults = Self.Conn.Source.faults conn;
              write_faults = Self.Conn.Sink.faults conn;
            })
            (peering self.new) };
}
