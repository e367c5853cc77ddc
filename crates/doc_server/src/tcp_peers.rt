ghost use Rattle.std.specs.Prelude.{◌≡◌, ◌≤◌, None, IfOk, true, false};
ghost use Rattle.outer_ports.specs.Causes.{RoseOnce};

use crate::peers::{NextPeer, Peers};
use outer_ports::{Joined, ReadSource, WriteSink};
use rdf_terms::Memory;
use std::io;
use std::net::{IpAddr, Ipv4Addr, Net, OpenListener, OpenStream, SocketAddr};

/// Connections over TCP at a port of this machine (127.0.0.1). It tells nothing of their bytes.
#[derive(Drop)]
pub struct TcpPeers<'r, T: Net> {
    rt: &'r T,
    port: u16,
    listener: Option<T::Listener>,
    faults: u64,
    given: u64,
    returned: u64,
    ghost within: { returned ≤ given },
}

/// The next connection that comes in, for reading and for writing.
fn accept<L: OpenListener>(
    listener: &L,
) -> io::Result<Joined<ReadSource<L::Stream>, WriteSink<L::Stream>>>
where
    L::Stream: OpenStream + io::Read + io::Write,
    ensures { IfOk result (λ conn. (conn.source.faults ≡ 0) × (conn.sink.faults ≡ 0)) }
{
    let (stream, _) = listener.accept()?;
    let writer = stream.try_clone()?;
    Ok(Joined {
        source: ReadSource::new(stream),
        sink: WriteSink::new(writer),
    })
}

impl<'r, T: Net> TcpPeers<'r, T> {
    /// Nothing is bound yet.
    pub fn new(rt: &'r T, port: u16) -> TcpPeers<'r, T>
        ensures counts { (result.faults ≡ 0) × (result.given ≡ 0) × (result.returned ≡ 0) }
    {
        TcpPeers {
            rt,
            port,
            listener: None,
            faults: 0,
            given: 0,
            returned: 0,
        }
    }

    /// Binds the port, where that isn't done. It is false only where that failed, which is a fault.
    pub fn bind(&mut self) -> bool
        ensures cause { result ≡ false → RoseOnce self.old.faults self.new.faults }
        ensures later { self.old.faults ≤ self.new.faults }
        ensures calm { result ≡ true → self.new.faults ≡ self.old.faults }
        ensures counts { (self.new.given ≡ self.old.given)
            × (self.new.returned ≡ self.old.returned) }
    {
        if self.listener.is_some() {
            return true;
        }
        let address = SocketAddr::new(IpAddr::V4(Ipv4Addr::LOCALHOST), self.port);
        match self.rt.bind(address) {
            Ok(listener) => {
                self.listener = Some(listener);
                true
            }
            Err(_) => {
                self.faults = self.faults.saturating_add(1);
                false
            }
        }
    }
}

impl<'r, T: Net> Peers for TcpPeers<'r, T> {
    type Conn = Joined<ReadSource<T::Stream>, WriteSink<T::Stream>>;

    ghost peering = { λ p. record {
      faults = p.faults;
      given = p.given;
      returned = p.returned;
      asked = None;
      wrote = None;
    } };

    fn next(&mut self) -> Result<NextPeer<Self::Conn>, Memory> {
        if self.bind() {
            if let Some(listener) = &self.listener {
                if let Ok(conn) = accept(listener) {
                    self.given = self.given.saturating_add(1);
                    return Ok(NextPeer::Peer(conn));
                }
            }
            self.faults = self.faults.saturating_add(1);
        }
        Ok(NextPeer::Failed)
    }

    fn back(&mut self, conn: Self::Conn) {
        drop(conn);
        self.returned = self.returned.saturating_add(1);
    }
}
