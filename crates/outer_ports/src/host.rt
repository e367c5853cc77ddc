ghost use Rattle.std.specs.Prelude.{◌≡◌, IfOk};

use rdf_terms::{ByteBuf, Memory, TextBuf};

/// A request to a host at a port, and the response that answers it.
#[derive(Debug, Drop)]
pub struct Host {
    pub host: TextBuf,
    pub port: u16,
    pub request: ByteBuf,
    pub response: ByteBuf,
}

impl Host {
    /// An equal host. Its name is shared with this one, and the bytes are not.
    pub fn copy(&self) -> Result<Host, Memory>
        ensures { IfOk result (λ h. h ≡ self.now) }
    {
        Ok(Host {
            host: self.host.copy()?,
            port: self.port,
            request: self.request.copy()?,
            response: self.response.copy()?,
        })
    }
}
