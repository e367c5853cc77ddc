ghost use Rattle.std.specs.Prelude.{◌≡◌, IfOk};

use rdf_terms::{ByteBuf, Memory};

/// A whole answer of a web, by what a look-up reads of it (RFC 9110 for each field's meaning).
#[derive(Debug, Drop)]
pub struct Reply {
    pub status: u16,
    /// The value of `Content-Type`.
    pub media: Option<ByteBuf>,
    /// The value of `Content-Encoding`.
    pub coding: Option<ByteBuf>,
    /// The value of `Location`.
    pub location: Option<ByteBuf>,
    pub body: ByteBuf,
}

/// What a web answers for a link.
#[derive(Debug, Drop)]
pub enum Heard {
    /// A whole answer.
    Reply(Reply),
    /// An answer that is no HTTP message.
    Malformed,
    /// An answer whose body passes the limit.
    TooLong,
    /// No whole answer comes.
    Never,
}

fn copy_field(field: &Option<ByteBuf>) -> Result<Option<ByteBuf>, Memory>
    ensures { IfOk result (λ f. f ≡ field.now) }
{
    match field {
        None => Ok(None),
        Some(bytes) => Ok(Some(bytes.copy()?)),
    }
}

impl Reply {
    /// An equal reply, in memory of its own.
    pub fn copy(&self) -> Result<Reply, Memory>
        ensures { IfOk result (λ reply. reply ≡ self.now) }
    {
        Ok(Reply {
            status: self.status,
            media: copy_field(&self.media)?,
            coding: copy_field(&self.coding)?,
            location: copy_field(&self.location)?,
            body: self.body.copy()?,
        })
    }
}

impl Heard {
    /// An equal value, in memory of its own.
    pub fn copy(&self) -> Result<Heard, Memory>
        ensures { IfOk result (λ heard. heard ≡ self.now) }
    {
        match self {
            Heard::Reply(reply) => Ok(Heard::Reply(reply.copy()?)),
            Heard::Malformed => Ok(Heard::Malformed),
            Heard::TooLong => Ok(Heard::TooLong),
            Heard::Never => Ok(Heard::Never),
        }
    }
}
