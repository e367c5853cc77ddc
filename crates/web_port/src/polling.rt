ghost use Rattle.std.specs.Prelude.{◌≡◌, [], OnErr, IfOk, MatchOption};
ghost use Rattle.web_port.specs.Port.{Waits, Lands};

use crate::{Fetcher, Got, Polled};
use rdf_terms::Memory;

/// Polls until a link lands, or none is open. It gives the link's number and what was got for it.
pub fn next_landed<F: Fetcher>(fetcher: &mut F) -> Result<Option<(u64, Got)>, Memory>
    ensures same { (F.fetch fetcher.new ≡ F.fetch fetcher.old)
        × (F.lanes fetcher.new ≡ F.lanes fetcher.old) }
    ensures ok { IfOk result (λ landed. MatchOption landed
        (Waits (F.fetch fetcher.old) (F.port fetcher.old) (F.port fetcher.new)
        × ((F.port fetcher.old).flights ≡ []))
        (λ p. Lands (F.fetch fetcher.old) (F.port fetcher.old) p.0 p.1 (F.port fetcher.new))) }
    ensures err { OnErr result
        (Waits (F.fetch fetcher.old) (F.port fetcher.old) (F.port fetcher.new)) }
{
    loop {
        match fetcher.poll()? {
            Polled::Settled { number, got } => return Ok(Some((number, got))),
            Polled::Pending => {}
            Polled::Idle => return Ok(None),
        }
    }
}
