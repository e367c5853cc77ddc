ghost use Rattle.std.specs.Prelude.{◌≡◌, IfOk, Some};
ghost use Rattle.link_uri.specs.Links.{IsLink};
ghost use Rattle.traverse_core.specs.Alone.{found_of, IsAnswer};
ghost use Rattle.traverse_core.specs.Run.{HasLinks};

use doc_reader::classify;
use link_uri::Link;
use rdf_terms::Memory;
use reachability::Found;
use std::alloc::Global;
use web_port::Got;

/// What was got for a link comes to, with a limit on the bytes of a body. It needs no traversal, so
/// a worker need not hold one meanwhile. It costs the time of reading the body.
pub fn classify_got(alloc: Global, link: &Link, got: Got, body: u64) -> Result<Found, Memory>
    requires valid_links { IsLink link.now }
    requires answered { IsAnswer got }
    ensures value { IfOk result (λ found. found_of link.now body got ≡ Some found) }
    ensures links { IfOk result HasLinks }
{
    match got {
        Got::Unreachable { cause, tries } => Ok(Found::Unreachable { cause, tries }),
        Got::Heard(heard) => {
            let outcome = classify(alloc, link, &heard, body)?;
            Ok(Found::Outcome(outcome))
        }
    }
}
