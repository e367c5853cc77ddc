ghost use Rattle.std.specs.Prelude.{◌≡◌, ◌<◌, length, IfOk, Some};
ghost use Rattle.link_uri.specs.declared.link.Link.{Link as link};
ghost use Rattle.link_queue.specs.Table.{link_at};
ghost use Rattle.traverse_core.specs.Alone.{found_of, IsAnswer};
ghost use Rattle.traverse_core.specs.Run.{HasLinks};

use crate::classifying::classify_got;
use crate::job::Job;
use crate::traversal::Traversal;
use outer_ports::Sink;
use rdf_terms::Memory;
use reachability::Found;
use web_port::Got;

impl<J: Job, S: Sink> Traversal<J, S> {
    /// What was got for the link of a number comes to.
    pub(crate) fn found_at(&self, number: u64, got: Got, body: u64) -> Result<Found, Memory>
        requires number { number < length self.now.table }
        requires answered { IsAnswer got }
        ensures value { IfOk result (λ found. (u : link) → link_at self.now.table number ≡ Some u
            → found_of u body got ≡ Some found) }
        ensures links { IfOk result HasLinks }
    {
        let found = classify_got(self.alloc, self.link(number), got, body)?;
        Ok(found)
    }
}
