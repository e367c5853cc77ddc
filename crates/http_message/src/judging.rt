ghost use Rattle.std.specs.Prelude.{◌≡◌, ◌≤◌, length, IfOk};
ghost use Rattle.http_message.specs.Facts as spec;
ghost use Rattle.http_message.specs.Judged.{IsVerdict};
ghost use Rattle.http_message.specs.Reading.{head_limit};

use crate::facts::{Facts, facts_from};
use crate::head::read_head;
use rdf_terms::Memory;
use std::alloc::Global;

/// What a whole head is: no response head, one that another follows, or a final one.
#[derive(Drop)]
pub enum Verdict {
    NoHead,
    Interim,
    Final(Facts),
}

fn is_interim(status: u16) -> bool
    ensures { result ≡ spec.is_interim_status status }
{
    status >= 100 && status <= 199
}

/// Judges a whole head.
#[tactic(auto, unfolding(crate::specs::Facts::facts_of, crate::specs::Facts::is_interim))]
pub fn judge(alloc: Global, head: &[u8]) -> Result<Verdict, Memory>
    requires { length head.now ≤ head_limit }
    ensures { IfOk result (IsVerdict head.now) }
{
    match read_head(alloc, head)? {
        None => Ok(Verdict::NoHead),
        Some(head) => {
            if is_interim(head.status) {
                Ok(Verdict::Interim)
            } else {
                Ok(Verdict::Final(facts_from(alloc, head.status, &head.fields)?))
            }
        }
    }
}
