ghost use Rattle.std.specs.Prelude.{◌≡◌, IfOk, codes};
ghost use Rattle.http_header.specs.HeaderMap.{get_all};
ghost use Rattle.http_header.specs.Token.{lowercase};
ghost use Rattle.http_message.specs.Facts as spec;

use crate::fields::{first_value, joined};
use crate::framing::{Framing, framing_of};
use crate::lengths::trim;
use http_header::HeaderMap;
use link_uri::Reply;
use rdf_terms::{ByteBuf, Memory};
use std::alloc::Global;

/// What a final head says: the reply without its body, and how the body ends.
#[derive(Drop)]
pub struct Facts {
    pub reply: Reply,
    pub framing: Framing,
}

fn first_of(alloc: Global, fields: &HeaderMap, name: &str) -> Result<Option<ByteBuf>, Memory>
    ensures { IfOk result (λ value. value ≡ spec.first_of fields.now (lowercase name.now)) }
{
    match first_value(fields, name) {
        Some(value) => Ok(Some(ByteBuf::from_slice(alloc, value)?)),
        None => Ok(None),
    }
}

fn coding_of(alloc: Global, fields: &HeaderMap) -> Result<Option<ByteBuf>, Memory>
    ensures { IfOk result (λ coding. coding ≡ spec.joined_values (get_all fields.now (codes "content-encoding"))) }
{
    if fields.get("content-encoding").is_none() {
        return Ok(None);
    }
    let all = joined(alloc, fields, "content-encoding")?;
    Ok(Some(ByteBuf::from_slice(alloc, trim(&all))?))
}

/// What a final head with this status and these fields says.
pub fn facts_from(alloc: Global, status: u16, fields: &HeaderMap) -> Result<Facts, Memory>
    ensures { IfOk result (λ facts. facts ≡ spec.facts_from status fields.now) }
{
    let media = first_of(alloc, fields, "content-type")?;
    let coding = coding_of(alloc, fields)?;
    let location = first_of(alloc, fields, "location")?;
    Ok(Facts {
        reply: Reply {
            status,
            media,
            coding,
            location,
            body: ByteBuf::new(alloc),
        },
        framing: framing_of(fields),
    })
}
