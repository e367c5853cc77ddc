ghost use Rattle.std.specs.Prelude.{◌≡◌, ◌≤◌, All, length, IfOk, OnOk, option_copied, option_map};
ghost use Rattle.httparse.specs.Spans.{IsHeaderWithin, header_bytes};
ghost use Rattle.http_header.specs.HeaderMap.{get, get_all, append};
ghost use Rattle.http_header.specs.Token.{lowercase};
ghost use Rattle.http_header.specs.FieldValue.{plain_value};
ghost use Rattle.http_message.specs.Heads as spec;
ghost use Rattle.http_message.specs.Heads.{IsStorable, HasRoomFor, max_fields};

use http_header::{
    HeaderMap, HeaderMapError, HeaderName, HeaderNameError, HeaderValue, HeaderValueError,
};
use httparse::spans::HeaderSpan;
use rdf_terms::Memory;
use std::alloc::Global;

/// The fields that headers cover, by name.
pub fn field_map(alloc: Global, buf: &[u8], headers: &[HeaderSpan]) -> Result<HeaderMap, Memory>
    requires within { All (IsHeaderWithin (length buf.now)) headers.now }
    requires storable { All (λ h. IsStorable (header_bytes buf.now h)) headers.now }
    requires few { length headers.now ≤ max_fields }
    ensures { IfOk result (λ m. m ≡ spec.fields_at buf.now headers.now) }
{
    let mut map = HeaderMap::new(alloc);
    for header in headers {
        put(alloc, &mut map, header.name.of(buf), header.value.of(buf))?;
    }
    Ok(map)
}

// Adds a field after those of its name.
fn put(alloc: Global, map: &mut HeaderMap, name: &[u8], value: &[u8]) -> Result<(), Memory>
    requires storable { IsStorable (name.now, value.now) }
    requires room { HasRoomFor map.old 1 }
    ensures { OnOk result (map.new ≡ append map.old (lowercase name.now) (plain_value value.now)) }
{
    let name = match HeaderName::from_bytes(alloc, name) {
        Ok(name) => name,
        Err(HeaderNameError::Invalid) => unreachable!(),
        Err(HeaderNameError::OutOfMemory) => return Err(Memory),
    };
    let value = match HeaderValue::from_bytes(alloc, value) {
        Ok(value) => value,
        Err(HeaderValueError::Invalid) => unreachable!(),
        Err(HeaderValueError::OutOfMemory) => return Err(Memory),
    };
    match map.append(name, value) {
        Ok(_) => Ok(()),
        Err(HeaderMapError::MaxSizeReached) => unreachable!(),
        Err(HeaderMapError::OutOfMemory) => Err(Memory),
    }
}

/// The first value of a field, whose name may be in any case.
pub fn first_value<'a>(map: &'a HeaderMap, name: &str) -> Option<&'a [u8]>
    ensures { option_copied result ≡ option_map (λ v. v.bytes) (get map.now (lowercase name.now)) }
{
    match map.get(name) {
        Some(value) => Some(value.as_bytes()),
        None => None,
    }
}

/// All values of a field, with a comma and a space between.
pub fn joined(alloc: Global, map: &HeaderMap, name: &str) -> Result<Vec<u8>, Memory>
    ensures { IfOk result (λ v. v.items ≡ spec.joined (get_all map.now (lowercase name.now))) }
{
    let mut all = Vec::new(alloc);
    let mut is_first = true;
    for value in map.get_all(name) {
        if !is_first {
            all.extend_from_slice(b", ")?;
        }
        is_first = false;
        all.extend_from_slice(value.as_bytes())?;
    }
    Ok(all)
}
