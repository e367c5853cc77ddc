ghost use Rattle.std.specs.Prelude.{◌≡◌, bytes_eq};
ghost use Rattle.value_core.specs.Datatypes as spec;

use crate::slices::after;

/// What a datatype asks of its forms (XML Schema 1.1 Part 2).
#[derive(Clone, Copy, Debug)]
pub(crate) enum Datatype {
    /// Integers from `low` to `high`, each where there is such a bound.
    Integer {
        low: Option<i128>,
        high: Option<i128>,
    },
    Decimal,
    Boolean,
    /// Any other, of whose forms nothing is known.
    Other,
}

const NAMESPACE: &[u8] = b"http://www.w3.org/2001/XMLSchema#";

const fn between(low: i128, high: i128) -> Datatype
    ensures { result ≡ Datatype.Integer (Some low) (Some high) }
{
    Datatype::Integer {
        low: Some(low),
        high: Some(high),
    }
}

fn is(name: &[u8], other: &[u8]) -> bool
    ensures { result ≡ bytes_eq name.now other.now }
{
    name == other
}

/// The datatype of that name in the namespace of XML Schema.
fn datatype_of_name(name: &[u8]) -> Datatype
    ensures { result ≡ spec.named spec.table name.now }
{
    if is(name, b"integer") {
        Datatype::Integer {
            low: None,
            high: None,
        }
    } else if is(name, b"decimal") {
        Datatype::Decimal
    } else if is(name, b"boolean") {
        Datatype::Boolean
    } else if is(name, b"nonPositiveInteger") {
        Datatype::Integer {
            low: None,
            high: Some(0),
        }
    } else if is(name, b"negativeInteger") {
        Datatype::Integer {
            low: None,
            high: Some(-1),
        }
    } else if is(name, b"nonNegativeInteger") {
        Datatype::Integer {
            low: Some(0),
            high: None,
        }
    } else if is(name, b"positiveInteger") {
        Datatype::Integer {
            low: Some(1),
            high: None,
        }
    } else if is(name, b"long") {
        between(i64::MIN as i128, i64::MAX as i128)
    } else if is(name, b"int") {
        between(i32::MIN as i128, i32::MAX as i128)
    } else if is(name, b"short") {
        between(i16::MIN as i128, i16::MAX as i128)
    } else if is(name, b"byte") {
        between(i8::MIN as i128, i8::MAX as i128)
    } else if is(name, b"unsignedLong") {
        between(0, u64::MAX as i128)
    } else if is(name, b"unsignedInt") {
        between(0, u32::MAX as i128)
    } else if is(name, b"unsignedShort") {
        between(0, u16::MAX as i128)
    } else if is(name, b"unsignedByte") {
        between(0, u8::MAX as i128)
    } else {
        Datatype::Other
    }
}

/// The datatype of an IRI.
pub(crate) fn datatype_of(iri: &str) -> Datatype
    ensures { result ≡ spec.datatype_of iri.now }
{
    let bytes = iri.as_bytes();
    if bytes.starts_with(NAMESPACE) {
        datatype_of_name(after(bytes, NAMESPACE.len()))
    } else {
        Datatype::Other
    }
}
