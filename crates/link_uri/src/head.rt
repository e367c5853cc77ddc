ghost use Rattle.std.specs.Prelude.{◌≡◌};
ghost use Rattle.std.specs.List.{before_first, position};
ghost use Rattle.std.specs.Prelude.{◌==◌};
ghost use Rattle.link_uri.specs.Heard as spec;
ghost use Rattle.link_uri.specs.Wanted.{is_wanted};

use crate::Reply;
use rdf_terms::ByteBuf;

fn is_blank(byte: u8) -> bool
    ensures { result ≡ spec.is_blank byte }
{
    byte == b' ' || byte == b'\t'
}

fn trim(bytes: &[u8]) -> &[u8]
    ensures { result.now ≡ spec.trim_back (spec.trim_front bytes.now) }
{
    let front = bytes.iter().take_while(|&&b| is_blank(b)).count();
    let rest = &bytes[front..];
    let back = rest.iter().rev().take_while(|&&b| is_blank(b)).count();
    &rest[..rest.len() - back]
}

fn end_of_type(field: &[u8]) -> Option<usize>
    ensures { result ≡ position (λ b. b == spec.semicolon) field.now }
{
    field.iter().position(|&b| b == b';')
}

fn before_parameters(field: &[u8]) -> &[u8]
    ensures { result.now ≡ before_first (λ b. b == spec.semicolon) field.now }
{
    match end_of_type(field) {
        Some(at) => &field[..at],
        None => field,
    }
}

fn is_name(name: &str, bytes: &[u8]) -> bool
    ensures { result ≡ spec.is_name name.now bytes.now }
{
    bytes.eq_ignore_ascii_case(name.as_bytes())
}

fn has_media(name: &str, field: &Option<ByteBuf>) -> bool
    ensures { result ≡ spec.has_media name.now field.now }
{
    match field {
        None => false,
        Some(field) => is_name(name, trim(before_parameters(field.as_slice()))),
    }
}

impl Reply {
    /// Whether its media type is `text/turtle`. No memory is taken.
    pub fn is_turtle(&self) -> bool
        ensures { result ≡ spec.is_turtle self.now }
    {
        has_media("text/turtle", &self.media)
    }

    /// Whether its media type is `application/n-triples`. No memory is taken.
    pub fn is_ntriples(&self) -> bool
        ensures { result ≡ spec.is_ntriples self.now }
    {
        has_media("application/n-triples", &self.media)
    }

    /// Whether its body has no coding but `identity`. No memory is taken.
    pub fn is_uncoded(&self) -> bool
        ensures { result ≡ spec.is_uncoded self.now }
    {
        match &self.coding {
            None => true,
            Some(coding) => is_name("identity", coding.as_slice()),
        }
    }
}

/// Whether the body of the reply is to be read as a document. No memory is taken.
pub fn wanted(reply: &Reply) -> bool
    ensures { result ≡ is_wanted reply.now }
{
    reply.status == 200 && (reply.is_uncoded() && (reply.is_turtle() || reply.is_ntriples()))
}
