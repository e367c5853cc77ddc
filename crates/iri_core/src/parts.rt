ghost use Rattle.std.specs.Prelude.{◌≡◌, ◌≤◌, ◌<◌, ◌^◌, length, slice_range};
ghost use Rattle.iri_core.specs.Reference.{first_of, is_at, scheme_of, behind_scheme, authority_at, path_at, query_at, fragment_at, end_of, parts_of, IsCut, AllCut};

/// A part of a text: the bytes from one place up to another, which isn't in it.
#[derive(Clone, Copy, Debug, PartialEq, Eq)]
pub struct Span {
    pub from: usize,
    pub to: usize,
}

/// Where the parts of a reference stand, without the marks between them (RFC 3986, section 3).
#[derive(Clone, Copy, Debug, PartialEq, Eq)]
pub struct Parts {
    pub scheme: Option<Span>,
    pub authority: Option<Span>,
    pub path: Span,
    pub query: Option<Span>,
    pub fragment: Option<Span>,
}

// The place of the first of the marks at or behind `from`, or the end.
#[tactic(auto, using(crate::proofs::Marks::first_of_end, crate::proofs::Marks::first_of_here, crate::proofs::Marks::first_of_more))]
pub(crate) fn first_of(marks: &[u8], bytes: &[u8], from: usize) -> usize
    requires { from ≤ length bytes.now }
    ensures value { result ≡ first_of marks.now bytes.now from }
    ensures within { (from ≤ result) × (result ≤ length bytes.now) }
{
    let mut at = from;
    while at < bytes.len() && !marks.contains(&bytes[at]) {
        at += 1;
    }
    at
}

pub(crate) fn is_at(bytes: &[u8], at: usize, byte: u8) -> bool
    ensures { result ≡ is_at bytes.now at byte }
{
    at < bytes.len() && bytes[at] == byte
}

#[tactic(auto, unfolding(crate::specs::Reference::scheme_of))]
fn scheme_of(bytes: &[u8]) -> Option<Span>
    ensures value { result ≡ scheme_of bytes.now }
    ensures within { behind_scheme result ≤ length bytes.now }
{
    let to = first_of(b":/?#", bytes, 0);
    if to > 0 && is_at(bytes, to, b':') {
        Some(Span { from: 0, to })
    } else {
        None
    }
}

#[tactic(auto, unfolding(crate::specs::Reference::authority_at))]
fn authority_at(bytes: &[u8], at: usize) -> Option<Span>
    requires { at ≤ length bytes.now }
    ensures value { result ≡ authority_at bytes.now at }
    ensures within { end_of result at ≤ length bytes.now }
{
    if is_at(bytes, at, b'/') && is_at(bytes, at + 1, b'/') {
        let to = first_of(b"/?#", bytes, at + 2);
        Some(Span { from: at + 2, to })
    } else {
        None
    }
}

#[tactic(auto, unfolding(crate::specs::Reference::path_at))]
fn path_at(bytes: &[u8], at: usize) -> Span
    requires { at ≤ length bytes.now }
    ensures value { result ≡ path_at bytes.now at }
    ensures within { result.to ≤ length bytes.now }
{
    let to = first_of(b"?#", bytes, at);
    Span { from: at, to }
}

#[tactic(auto, unfolding(crate::specs::Reference::query_at))]
fn query_at(bytes: &[u8], at: usize) -> Option<Span>
    requires { at ≤ length bytes.now }
    ensures value { result ≡ query_at bytes.now at }
    ensures within { end_of result at ≤ length bytes.now }
{
    if is_at(bytes, at, b'?') {
        let to = first_of(b"#", bytes, at + 1);
        Some(Span { from: at + 1, to })
    } else {
        None
    }
}

#[tactic(auto, unfolding(crate::specs::Reference::fragment_at))]
fn fragment_at(bytes: &[u8], at: usize) -> Option<Span>
    requires { at ≤ length bytes.now }
    ensures { result ≡ fragment_at bytes.now at }
{
    if is_at(bytes, at, b'#') {
        Some(Span {
            from: at + 1,
            to: bytes.len(),
        })
    } else {
        None
    }
}

fn behind_scheme(scheme: Option<Span>) -> usize
    requires { behind_scheme scheme < 2 ^ 64 }
    ensures { result ≡ behind_scheme scheme }
{
    match scheme {
        Some(span) => span.to + 1,
        None => 0,
    }
}

fn end_of(part: Option<Span>, at: usize) -> usize
    ensures { result ≡ end_of part at }
{
    match part {
        Some(span) => span.to,
        None => at,
    }
}

fn parts_of(bytes: &[u8]) -> Parts
    ensures { result ≡ parts_of bytes.now }
{
    let scheme = scheme_of(bytes);
    let start = behind_scheme(scheme);
    let authority = authority_at(bytes, start);
    let path = path_at(bytes, end_of(authority, start));
    let query = query_at(bytes, path.to);
    let fragment = fragment_at(bytes, end_of(query, path.to));
    Parts {
        scheme,
        authority,
        path,
        query,
        fragment,
    }
}

/// The parts of a reference, each as long as its marks allow. No text is refused.
pub fn split(text: &str) -> Parts
    ensures value { result ≡ parts_of text.now }
    ensures cut { AllCut text.now result }
{
    parts_of(text.as_bytes())
}

/// The text of a part.
pub fn piece(text: &str, span: Span) -> &str
    requires { IsCut text.now span }
    ensures { result.now ≡ slice_range text.now span.from span.to }
{
    &text[span.from..span.to]
}
