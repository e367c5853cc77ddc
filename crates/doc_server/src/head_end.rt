ghost use Rattle.std.specs.Prelude.{◌≡◌};
ghost use Rattle.doc_server.specs.HeadEnd as spec;

/// Where a byte stands in a request: at the front of the empty lines before the head, behind a CR there, at
/// the front of a line of the head, behind a CR there, within a line, or behind the head.
#[derive(Clone, Copy, Debug, PartialEq, Eq)]
pub enum Place {
    Blank,
    BlankCr,
    Front,
    AfterCr,
    Inside,
    Ended,
}

fn next_place(place: Place, byte: u8) -> Place
    ensures { result ≡ spec.next_place place byte }
{
    match (place, byte) {
        (Place::Blank | Place::BlankCr, b'\n') => Place::Blank,
        (Place::Blank, b'\r') => Place::BlankCr,
        (Place::Front | Place::AfterCr, b'\n') => Place::Ended,
        (Place::Front, b'\r') => Place::AfterCr,
        (Place::Inside, b'\n') => Place::Front,
        (Place::Ended, _) => Place::Ended,
        _ => Place::Inside,
    }
}

/// Where the next byte stands behind some bytes.
pub fn place_after(place: Place, bytes: &[u8]) -> Place
    ensures { result ≡ spec.place_after place bytes.now }
{
    let mut at = place;
    for byte in bytes {
        at = next_place(at, *byte);
    }
    at
}
