ghost use Rattle.std.specs.Prelude.{◌≡◌, ◌≤◌, length, drop};
ghost use Rattle.http_message.specs.Lines as spec;
ghost use Rattle.http_message.specs.Lines.{IsScan};

/// Where a byte stands in a line: at its front, after a CR at its front, or further on.
#[derive(Clone, Copy)]
pub enum Place {
    Front,
    AfterCr,
    Inside,
}

/// Where the first empty line ends, if it has come, and where the next byte stands if not.
#[derive(Clone, Copy)]
pub enum Scan {
    End(usize),
    At(Place),
}

/// The bytes from a place on.
pub fn tail(bytes: &[u8], at: usize) -> &[u8]
    requires { at ≤ length bytes.now }
    ensures { result.now ≡ drop at bytes.now }
{
    &bytes[at..]
}

/// Where the byte after this one stands.
pub fn next_place(place: Place, b: u8) -> Place
    ensures { result ≡ spec.next_place place b }
{
    match place {
        Place::Front => {
            if b == b'\n' {
                Place::Front
            } else if b == b'\r' {
                Place::AfterCr
            } else {
                Place::Inside
            }
        }
        _ => {
            if b == b'\n' {
                Place::Front
            } else {
                Place::Inside
            }
        }
    }
}

/// Whether the byte ends an empty line.
pub fn ends_empty(place: Place, b: u8) -> bool
    ensures { result ≡ spec.ends_empty place b }
{
    match place {
        Place::Inside => false,
        _ => b == b'\n',
    }
}

fn find_end(place: Place, bytes: &[u8]) -> Scan
    ensures { result ≡ spec.scan_from 0 place bytes.now }
{
    let mut at = place;
    for (i, b) in bytes.iter().enumerate() {
        if ends_empty(at, *b) {
            return Scan::End(i + 1);
        }
        at = next_place(at, *b);
    }
    Scan::At(at)
}

/// Looks for the first empty line, from a place on.
pub fn find(place: Place, bytes: &[u8]) -> Scan
    ensures { IsScan place bytes.now result }
{
    find_end(place, bytes)
}
