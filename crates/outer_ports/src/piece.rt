ghost use Rattle.std.specs.Prelude.{◌≡◌, ◌≤◌, length, drop, take, min};

/// The bytes from `at` on.
pub fn tail(bytes: &[u8], at: usize) -> &[u8]
    requires { at ≤ length bytes.now }
    ensures { result.now ≡ drop at bytes.now }
{
    &bytes[at..]
}

/// Copies as many bytes from the front of `from` as are allowed, are there and fit into `buf`, and
/// says how many.
pub fn copy_piece(from: &[u8], most: usize, buf: &mut [u8]) -> usize
    ensures count { result ≡ min most (min (length from.now) (length buf.old)) }
    ensures bytes { take result buf.new ≡ take result from.now }
    ensures length { length buf.new ≡ length buf.old }
{
    let count = most.min(from.len().min(buf.len()));
    buf[..count].copy_from_slice(&from[..count]);
    count
}
