ghost use Rattle.std.specs.Prelude.{◌≡◌, ◌≤◌, length, drop};

/// What stands from a place on.
pub(crate) fn after(bytes: &[u8], at: usize) -> &[u8]
    requires { at ≤ length bytes.now }
    ensures { result.now ≡ drop at bytes.now }
{
    &bytes[at..]
}
