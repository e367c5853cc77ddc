//! Characters and their bytes.
ghost use Rattle.std.specs.Prelude.{◌≡◌, ◌-◌, ◌++◌, ℕ, List, Some, length, encode_utf8};
ghost use Rattle.std.specs.Char.{IsScalar};
ghost use Rattle.terminals.specs.Utf8.{decoded};

/// Each character's UTF-8 (The Unicode Standard, section 3.9, table 3-6) is decoded to it, whatever follows.
pub fn each_scalar_is_decoded()
    ensures { (code : ℕ) (more : List ℕ) → IsScalar code
        → decoded (encode_utf8 code ++ more) ≡ Some (code, length (encode_utf8 code) - 1) }
{}
