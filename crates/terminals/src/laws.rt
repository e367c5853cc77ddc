ghost use Rattle.std.specs.Prelude.{◌≡◌, ◌<◌, ℕ, suc, List, Some, take, length, encode_utf8};
ghost use Rattle.std.specs.Char.{IsScalar};
ghost use Rattle.terminals.specs.Utf8.{decoded};

/// A character that is decoded stands at the front of the bytes, in the UTF-8 of std.
pub fn decoded_is_encoded()
    ensures { (bytes : List ℕ) (x : ℕ × ℕ) → decoded bytes ≡ Some x → (x.1 < length bytes) × ((encode_utf8 x.0 ≡ take (suc x.1) bytes) × IsScalar x.0) }
{}
