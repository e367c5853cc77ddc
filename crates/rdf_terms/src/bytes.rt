ghost use Rattle.std.specs.Prelude.{◌≡◌, ◌↔◌, IsTrue, IfOk, OnOk, OnErr, ◌++◌, length, [], bytes_eq};
ghost use Rattle.std.specs.Cmp.{partial_equiv_from_equiv};
ghost use Rattle.std.specs.Cmp.Lexicographic.{nat_list_eq_equiv};

use crate::Memory;
use std::alloc::Global;
use std::marker::Model;

/// Bytes that contracts see as their list.
#[derive(Debug, Drop)]
pub struct ByteBuf {
    bytes: Vec<u8>,
}

impl Model for ByteBuf {
    ghost use Rattle.std.specs.Prelude.{List, ℕ};

    ghost Value = { List ℕ };

    ghost view = { λ b. b.bytes.items };
}

impl ByteBuf {
    /// No bytes.
    pub fn new(alloc: Global) -> ByteBuf
        ensures { result ≡ [] }
    {
        ByteBuf {
            bytes: Vec::new(alloc),
        }
    }

    /// The same bytes, in memory of their own.
    pub fn from_slice(alloc: Global, bytes: &[u8]) -> Result<ByteBuf, Memory>
        ensures { IfOk result (λ b. b ≡ bytes.now) }
    {
        Ok(ByteBuf {
            bytes: Vec::from_slice(alloc, bytes)?,
        })
    }

    /// The bytes of the vector, which keeps its room. No memory is taken.
    pub fn from_vec(bytes: Vec<u8>) -> ByteBuf
        ensures { result ≡ bytes.items }
    {
        ByteBuf { bytes }
    }

    /// The bytes themselves, lent.
    pub fn as_slice(&self) -> &[u8]
        ensures { result.now ≡ self.now }
    {
        self.bytes.as_slice()
    }

    /// The number of bytes.
    pub fn len(&self) -> usize
        ensures { result ≡ length self.now }
    {
        self.bytes.len()
    }

    /// Whether there is no byte.
    pub fn is_empty(&self) -> bool
        ensures { IsTrue result ↔ (self.now ≡ []) }
    {
        self.bytes.is_empty()
    }

    /// Appends the bytes. It costs what it appends, amortised.
    pub fn extend(&mut self, more: &[u8]) -> Result<(), Memory>
        ensures ok { OnOk result (self.new ≡ self.old ++ more.now) }
        ensures err { OnErr result (self.new ≡ self.old) }
    {
        self.bytes.extend_from_slice(more)?;
        Ok(())
    }

    /// Equal bytes, in memory of their own.
    pub fn copy(&self) -> Result<ByteBuf, Memory>
        ensures { IfOk result (λ b. b ≡ self.now) }
    {
        Ok(ByteBuf {
            bytes: self.bytes.clone()?,
        })
    }
}

impl PartialEq for ByteBuf {
    ghost eq = { bytes_eq };

    ghost laws = { partial_equiv_from_equiv nat_list_eq_equiv };

    fn eq(&self, other: &ByteBuf) -> bool {
        self.bytes == other.bytes
    }
}

impl Eq for ByteBuf {
    ghost laws = { nat_list_eq_equiv };
}
