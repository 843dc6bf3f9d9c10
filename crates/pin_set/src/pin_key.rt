ghost use Rattle.std.specs.Prelude.{◌≡◌, ◌≤◌, [], ◌∷◌, IfOk, IsOk, length, nat_eq};
ghost use Rattle.std.specs.Cmp.Lexicographic.{pointwise, bytes_decides, nat_list_eq_equiv};
ghost use Rattle.std.specs.Cmp.{partial_equiv_from_equiv};
ghost use Rattle.std.proofs.Common.{ap};

use smallvec::SmallVec;
use std::alloc::{AllocError, Global};
use std::fmt;
use std::hash::{Hash, Hasher};
use std::marker::Model;
use std::net::Ipv4Addr;

/// What a backend's `stick on` pattern found in a request, by the table's type.
#[derive(Clone, Debug, Drop, PartialEq, Eq, Hash)]
pub enum PinKey {
    /// The key of a table of type `ip`.
    Ipv4(Ipv4Addr),
    /// The key of a table of type `string`.
    Text(KeyText),
}

/// The bytes of a key in a table of type `string`. Up to 32 of them are kept in place, and need no memory of their own.
#[derive(Drop)]
pub struct KeyText {
    bytes: SmallVec<u8, 32>,
}

impl Model for KeyText {
    ghost use Rattle.std.specs.Prelude.{List, ℕ};

    ghost Value = { List ℕ };

    ghost view = { λ text. text.bytes.items };
}

impl KeyText {
    /// The key of these bytes. It allocates nothing.
    pub fn new(bytes: Vec<u8>) -> Self
        ensures { result ≡ bytes.items }
    {
        KeyText {
            bytes: SmallVec::from_vec(bytes),
        }
    }

    /// The key of a copy of these bytes. It allocates where they are more than 32. The only error is out of memory.
    pub fn copied_from(alloc: Global, bytes: &[u8]) -> Result<KeyText, AllocError>
        ensures exact { IfOk result (λ text. text ≡ bytes.now) }
        ensures in_place { length bytes.now ≤ 32 → IsOk result }
    {
        Ok(KeyText {
            bytes: SmallVec::from_slice(alloc, bytes)?,
        })
    }

    /// The bytes of the key.
    pub fn as_bytes(&self) -> &[u8]
        ensures { result.now ≡ self.now }
    {
        self.bytes.as_slice()
    }
}

impl Clone for KeyText {
    ghost is_clone = { λ text copy. copy ≡ text };

    ghost is_infallible = { λ text. length text ≤ 32 };

    fn clone(&self) -> Result<KeyText, AllocError> {
        KeyText::copied_from(*self.bytes.allocator(), self.as_bytes())
    }
}

impl PartialEq for KeyText {
    ghost eq = { pointwise nat_eq };

    ghost laws = { partial_equiv_from_equiv nat_list_eq_equiv };

    fn eq(&self, other: &KeyText) -> bool {
        self.as_bytes() == other.as_bytes()
    }
}

impl Eq for KeyText {
    ghost laws = { nat_list_eq_equiv };
}

/// The bytes go to the hasher in one call. What follows them in a name has one length, so no two names are fed alike.
impl Hash for KeyText {
    ghost hash_input = { λ bytes. bytes ∷ [] };

    ghost respects_eq = { λ x y same. ap (λ bytes. bytes ∷ []) ((bytes_decides x y).0 same) };

    fn hash<H: Hasher>(&self, state: &mut H) {
        state.write(self.as_bytes());
    }
}

impl fmt::Debug for KeyText {
    fn fmt<W: fmt::Write>(&self, f: &mut fmt::Formatter<W>) -> fmt::Result {
        for byte in self.as_bytes() {
            f.write_char(char::from(*byte))?;
        }
        Ok(())
    }
}
