ghost use Rattle.std.specs.Prelude.{◌≡◌, ◌≤◌, length, true};
ghost use Rattle.lb_types.specs.Names.{name_of, is_name, is_lawful, is_dash, is_name_byte};
ghost use Rattle.std.specs.Prelude.{nat_eq};
ghost use Rattle.std.specs.List.{list_all};
ghost use Rattle.std.specs.Hash as fed;
ghost use Rattle.std.specs.Cmp.Lexicographic.{pointwise, nat_list_eq_equiv};
ghost use Rattle.std.specs.Cmp.{partial_equiv_from_equiv};
ghost use Rattle.std.specs.Cmp.Rules.{hashing};
ghost use Rattle.std.proofs.Common.{rules};
ghost use Rattle.lb_types.specs.NameFields.{padded};

use crate::MAX_NAME_BYTES;
use std::fmt;
use std::hash::{Hash, Hasher};
use std::marker::Model;
use thiserror::Error;

/// Why some bytes are no name. The first of these that holds is reported.
#[derive(Clone, Copy, Debug, PartialEq, Eq, Hash, Error)]
pub enum NameFault {
    /// There is no byte.
    #[error("a name has at least one byte")]
    Empty,
    /// There are more than 64 bytes.
    #[error("a name has at most 64 bytes")]
    TooLong,
    /// A byte is no letter, digit, `-`, `_`, `.` or `:`, or the name is `-` alone.
    #[error("a name has letters, digits, `-`, `_`, `.` and `:`, and is not `-`")]
    BadByte,
}

impl NameFault {
    ghost use Rattle.std.specs.Prelude.{◌≡◌};
    ghost use Rattle.lb_types.specs.Names.{number_of};

    /// The number of the fault in answers to operators.
    pub fn number(self) -> u16
        ensures { result ≡ number_of self }
    {
        match self {
            NameFault::Empty => 1,
            NameFault::TooLong => 2,
            NameFault::BadByte => 3,
        }
    }
}

/// A name of a server, a backend and the like: 1 to 64 bytes, each a letter, a digit, `-`, `_`, `.` or `:`, and not
/// `-` alone. It holds its bytes itself and allocates nothing.
#[derive(Clone, Copy)]
pub struct Name {
    bytes: [u8; MAX_NAME_BYTES],
    len: usize,
}

impl Model for Name {
    ghost use Rattle.std.specs.Prelude.{List, ℕ, take, length};
    ghost use Rattle.lb_types.specs.NameFields.{IsNameFields, padded, padded-name, length-name};

    ghost Value = { List ℕ };

    ghost view = { λ name. take name.len name.bytes };

    ghost invariant = { λ name. IsNameFields name.bytes name.len };

    ghost inverse = { λ bytes. record { bytes = padded bytes; len = length bytes } };

    ghost inverse_ok = { λ name kept i. record {
      bytes = padded-name name.bytes name.len kept i;
      len = length-name name.bytes name.len kept i;
    } };
}

impl Name {
    /// The name that the bytes are, or the first fault that holds of them.
    pub fn read(bytes: &[u8]) -> Result<Name, NameFault>
        ensures { result ≡ name_of bytes.now }
    {
        if bytes.is_empty() {
            return Err(NameFault::Empty);
        }
        if bytes.len() > MAX_NAME_BYTES {
            return Err(NameFault::TooLong);
        }
        if !is_lawful(bytes) {
            return Err(NameFault::BadByte);
        }
        Ok(Name {
            bytes: padded(bytes),
            len: bytes.len(),
        })
    }

    /// The bytes of the name.
    pub fn as_bytes(&self) -> &[u8]
        ensures exact { result.now ≡ self.now }
        ensures name { is_name self.now ≡ true }
    {
        &self.bytes[..self.len]
    }
}

impl PartialEq for Name {
    ghost eq = { pointwise nat_eq };

    ghost laws = { partial_equiv_from_equiv nat_list_eq_equiv };

    fn eq(&self, other: &Name) -> bool {
        self.as_bytes() == other.as_bytes()
    }
}

impl Eq for Name {
    ghost laws = { nat_list_eq_equiv };
}

impl Hash for Name {
    ghost hash_input = { fed.slice fed.u8 };

    ghost respects_eq = { Prim.search (hashing, rules) };

    fn hash<H: Hasher>(&self, state: &mut H) {
        self.as_bytes().hash(state);
    }
}

impl fmt::Debug for Name {
    fn fmt<W: fmt::Write>(&self, f: &mut fmt::Formatter<W>) -> fmt::Result {
        for byte in self.as_bytes() {
            f.write_char(char::from(*byte))?;
        }
        Ok(())
    }
}

fn is_name_byte(byte: u8) -> bool
    ensures { result ≡ is_name_byte byte }
{
    byte.is_ascii_alphanumeric() || b"-_.:".contains(&byte)
}

fn is_lawful(bytes: &[u8]) -> bool
    ensures { result ≡ is_lawful bytes.now }
{
    all_name_bytes(bytes) && !is_dash(bytes)
}

fn all_name_bytes(bytes: &[u8]) -> bool
    ensures { result ≡ list_all is_name_byte bytes.now }
{
    bytes.iter().all(|byte| is_name_byte(*byte))
}

fn is_dash(bytes: &[u8]) -> bool
    ensures { result ≡ is_dash bytes.now }
{
    bytes == b"-".as_slice()
}

/// The bytes, and zeros after them up to the most bytes of a name.
fn padded(bytes: &[u8]) -> [u8; MAX_NAME_BYTES]
    requires { length bytes.now ≤ MAX_NAME_BYTES }
    ensures { result ≡ padded bytes.now }
{
    let mut all = [0; MAX_NAME_BYTES];
    for (i, byte) in bytes.iter().enumerate() {
        all[i] = *byte;
    }
    all
}
