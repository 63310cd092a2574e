ghost use Rattle.std.specs.Prelude.{◌≡◌, [], ◌∷◌, ◌++◌, length, slice_get, OnOk, OnErr};
ghost use Rattle.std.specs.Option.{option_copied};

use crate::copied::Copied;
use crate::no_memory::NoMemory;
use crate::records::Records;
use crate::value::Bytes;
use std::alloc::Global;
use std::marker::Model;

/// The name of a namespace, a table or a column, 1 to 32 bytes in a running cluster, which contracts
/// see as its bytes.
#[derive(Debug, Drop, PartialEq, Eq, PartialOrd, Ord, Hash)]
pub struct Name {
    bytes: Bytes,
}

impl Model for Name {
    ghost use Rattle.std.specs.Prelude.{List, ℕ};

    ghost Value = { List ℕ };

    ghost view = { λ text. text.bytes };

    ghost inverse = { λ bytes. record { bytes = bytes } };
}

impl Name {
    /// The empty one, which takes no memory.
    pub fn new(alloc: Global) -> Name
        ensures empty { result ≡ [] }
    {
        Name {
            bytes: Records::new(alloc),
        }
    }

    /// That of these bytes, without taking memory.
    pub fn from_bytes(bytes: Bytes) -> Name
        ensures same { result ≡ bytes }
    {
        Name { bytes }
    }

    /// The number of bytes.
    pub fn len(&self) -> u64
        ensures count { result ≡ length self.now }
    {
        self.bytes.len()
    }

    /// The byte with this number, counted from 0; `None` from `len` on.
    pub fn get(&self, i: u64) -> Option<&u8>
        ensures item { option_copied result ≡ slice_get self.now i }
    {
        self.bytes.get(i)
    }

    /// Puts a byte at the end.
    pub fn push(&mut self, byte: u8) -> Result<(), NoMemory>
        ensures pushed { OnOk result (self.new ≡ self.old ++ byte ∷ []) }
        ensures kept { OnErr result (self.new ≡ self.old) }
    {
        self.bytes.push(byte)
    }

    /// The bytes, to be read.
    pub fn as_slice(&self) -> &[u8]
        ensures same { result.now ≡ self.now }
    {
        self.bytes.as_slice()
    }
}

impl Copied for Name {
    fn copy(&self) -> Result<Name, NoMemory> {
        Ok(Name {
            bytes: self.bytes.copy()?,
        })
    }
}
