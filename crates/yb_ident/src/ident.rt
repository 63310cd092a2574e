ghost use Rattle.std.specs.Prelude.{◌≡◌, ◌≢◌, ◌<◌, ◌^◌, IfOk, OnErr, IfSome};
ghost use Rattle.row_values.specs.Ids.{Id, IsId, id_text};
ghost use Rattle.yb_ident.specs.Layout.{layout, Reads};
ghost use Rattle.uuid.specs.Text.{parsed};

use crate::kind::Kind;
use row_values::{Bytes, Copied, NoMemory};
use std::alloc::Global;
use std::marker::Model;
use uuid::Uuid;

/// What a namespace, a table, a tablet, a schedule, a snapshot, a restoration or a clone is known
/// by: its kind and its number, which is from 1 on and below 2^48. Contracts see it as the book's.
#[derive(Clone, Copy, Debug, PartialEq, Eq, PartialOrd, Ord, Hash)]
pub struct Ident {
    pub kind: Kind,
    pub number: u64,
}

impl Model for Ident {
    ghost use Rattle.row_values.specs.Ids.{Id, IsId};
    ghost use Rattle.yb_ident.specs.Seen.{kind_of, kind_from};

    ghost Value = { Id };

    ghost view = { λ i. record { kind = kind_of i.kind; number = i.number } };

    ghost invariant = { λ i. IsId (record { kind = kind_of i.kind; number = i.number }) };

    ghost inverse = { λ v. record { kind = kind_from v.kind; number = v.number } };
}

/// A text that is no identifier's.
#[derive(Clone, Copy, Debug, PartialEq, Eq)]
pub struct IdentRefused;

impl Ident {
    /// The identifier of a text in any of the four forms of a UUID. Any other text is refused, and
    /// so is a UUID that is not laid out as an identifier.
    pub fn read(text: &str) -> Result<Ident, IdentRefused>
        ensures found { IfOk result (λ i. Reads text.now i) }
        ensures only { (i : Id) → Reads text.now i → result ≡ Ok i }
        ensures refused { OnErr result ((i : Id) → IsId i → parsed text.now ≢ Some (layout i)) }
    {
        let Ok(id) = Uuid::parse_str(text) else {
            return Err(IdentRefused);
        };
        match of_bytes(id.into_bytes()) {
            Some(id) => Ok(id),
            None => Err(IdentRefused),
        }
    }

    /// The text with hyphens and lower-case digits, from which the identifier is read back.
    pub fn text(self, alloc: Global) -> Result<Bytes, NoMemory>
        ensures exact { IfOk result (λ text. text ≡ id_text self) }
        ensures read_back { IfOk result (λ text. Reads text self) }
    {
        let id = Uuid::from_bytes(self.bytes());
        let mut buffer = Uuid::encode_buffer();
        let text = String::from_str(alloc, id.hyphenated().encode_lower(&mut buffer))?;
        Ok(Bytes::from_vec(text.into_bytes()))
    }

    /// The sixteen bytes of the identifier.
    pub fn bytes(self) -> [u8; 16]
        ensures exact { result ≡ layout self }
    {
        let n = self.number.to_be_bytes();
        let kind = self.kind.number();
        [
            0, 0, 0, kind, 0, 0, 64, 0, 128, 0, n[2], n[3], n[4], n[5], n[6], n[7],
        ]
    }
}

// The identifier that lies in these bytes.
fn of_bytes(bytes: [u8; 16]) -> Option<Ident>
    ensures found { IfSome result (λ i. bytes ≡ layout i) }
    ensures only { (i : Id) → IsId i → bytes ≡ layout i → result ≡ Some i }
{
    let number = u64::from_be_bytes([
        0, 0, bytes[10], bytes[11], bytes[12], bytes[13], bytes[14], bytes[15],
    ]);
    if number < 1 || number >= 1 << 48 {
        return None;
    }
    let Some(kind) = Kind::from_number(bytes[3]) else {
        return None;
    };
    let id = Ident { kind, number };
    if id.bytes() == bytes { Some(id) } else { None }
}

impl Copied for Ident {
    fn copy(&self) -> Result<Ident, NoMemory> {
        Ok(*self)
    }
}
