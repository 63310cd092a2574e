//! Identifiers of namespaces, tables, tablets, schedules, snapshots, restorations and clones.
//!
//! An identifier is printed as a UUID. Its layout is this project's own: the first four bytes are
//! the kind, the last six the number, both with the highest byte first, and the six between them
//! are those of `0000-4000-8000`. So tablet 9 is `00000003-0000-4000-8000-000000000009`. Read is
//! each text form of a UUID, in either case: with hyphens, without, in braces, and as a URN.
#![tactic(auto)]

mod ident;
mod kind;

pub use ident::{Ident, IdentRefused};
pub use kind::Kind;

#[cfg(test)]
mod tests {
    use super::*;
    use row_values::Copied;
    use std::test::Fail;

    // The number of a kind times 1000, and the number; 0 where the text is refused.
    fn told(text: &str) -> u64 {
        match Ident::read(text) {
            Ok(id) if id.number < 1000 => u64::from(id.kind.number()) * 1000 + id.number,
            Ok(_) => 1,
            Err(_) => 0,
        }
    }

    #[test]
    fn four_forms_are_read_and_other_layouts_refused(rt: HostRuntime) -> Result<(), Fail> {
        let alloc = rt.alloc();
        for (text, want) in [
            ("00000004-0000-4000-8000-000000000001", 4001u64),
            ("00000004000040008000000000000001", 4001),
            ("{00000007-0000-4000-8000-0000000000ff}", 7255),
            ("urn:uuid:00000001-0000-4000-8000-0000000000FF", 1255),
            ("00000006-0000-4000-8000-ffffffffffff", 1),
            ("00000009-0000-4000-8000-000000000001", 0),
            ("00000000-0000-4000-8000-000000000001", 0),
            ("00000004-0000-4000-8000-000000000000", 0),
            ("00000004-0000-1000-8000-000000000001", 0),
            ("00000004-0000-4000-8001-000000000001", 0),
            ("01000004-0000-4000-8000-000000000001", 0),
            ("00000004-0000-4000-8000-00000000001", 0),
            ("S1", 0),
            ("", 0),
        ] {
            assert_eq!(rt; told(text), want, "text {text}");
        }
        for (kind, number, text) in [
            (Kind::Schedule, 1u64, "00000004-0000-4000-8000-000000000001"),
            (Kind::Clone, 43981, "00000007-0000-4000-8000-00000000abcd"),
        ] {
            let id = Ident { kind, number };
            let written = id.copy()?.text(alloc)?;
            assert_eq!(rt; written.as_slice(), text.as_bytes(), "number {number}");
        }
        assert!(rt; Kind::Tablet.copy()? == Kind::Tablet);
        Ok(())
    }
}
