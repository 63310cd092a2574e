//! The columns of a table, by their ids.
//!
//! The schema version counter, the ids and the limit of 16 columns are this project's own rules. A
//! version begins at 1 and rises with each column that is added or dropped. A column's id is one
//! more than the greatest that was ever given to its table, so that the cells of a dropped column
//! never come back under another name.
#![tactic(auto)]

mod column;
mod kind;
mod schema;

pub use column::{Column, NewColumn};
pub use kind::Kind;
pub use schema::{Schema, SchemaRefused, ids_never_return};

#[cfg(test)]
mod tests {
    use super::*;
    use row_values::{Bytes, Copied, Name, NoMemory, Value};
    use std::alloc::Global;
    use std::test::Fail;

    fn name(alloc: Global, letter: u8) -> Result<Name, NoMemory> {
        let mut name = Name::new(alloc);
        name.push(letter)?;
        Ok(name)
    }

    // A table with the column `v`.
    fn of_one_column(alloc: Global, kind: Kind) -> Result<Schema, NoMemory> {
        let column = NewColumn {
            name: name(alloc, b'v')?,
            kind,
        };
        Schema::of_columns(alloc, &[column.copy()?])
    }

    // The id, or a number above 100 for a refusal.
    fn told(answer: Result<u32, SchemaRefused>) -> u32 {
        match answer {
            Ok(id) => id,
            Err(SchemaRefused::NameTaken) => 101,
            Err(SchemaRefused::TooMany { limit }) => limit.saturating_add(200),
            Err(SchemaRefused::UnknownColumn) => 102,
            Err(SchemaRefused::WrongKind) => 103,
            Err(SchemaRefused::NoMemory) => 104,
        }
    }

    fn added(alloc: Global, schema: &mut Schema, letter: u8, kind: Kind) -> Result<u32, NoMemory> {
        if schema.version > 99 || schema.next > 99 {
            return Err(NoMemory);
        }
        Ok(told(schema.add(name(alloc, letter)?, kind)))
    }

    fn removed(alloc: Global, schema: &mut Schema, letter: u8) -> Result<u32, NoMemory> {
        if schema.version > 99 {
            return Err(NoMemory);
        }
        Ok(told(schema.remove(&name(alloc, letter)?)))
    }

    // What the column `v` of this kind answers to null, to a number and to a text.
    fn fitting(alloc: Global, kind: Kind, letter: u8, value: u8) -> Result<u32, NoMemory> {
        let schema = of_one_column(alloc, kind)?;
        let value = match value {
            0 => Value::Null,
            1 => Value::Int(-7),
            _ => Value::Text(Bytes::new(alloc)),
        };
        Ok(told(schema.fits(&name(alloc, letter)?, &value)))
    }

    #[test]
    fn an_id_is_never_given_again(rt: HostRuntime) -> Result<(), Fail> {
        let alloc = rt.alloc();
        let mut schema = of_one_column(alloc, Kind::Int)?;
        assert_eq!(rt; added(alloc, &mut schema, b'w', Kind::Text)?, 2);
        assert_eq!(rt; removed(alloc, &mut schema, b'v')?, 1);
        assert_eq!(rt; added(alloc, &mut schema, b'v', Kind::Int)?, 3);
        assert_eq!(rt; removed(alloc, &mut schema, b'z')?, 102);
        assert_eq!(rt; schema.version, 4);
        for (kind, letter, value, want) in [
            (Kind::Int, b'v', 0u8, 1u32),
            (Kind::Int, b'v', 1, 1),
            (Kind::Int, b'v', 2, 103),
            (Kind::Text, b'v', 0, 1),
            (Kind::Text, b'v', 1, 103),
            (Kind::Text, b'v', 2, 1),
            (Kind::Text, b'z', 1, 102),
        ] {
            assert_eq!(rt; fitting(alloc, kind, letter, value)?, want, "value {value}");
        }
        Ok(())
    }

    #[test]
    fn a_taken_name_is_told_before_the_limit(rt: HostRuntime) -> Result<(), Fail> {
        let alloc = rt.alloc();
        let mut schema = of_one_column(alloc, Kind::Int.copy()?)?;
        for letter in b'a'..=b'o' {
            assert!(rt; added(alloc, &mut schema, letter, Kind::Int)? < 17);
        }
        let mut full = schema.copy()?;
        assert_eq!(rt; added(alloc, &mut full, b'p', Kind::Int)?, 216);
        assert_eq!(rt; added(alloc, &mut full, b'o', Kind::Int)?, 101);
        assert_eq!(rt; full.next, 17);
        Ok(())
    }
}
