ghost use Rattle.std.specs.Prelude.{◌≡◌};
ghost use Rattle.row_values.specs.Schema.{is_of_kind};
ghost use Rattle.table_schema.specs.Seen.{column_kind_of};

use row_values::{Copied, NoMemory, Value};

/// What a column holds: 64-bit signed numbers or texts. Each column takes null besides.
#[derive(Clone, Copy, Debug, PartialEq, Eq, PartialOrd, Ord, Hash)]
pub enum Kind {
    Int,
    Text,
}

impl Kind {
    /// Whether a column of this kind takes the value.
    pub fn takes(self, value: &Value) -> bool
        ensures exact { result ≡ is_of_kind (column_kind_of self) value.now }
    {
        match (self, value) {
            (_, Value::Null) => true,
            (Kind::Int, Value::Int(_)) => true,
            (Kind::Text, Value::Text(_)) => true,
            _ => false,
        }
    }
}

impl Copied for Kind {
    fn copy(&self) -> Result<Kind, NoMemory> {
        Ok(*self)
    }
}
