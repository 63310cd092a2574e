ghost use Rattle.std.specs.Prelude.{◌≡◌, ◌++◌, ℕ, List, codes, OnOk, OnErr};
ghost use Rattle.std.specs.Fmt.{decimal};
ghost use Rattle.model_runs.specs.Texts.{name_in, column_kind_text};
ghost use Rattle.table_schema.specs.Seen.{column_kind_of};
ghost use Rattle.admin_words.specs.Growing.{Begins};

use crate::text::Text;
use crate::told::Told;
use row_values::NoMemory;
use table_schema::{Column, Kind, NewColumn};

/// How the columns of cells are told.
pub trait ColumnNames {
    ghost name_of: { Self → ℕ → List ℕ };

    /// Puts what the column with this id is told by at the end of a text.
    fn tell(&self, id: u32, text: &mut Text) -> Result<(), NoMemory>
        ensures added { OnOk result (text.new ≡ text.old ++ name_of self.now id) }
        ensures kept { OnErr result (Begins text.old text.new) };
}

/// Columns are told by their ids.
#[derive(Clone, Copy, Debug)]
pub struct ById;

/// Columns are told by their names; one that is not among these has none.
#[derive(Clone, Copy, Debug)]
pub struct ByName<'a> {
    pub columns: &'a [Column],
}

#[tactic(auto, using(std::proofs::lemmas::List::append_assoc))]
impl ColumnNames for ById {
    ghost name_of = { λ names id. decimal id };

    fn tell(&self, id: u32, text: &mut Text) -> Result<(), NoMemory> {
        text.number(id)
    }
}

impl<'a> ColumnNames for ByName<'a> {
    ghost name_of = { λ names id. name_in names.columns.now id };

    fn tell(&self, id: u32, text: &mut Text) -> Result<(), NoMemory> {
        for column in self.columns {
            if column.id == id {
                return text.add(column.name.as_slice());
            }
        }
        Ok(())
    }
}

#[tactic(auto, using(std::proofs::lemmas::List::append_assoc))]
impl Text {
    /// What a column holds.
    pub fn column_kind(&mut self, kind: Kind) -> Result<(), NoMemory>
        ensures added { OnOk result (self.new ≡ self.old ++ column_kind_text (column_kind_of kind)) }
        ensures kept { OnErr result (Begins self.old self.new) }
    {
        match kind {
            Kind::Int => self.add(b"int"),
            Kind::Text => self.add(b"text"),
        }
    }
}

#[tactic(auto, using(std::proofs::lemmas::List::append_assoc))]
impl Told for Column {
    ghost told = { λ c. decimal c.id ++ codes ":" ++ c.name ++ codes ":" ++ column_kind_text c.kind };

    fn tell(&self, text: &mut Text) -> Result<(), NoMemory> {
        text.number(self.id)?;
        text.add(b":")?;
        text.add(self.name.as_slice())?;
        text.add(b":")?;
        text.column_kind(self.kind)
    }
}

#[tactic(auto, using(std::proofs::lemmas::List::append_assoc))]
impl Told for NewColumn {
    ghost told = { λ c. c.name ++ codes ":" ++ column_kind_text c.kind };

    fn tell(&self, text: &mut Text) -> Result<(), NoMemory> {
        text.add(self.name.as_slice())?;
        text.add(b":")?;
        text.column_kind(self.kind)
    }
}
