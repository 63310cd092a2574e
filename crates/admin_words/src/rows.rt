ghost use Rattle.std.specs.Prelude.{◌≡◌, ◌++◌, codes, OnOk, OnErr};
ghost use Rattle.model_runs.specs.Texts.{word, value_text, cell_words, row_parts};
ghost use Rattle.admin_words.specs.Growing.{Begins};

use crate::columns::ColumnNames;
use crate::text::Text;
use row_values::{Cell, KeyedRow, NoMemory};

#[tactic(auto, using(std::proofs::lemmas::List::append_assoc))]
impl Text {
    // `<column>=<value>` behind a space.
    fn cell_word<N: ColumnNames>(&mut self, names: &N, cell: &Cell) -> Result<(), NoMemory>
        ensures added { OnOk result (self.new ≡ self.old ++ word (N.name_of names.now cell.now.column ++ codes "=" ++ value_text cell.now.value)) }
        ensures kept { OnErr result (Begins self.old self.new) }
    {
        self.add(b" ")?;
        names.tell(cell.column, self)?;
        self.add(b"=")?;
        self.value(&cell.value)
    }

    /// Cells, each as `<column>=<value>` behind a space.
    pub fn cell_words<N: ColumnNames>(&mut self, names: &N, cells: &[Cell]) -> Result<(), NoMemory>
        ensures added { OnOk result (self.new ≡ self.old ++ cell_words (N.name_of names.now) cells.now) }
        ensures kept { OnErr result (Begins self.old self.new) }
    {
        for cell in cells {
            self.cell_word(names, cell)?;
        }
        Ok(())
    }

    // The key and the cells of a row.
    fn row_part<N: ColumnNames>(&mut self, names: &N, row: &KeyedRow) -> Result<(), NoMemory>
        ensures added { OnOk result (self.new ≡ self.old ++ (row.now.key ++ cell_words (N.name_of names.now) row.now.row.cells)) }
        ensures kept { OnErr result (Begins self.old self.new) }
    {
        self.add(row.key.as_slice())?;
        self.cell_words(names, row.row.cells.as_slice())
    }

    /// Rows by key, each behind a gap.
    pub fn row_parts<N: ColumnNames>(
        &mut self,
        gap: &[u8],
        names: &N,
        rows: &[KeyedRow],
    ) -> Result<(), NoMemory>
        ensures added { OnOk result (self.new ≡ self.old ++ row_parts gap.now (N.name_of names.now) rows.now) }
        ensures kept { OnErr result (Begins self.old self.new) }
    {
        for row in rows {
            self.add(gap)?;
            self.row_part(names, row)?;
        }
        Ok(())
    }
}
