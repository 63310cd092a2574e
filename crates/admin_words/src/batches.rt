ghost use Rattle.std.specs.Prelude.{◌≡◌, ◌++◌, codes, OnOk, OnErr};
ghost use Rattle.model_runs.specs.Texts.{value_text};
ghost use Rattle.model_runs.specs.HistoryTexts.{op_words, batch_text, named_op_words, named_batch_text};
ghost use Rattle.commands.specs.NamedOps.{named_op_of};
ghost use Rattle.admin_words.specs.Growing.{Begins};

use crate::columns::ById;
use crate::text::Text;
use crate::told::Told;
use commands::{NamedCell, NamedItem, NamedOp};
use row_values::{Item, NoMemory, RowOp};

#[tactic(auto, using(std::proofs::lemmas::List::append_assoc))]
impl Text {
    // The cells of an upsert, by the ids of their columns, or ` delete`.
    fn op_words(&mut self, op: &RowOp) -> Result<(), NoMemory>
        ensures added { OnOk result (self.new ≡ self.old ++ op_words op.now) }
        ensures kept { OnErr result (Begins self.old self.new) }
    {
        match op {
            RowOp::Upsert(cells) => self.cell_words(&ById, cells.as_slice()),
            RowOp::Delete => self.add(b" delete"),
        }
    }

    // The cells of an upsert, by the names of their columns, or ` delete`.
    fn named_op_words(&mut self, op: &NamedOp) -> Result<(), NoMemory>
        ensures added { OnOk result (self.new ≡ self.old ++ named_op_words (named_op_of op.now)) }
        ensures kept { OnErr result (Begins self.old self.new) }
    {
        match op {
            NamedOp::Upsert(cells) => self.each(b" ", cells.as_slice()),
            NamedOp::Delete => self.add(b" delete"),
        }
    }

    /// The items of a write.
    pub fn batch(&mut self, batch: &[Item]) -> Result<(), NoMemory>
        ensures added { OnOk result (self.new ≡ self.old ++ batch_text batch.now) }
        ensures kept { OnErr result (Begins self.old self.new) }
    {
        self.joined(b" / ", batch)
    }

    /// The items of a look.
    pub fn named_batch(&mut self, batch: &[NamedItem]) -> Result<(), NoMemory>
        ensures added { OnOk result (self.new ≡ self.old ++ named_batch_text batch.now) }
        ensures kept { OnErr result (Begins self.old self.new) }
    {
        self.joined(b" / ", batch)
    }
}

#[tactic(auto, using(std::proofs::lemmas::List::append_assoc))]
impl Told for Item {
    ghost told = { λ i. i.key ++ op_words i.op };

    fn tell(&self, text: &mut Text) -> Result<(), NoMemory> {
        text.add(self.key.as_slice())?;
        text.op_words(&self.op)
    }
}

#[tactic(auto, using(std::proofs::lemmas::List::append_assoc))]
impl Told for NamedCell {
    ghost told = { λ c. c.column ++ codes "=" ++ value_text c.value };

    fn tell(&self, text: &mut Text) -> Result<(), NoMemory> {
        text.add(self.column.as_slice())?;
        text.add(b"=")?;
        text.value(&self.value)
    }
}

#[tactic(auto, using(std::proofs::lemmas::List::append_assoc))]
impl Told for NamedItem {
    ghost told = { λ i. i.key ++ named_op_words i.op };

    fn tell(&self, text: &mut Text) -> Result<(), NoMemory> {
        text.add(self.key.as_slice())?;
        text.named_op_words(&self.op)
    }
}
