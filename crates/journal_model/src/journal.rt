ghost use Rattle.std.specs.Prelude.{◌≡◌, ◌∷◌, [], IfOk, OnOk, OnErr};
ghost use Rattle.std.specs.Option.{option_copied};
ghost use Rattle.model.specs.Journal as book;

use crate::change::Change;
use crate::names::namespace_at;
use crate::rows::row_at;
use crate::tables::table_at;
use crate::view::TableView;
use hybrid_time::HybridTime;
use row_values::{Key, Name, NoMemory, Row};
use std::alloc::Global;
use std::marker::Model;
use yb_ident::Ident;

/// The changes of a history. Contracts see the book's journal, the newest first.
#[derive(Debug, Drop)]
pub struct Journal {
    changes: Vec<Change>,
}

impl Model for Journal {
    ghost use Rattle.std.specs.Prelude.{List};
    ghost use Rattle.model.specs.Journal.{Change};

    ghost Value = { List Change };

    ghost view = { λ j. j.changes.items };
}

impl Journal {
    /// No changes. It takes no memory.
    pub fn new(alloc: Global) -> Journal
        ensures { result ≡ [] }
    {
        Journal {
            changes: Vec::new(alloc),
        }
    }

    /// One change more. It moves all others.
    pub fn add(&mut self, change: Change) -> Result<(), NoMemory>
        ensures added { OnOk result (self.new ≡ change ∷ self.old) }
        ensures kept { OnErr result (self.new ≡ self.old) }
    {
        self.changes.insert(0, change)?;
        Ok(())
    }

    /// The changes, the newest first.
    pub fn changes(&self) -> &[Change]
        ensures { result.now ≡ self.now }
    {
        self.changes.as_slice()
    }

    /// The name of a namespace in the view at a time; none where it is not there.
    pub fn namespace_at(&self, x: HybridTime, id: &Ident) -> Option<&Name>
        ensures { option_copied result ≡ book.namespace_at self.now x id.now }
    {
        namespace_at(self.changes.as_slice(), x, id)
    }

    /// A table in the view at a time; none where it is not there.
    pub fn table_at(&self, x: HybridTime, id: &Ident) -> Result<Option<TableView>, NoMemory>
        ensures exact { IfOk result (λ t. t ≡ book.table_at self.now x id.now) }
    {
        table_at(self.changes.as_slice(), x, id)
    }

    /// The row of a key in the view at a time.
    pub fn row_at(&self, x: HybridTime, table: &Ident, key: &Key) -> Result<Row, NoMemory>
        ensures exact { IfOk result (λ row. row ≡ book.row_at self.now x table.now key.now) }
    {
        row_at(
            *self.changes.allocator(),
            self.changes.as_slice(),
            x,
            table,
            key,
        )
    }
}
