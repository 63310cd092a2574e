use hybrid_time::HybridTime;
use row_values::{Key, Name, Records, RowOp};
use std::marker::Model;
use table_schema::Column;
use yb_ident::Ident;

/// A source's table, with the one that stands for it in a clone. Contracts see it as the book's.
#[derive(Clone, Copy, Debug, PartialEq, Eq)]
pub struct TablePair {
    pub source: Ident,
    pub target: Ident,
}

impl Model for TablePair {
    ghost use Rattle.model.specs.Records.{IdPair};

    ghost Value = { IdPair };

    ghost view = { λ p. record { source = p.source; target = p.target } };

    ghost inverse = { λ v. record { source = v.source; target = v.target } };
}

/// A change of the catalog, of a row, or of a whole namespace.
#[derive(Debug, Drop)]
pub enum ChangeAct {
    NamespaceMade {
        namespace: Ident,
        name: Name,
    },
    NamespaceDropped {
        namespace: Ident,
    },
    TableMade {
        table: Ident,
        namespace: Ident,
        name: Name,
        columns: Records<Column>,
    },
    TableRenamed {
        table: Ident,
        name: Name,
    },
    TableDropped {
        table: Ident,
    },
    ColumnAdded {
        table: Ident,
        column: Column,
    },
    /// The column is named by its id.
    ColumnDropped {
        table: Ident,
        column: u32,
    },
    RowChanged {
        table: Ident,
        key: Key,
        op: RowOp,
    },
    /// The namespace is as it was at a time.
    NamespaceRestored {
        namespace: Ident,
        to: HybridTime,
    },
    /// A new namespace is as its source was at a time, its tables under ids of their own.
    NamespaceCloned {
        source: Ident,
        target: Ident,
        name: Name,
        to: HybridTime,
        tables: Records<TablePair>,
    },
}

/// A change, with the time from which on it is seen. Contracts see it as the book's.
#[derive(Debug, Drop)]
pub struct Change {
    pub stamp: HybridTime,
    pub act: ChangeAct,
}

impl Model for Change {
    ghost use Rattle.model.specs.Journal.{Change};
    ghost use Rattle.journal_model.specs.Seen.{act_of};

    ghost Value = { Change };

    ghost view = { λ c. record { stamp = c.stamp; act = act_of c.act } };
}
