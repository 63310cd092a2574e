use crate::command::Command;
use crate::named::NamedItem;
use hybrid_time::HybridTime;
use row_values::{Copied, Name, NoMemory, Records};

/// What a look asks of the master. Without a time it is asked of the catalog that stands now.
#[derive(Debug, Drop, PartialEq, Eq)]
pub enum Ask {
    /// The slots that the command will touch.
    Plan(Command),
    /// The tablets of the keys of these items, and the columns.
    Keys {
        namespace: Name,
        table: Name,
        batch: Records<NamedItem>,
        at: Option<HybridTime>,
    },
    /// All tablets of a table, and its columns.
    Table {
        namespace: Name,
        table: Name,
        at: Option<HybridTime>,
    },
    /// What a coordinator does next.
    Work,
    /// What may be removed.
    Removable,
    /// The slots of known tablets.
    Present,
}

impl Copied for Ask {
    fn copy(&self) -> Result<Ask, NoMemory> {
        match self {
            Ask::Plan(command) => Ok(Ask::Plan(command.copy()?)),
            Ask::Keys {
                namespace,
                table,
                batch,
                at,
            } => Ok(Ask::Keys {
                namespace: namespace.copy()?,
                table: table.copy()?,
                batch: batch.copy()?,
                at: *at,
            }),
            Ask::Table {
                namespace,
                table,
                at,
            } => Ok(Ask::Table {
                namespace: namespace.copy()?,
                table: table.copy()?,
                at: *at,
            }),
            Ask::Work => Ok(Ask::Work),
            Ask::Removable => Ok(Ask::Removable),
            Ask::Present => Ok(Ask::Present),
        }
    }
}
