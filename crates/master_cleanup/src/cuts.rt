//! Up to which stamps a prune takes the records of namespaces.
ghost use Rattle.std.specs.Prelude.{◌≡◌, ◌-◌, min, IfOk, OnOk};
ghost use Rattle.model.specs.Cleanup as book;
ghost use Rattle.master_part.specs.Going.{cut_of};
ghost use Rattle.master_cleanup.specs.Cuts as cuts;
ghost use Rattle.master_cleanup.specs.Cuts.{has_cut, add_cut, with_namespaces, with_tables};

use crate::floors::floor_of;
use catalog_core::{NamespaceRecord, TableRecord};
use hybrid_time::HybridTime;
use master_part::{Cut, MasterPart};
use row_values::{NoMemory, Records};
use yb_ident::Ident;

// The ticks of 900 seconds.
const HISTORY_RETENTION: u64 = 900 * 1_000_000 * 4096;

/// Up to which stamps a prune takes the records of the namespaces that have some.
pub fn cuts_of(master: &MasterPart, stamp: HybridTime) -> Result<Records<Cut>, NoMemory>
    ensures exact { IfOk result (λ made. made ≡ cuts.cuts_of master.now.master stamp) }
{
    let mut made = Records::new(master.alloc());
    add_namespaces(master, master.catalog().namespaces(), stamp, &mut made)?;
    add_tables(master, master.catalog().tables(), stamp, &mut made)?;
    Ok(made)
}

fn add_namespaces(
    master: &MasterPart,
    namespaces: &[NamespaceRecord],
    stamp: HybridTime,
    made: &mut Records<Cut>,
) -> Result<(), NoMemory>
    ensures added { OnOk result (made.new ≡ with_namespaces master.now.master stamp namespaces.now made.old) }
{
    for namespace in namespaces {
        add_cut(master, &space_id(namespace), stamp, made)?;
    }
    Ok(())
}

fn add_tables(
    master: &MasterPart,
    tables: &[TableRecord],
    stamp: HybridTime,
    made: &mut Records<Cut>,
) -> Result<(), NoMemory>
    ensures added { OnOk result (made.new ≡ with_tables master.now.master stamp tables.now made.old) }
{
    for table in tables {
        add_cut(master, &table_space(table), stamp, made)?;
    }
    Ok(())
}

// The cut of a namespace is added if it isn't there yet.
fn add_cut(
    master: &MasterPart,
    namespace: &Ident,
    stamp: HybridTime,
    made: &mut Records<Cut>,
) -> Result<(), NoMemory>
    ensures added { OnOk result (made.new ≡ add_cut master.now.master stamp namespace.now made.old) }
{
    if has_cut(made.as_slice(), namespace) {
        return Ok(());
    }
    made.push(Cut {
        namespace: *namespace,
        to: prune_to(master, namespace, stamp),
    })
}

// Up to which stamp a prune takes the records of a namespace.
fn prune_to(master: &MasterPart, namespace: &Ident, stamp: HybridTime) -> HybridTime
    ensures exact { result ≡ book.prune_to master.now.master namespace.now stamp }
{
    floor_of(master, namespace, stamp).earlier_of(stamp.minus(HISTORY_RETENTION))
}

fn has_cut(made: &[Cut], namespace: &Ident) -> bool
    ensures exact { result ≡ has_cut made.now namespace.now }
{
    for cut in made {
        if cut.namespace == *namespace {
            return true;
        }
    }
    false
}

/// The cut of a namespace; 0 where it has none.
pub fn cut_in(made: &[Cut], namespace: &Ident) -> HybridTime
    ensures exact { result ≡ cut_of made.now namespace.now }
{
    for cut in made {
        if cut.namespace == *namespace {
            return cut.to;
        }
    }
    HybridTime { value: 0 }
}

/// The identifier of a namespace.
pub fn space_id(namespace: &NamespaceRecord) -> Ident
    ensures exact { result ≡ namespace.now.id }
{
    namespace.id
}

/// The namespace of a table.
pub fn table_space(table: &TableRecord) -> Ident
    ensures exact { result ≡ table.now.namespace }
{
    table.namespace
}
