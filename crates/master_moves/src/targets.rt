//! What a clone's targets are: their tables, and the rows that their tablets copy.
ghost use Rattle.std.specs.Prelude.{◌≡◌, ◌≤◌, ◌++◌, [], ◌∷◌, false, IfOk, OnOk};
ghost use Rattle.std.specs.Option.{option_map_or};
ghost use Rattle.row_values.specs.Ids.{Id};
ghost use Rattle.model.specs.Tablets.{Copy};
ghost use Rattle.model.specs.Moves as moves;
ghost use Rattle.model.specs.Restored as book;
ghost use Rattle.model.specs.Restored.{newest, record_at};
ghost use Rattle.master_part.specs.Acts.{IsLawful};

use crate::switching::newest;
use catalog_core::{Catalog, TableRecord};
use clone_coord::{CloneRecord, IdPair, TabletPair};
use hybrid_time::HybridTime;
use master_part::MasterPart;
use row_values::{Copied, NoMemory, Records};
use std::alloc::Global;
use table_schema::Schema;
use tablet_inbox::{Body, Listed};
use yb_ident::Ident;

/// The target tablets are to copy their sources' rows of a snapshot.
pub(crate) fn copies(
    alloc: Global,
    snapshot: Ident,
    to: HybridTime,
    stamp: HybridTime,
    pairs: &[TabletPair],
) -> Result<Records<Listed>, NoMemory>
    ensures exact { IfOk result (λ listed. listed ≡ moves.copies snapshot to stamp pairs.now) }
{
    let mut listed = Records::new(alloc);
    for pair in pairs {
        listed.push(copy_to(pair, snapshot, to, stamp))?;
    }
    Ok(listed)
}

// A target tablet is to copy its source's rows.
fn copy_to(pair: &TabletPair, snapshot: Ident, to: HybridTime, stamp: HybridTime) -> Listed
    ensures exact { result ≡ record {
      tablet = pair.now.target;
      slot = pair.now.slot;
      body = Copy pair.now.source_slot snapshot to stamp pair.now.table pair.now.low pair.now.high 1;
      acked = false;
    } }
{
    Listed {
        tablet: pair.target,
        slot: pair.slot,
        body: Body::Copy {
            source: pair.source_slot,
            snapshot,
            to,
            stamp,
            table: pair.table,
            range: pair.range,
            version: 1,
        },
        acked: false,
    }
}

/// The tables of a clone's source at its time, in its target from a stamp on.
pub(crate) fn cloned_tables(
    master: &MasterPart,
    clone: &CloneRecord,
    stamp: HybridTime,
) -> Result<Records<TableRecord>, NoMemory>
    requires lawful { IsLawful master.now.master }
    ensures exact { IfOk result (λ tables. tables ≡ book.cloned_tables clone.now.tables master.now.master.catalog.tables clone.now.target_id clone.now.to stamp) }
{
    let target = target_of(clone);
    let to = time_of(clone);
    let pairs = pairs_of(clone);
    let mut tables = Records::new(master.alloc());
    for pair in pairs {
        put_cloned(master, pair, target, to, stamp, &mut tables)?;
    }
    Ok(tables)
}

// Puts the table of a pair's source at a time behind the others, if there is one.
#[tactic(auto, using(crate::proofs::Clonings::goes_on_there))]
fn put_cloned(
    master: &MasterPart,
    pair: &IdPair,
    target: Ident,
    to: HybridTime,
    stamp: HybridTime,
    tables: &mut Records<TableRecord>,
) -> Result<(), NoMemory>
    requires lawful { IsLawful master.now.master }
    ensures put { OnOk result (tables.new ≡ tables.old ++ option_map_or (λ r. book.cloned master.now.master.catalog.tables target pair.now.target stamp r ∷ []) (record_at master.now.master.catalog.tables pair.now.source to) []) }
{
    if let Some(found) = master.catalog().record_at(&pair.source, to) {
        tables.push(cloned(master.catalog(), found, target, pair.target, stamp)?)?;
    }
    Ok(())
}

// A table as it was, under another identifier in another namespace.
fn cloned(
    catalog: &Catalog,
    table: &TableRecord,
    target: Ident,
    id: Ident,
    stamp: HybridTime,
) -> Result<TableRecord, NoMemory>
    requires next { table.now.schema.next ≤ (newest catalog.now.catalog.tables table.now).next }
    ensures exact { IfOk result (λ made. made ≡ book.cloned catalog.now.catalog.tables target id stamp table.now) }
{
    let newest = newest(catalog, table);
    let schema = Schema {
        version: 1,
        next: newest.next,
        columns: table.schema.columns.copy()?,
    };
    Ok(TableRecord {
        id,
        namespace: target,
        name: table.name.copy()?,
        schema,
        from: stamp,
        to: None,
    })
}

fn target_of(clone: &CloneRecord) -> Ident
    ensures exact { result ≡ clone.now.target_id }
{
    clone.target_id
}

fn time_of(clone: &CloneRecord) -> HybridTime
    ensures exact { result ≡ clone.now.to }
{
    clone.to
}

fn pairs_of(clone: &CloneRecord) -> &[IdPair]
    ensures exact { result.now ≡ clone.now.tables }
{
    clone.tables.as_slice()
}
