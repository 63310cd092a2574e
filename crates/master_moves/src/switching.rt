//! What the switch of a restoration brings back: the tables of its time, as they go on from its point, and what each
//! tablet is to do that was active then or is now.
ghost use Rattle.std.specs.Prelude.{◌≡◌, ◌&&◌, ◌++◌, IfOk, map};
ghost use Rattle.row_values.specs.Ids.{same};
ghost use Rattle.model.specs.Times.{is_open};
ghost use Rattle.model.specs.Lists as lists;
ghost use Rattle.model.specs.Restored as book;
ghost use Rattle.model.specs.Restored.{newest, concerned, version_of};
ghost use Rattle.master_part.specs.Acts.{IsLawful};
ghost use Rattle.master_moves.specs.Switches.{GoesOn, line_with};

use catalog_core::{Catalog, TableRecord};
use catalog_tablets::{Interval, active_tablets};
use hybrid_time::HybridTime;
use master_part::{MasterPart, by_table_and_number, once, table_id};
use row_values::{Copied, NoMemory, Records};
use std::alloc::Global;
use table_schema::Schema;
use tablet_inbox::{Body, Listed};
use yb_ident::Ident;

/// The tables of a namespace at a time, current again from a point on.
pub(crate) fn tables_back(
    master: &MasterPart,
    namespace: &Ident,
    to: HybridTime,
    point: HybridTime,
) -> Result<Records<TableRecord>, NoMemory>
    requires lawful { IsLawful master.now.master }
    ensures exact { IfOk result (λ back. back ≡ book.tables_back master.now.master.catalog.tables namespace.now to point) }
{
    let alloc = master.alloc();
    let catalog = master.catalog();
    let tables = catalog.tables_at(alloc, namespace, to)?;
    let mut back = Records::new(alloc);
    for table in &tables {
        back.push(back_at(catalog, table, point)?)?;
    }
    Ok(back)
}

// A table as it was, current again from a point on, under a new version of its schema.
fn back_at(
    catalog: &Catalog,
    table: &TableRecord,
    point: HybridTime,
) -> Result<TableRecord, NoMemory>
    requires goes_on { GoesOn catalog.now.catalog.tables table.now }
    ensures exact { IfOk result (λ back. back ≡ book.back_at catalog.now.catalog.tables point table.now) }
{
    let newest = newest(catalog, table);
    let schema = Schema {
        version: newest.version + 1,
        next: newest.next,
        columns: table.schema.columns.copy()?,
    };
    Ok(TableRecord {
        id: table.id,
        namespace: table.namespace,
        name: table.name.copy()?,
        schema,
        from: point,
        to: None,
    })
}

/// The newest kept schema of the table of a record.
pub(crate) fn newest<'a>(catalog: &'a Catalog, table: &'a TableRecord) -> &'a Schema
    ensures exact { result.now ≡ newest catalog.now.catalog.tables table.now }
{
    match catalog.latest(&table_id(table)) {
        Some(schema) => schema,
        None => &table.schema,
    }
}

/// What each tablet is to do that was active at a time, or is active now: the tablets of the time take their rows of
/// then, the others are hidden. `active` are the tablets of the time, and `tables` those that are current behind it.
pub(crate) fn switch_list(
    master: &MasterPart,
    namespace: &Ident,
    active: &[Interval],
    to: HybridTime,
    point: HybridTime,
    serving: &Ident,
    tables: &[TableRecord],
) -> Result<Records<Listed>, NoMemory>
    requires active { active.now ≡ lists.tablets_active_at master.now.master.catalog.owners master.now.master.activity namespace.now to }
    ensures exact { IfOk result (λ listed. listed ≡ map (line_with to point serving.now tables.now) (concerned master.now.master.catalog.owners master.now.master.activity namespace.now to)) }
{
    let intervals = concerned(master, namespace, active)?;
    lines(
        master.alloc(),
        intervals.as_slice(),
        to,
        point,
        serving,
        tables,
    )
}

// The tablets that a switch concerns: those that were active at its time, and the others that are now.
fn concerned(
    master: &MasterPart,
    namespace: &Ident,
    active: &[Interval],
) -> Result<Records<Interval>, NoMemory>
    ensures exact { IfOk result (λ found. found ≡ lists.by_table_and_number (lists.once (active.now ++ lists.active_tablets master.now.master.catalog.owners master.now.master.activity namespace.now))) }
{
    let alloc = master.alloc();
    let mut both = Vec::new(alloc);
    both.extend_from_slice(active)?;
    let open = active_tablets(master.catalog(), master.tablets(), *namespace)?;
    both.extend_from_slice(open.as_slice())?;
    let each = once(alloc, both.as_slice())?;
    by_table_and_number(alloc, each.as_slice())
}

fn lines(
    alloc: Global,
    intervals: &[Interval],
    to: HybridTime,
    point: HybridTime,
    serving: &Ident,
    tables: &[TableRecord],
) -> Result<Records<Listed>, NoMemory>
    ensures exact { IfOk result (λ listed. listed ≡ map (line_with to point serving.now tables.now) intervals.now) }
{
    let mut listed = Records::new(alloc);
    for interval in intervals {
        listed.push(line_for(interval, to, point, serving, tables))?;
    }
    Ok(listed)
}

// What the tablet of an interval is to do.
fn line_for(
    interval: &Interval,
    to: HybridTime,
    point: HybridTime,
    serving: &Ident,
    tables: &[TableRecord],
) -> Listed
    ensures exact { result ≡ line_with to point serving.now tables.now interval.now }
{
    let body = if interval.is_active_at(to) {
        Body::RestoreFrom {
            snapshot: *serving,
            to,
            point,
            version: version_of(tables, &interval.table),
        }
    } else {
        Body::Hide { ended: point }
    };
    Listed {
        tablet: interval.tablet,
        slot: interval.slot,
        body,
        acked: false,
    }
}

// The version of a table's current schema.
fn version_of(tables: &[TableRecord], table: &Ident) -> u32
    ensures exact { result ≡ version_of tables.now table.now }
{
    for found in tables {
        if is_current(found, table) {
            return schema_version(found);
        }
    }
    0
}

// Whether a record is the current one of a table.
fn is_current(found: &TableRecord, table: &Ident) -> bool
    ensures exact { result ≡ (is_open found.now.to && same found.now.id table.now) }
{
    found.to.is_none() && found.id == *table
}

fn schema_version(found: &TableRecord) -> u32
    ensures exact { result ≡ found.now.schema.version }
{
    found.schema.version
}
