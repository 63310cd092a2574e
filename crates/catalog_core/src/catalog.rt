ghost use Rattle.std.specs.Prelude.{ℕ, ◌≡◌, ◌≤◌, ◌+◌, None, true, [], ◌∷◌, ◌++◌, length, filter, IfOk, OnOk};
ghost use Rattle.std.specs.Option.{option_copied};
ghost use Rattle.model.specs.Times.{is_open};
ghost use Rattle.model.specs.Catalog.{Catalog, NamespaceRecord, TableRecord, tables_at, empty_catalog, namespace_named, name_of, current_named, current_table, current_tables, table_named, latest, kept_from, set_kept_from, owner_of, namespace_added, namespace_ended, table_added, table_ended, end_table};
ghost use Rattle.model.specs.Restored.{tables_back, replace, record_at, cloned_tables};
ghost use Rattle.model.specs.Records.{CloneRecord};
ghost use Rattle.catalog_core.specs.Cloned.{TargetFits, target_of};
ghost use Rattle.catalog_core.specs.Begins.{IsHome};
ghost use Rattle.catalog_core.specs.Pruned.{pruned_by, space_goes, table_goes};
ghost use Rattle.catalog_core.specs.Kept.{ends_by, ends_in, is_free_for, KeepRoom};

use crate::keeping::Keeps;
use crate::keys::keys_agree;
use crate::marks::Marks;
use crate::namespaces::Namespaces;
use crate::owners::Owners;
use crate::pruning::{Cuts, Cutting, Uncut};
use crate::records::{NamespaceRecord, TableRecord};
use crate::tables::Tables;
use hybrid_time::HybridTime;
use row_values::{Name, NoMemory};
use std::alloc::Global;
use std::cmp::max;
use std::marker::Model;
use table_schema::Schema;
use yb_ident::Ident;

/// The master's catalog. Contracts see the book's, and for how many more records of each kind there is room.
#[derive(Drop)]
pub struct Catalog {
    namespaces: Namespaces,
    tables: Tables,
    kept_from: Marks,
    owners: Owners,
}

impl Model for Catalog {
    ghost use Rattle.std.specs.Prelude.{min};
    ghost use Rattle.catalog_core.specs.Kept.{CatalogView};

    ghost Value = { CatalogView };

    ghost view = { λ c. record {
      catalog = record {
        namespaces = c.namespaces.items;
        tables = c.tables.items;
        kept_from = c.kept_from.items;
        owners = c.owners.items;
      };
      room = min (min c.namespaces.room c.kept_from.room) (min c.tables.room c.owners.room);
    } };
}

impl Catalog {
    /// The empty catalog, which takes no memory.
    pub fn new(alloc: Global) -> Catalog
        ensures { result ≡ record { catalog = empty_catalog; room = 0 } }
    {
        Catalog {
            namespaces: Namespaces::new(alloc),
            tables: Tables::new(alloc),
            kept_from: Marks::new(alloc),
            owners: Owners::new(alloc),
        }
    }

    /// The current namespace of a name.
    pub fn namespace_named(&self, name: &Name) -> Option<Ident>
        ensures { result ≡ namespace_named self.now.catalog.namespaces name.now }
    {
        self.namespaces.namespace_named(name)
    }

    /// The name of a current namespace.
    pub fn name_of(&self, id: &Ident) -> Option<&Name>
        ensures { option_copied result ≡ name_of self.now.catalog.namespaces id.now }
    {
        self.namespaces.name_of(id)
    }

    /// How many namespaces are current. The count is kept.
    pub fn count_namespaces(&self) -> usize
        ensures { result ≡ length (filter (λ r. is_open r.to) self.now.catalog.namespaces) }
    {
        self.namespaces.count()
    }

    /// The current table of a name in a namespace.
    pub fn current_named(&self, namespace: &Ident, name: &Name) -> Option<&TableRecord>
        ensures { option_copied result ≡ current_named self.now.catalog.tables namespace.now name.now }
    {
        self.tables.current_named(namespace, name)
    }

    /// The table that had a name at a time. It passes the records of the name that began later, and no other.
    pub fn table_named(&self, namespace: &Ident, name: &Name, x: HybridTime) -> Option<&TableRecord>
        ensures { option_copied result ≡ table_named self.now.catalog.tables namespace.now name.now x }
    {
        self.tables.table_named(namespace, name, x)
    }

    /// The current record of a table.
    pub fn current_table(&self, id: &Ident) -> Option<&TableRecord>
        ensures { option_copied result ≡ current_table self.now.catalog.tables id.now }
    {
        self.tables.current_table(id)
    }

    /// The record that a table had at a time. It passes the table's records that began later, and no
    /// other.
    pub fn record_at(&self, id: &Ident, x: HybridTime) -> Option<&TableRecord>
        ensures { option_copied result ≡ record_at self.now.catalog.tables id.now x }
    {
        self.tables.record_at(id, x)
    }

    /// The schema of the newest kept record of a table.
    pub fn latest(&self, id: &Ident) -> Option<&Schema>
        ensures { option_copied result ≡ latest self.now.catalog.tables id.now }
    {
        self.tables.latest(id)
    }

    /// How many tables of a namespace are current. The counts are kept.
    pub fn count_tables(&self, namespace: &Ident) -> usize
        ensures { result ≡ length (current_tables self.now.catalog.tables namespace.now) }
    {
        self.tables.count(namespace)
    }

    /// The stamp below which the catalog of a namespace is not kept.
    pub fn kept_from(&self, namespace: &Ident) -> HybridTime
        ensures { result ≡ kept_from self.now.catalog.kept_from namespace.now }
    {
        self.kept_from.kept_from(namespace)
    }

    /// The namespace in which a table was made.
    pub fn owner_of(&self, table: &Ident) -> Option<Ident>
        ensures { result ≡ owner_of self.now.catalog.owners table.now }
    {
        self.owners.owner_of(table)
    }

    /// The tables of a namespace that held at a time, in order of id. It goes over the kept records of
    /// that namespace's tables.
    pub fn tables_at(
        &self,
        alloc: Global,
        namespace: &Ident,
        x: HybridTime,
    ) -> Result<Vec<TableRecord>, NoMemory>
        ensures exact { IfOk result (λ found. found.items ≡ tables_at self.now.catalog.tables namespace.now x) }
    {
        self.tables.tables_at(alloc, namespace, x)
    }

    /// The records of namespaces, the oldest first.
    pub fn namespaces(&self) -> &[NamespaceRecord]
        ensures all { result.now ≡ self.now.catalog.namespaces }
    {
        self.namespaces.records()
    }

    /// The records of tables, the oldest first.
    pub fn tables(&self) -> &[TableRecord]
        ensures all { result.now ≡ self.now.catalog.tables }
    {
        self.tables.records()
    }

    /// Whether no record of a table ends after a time. It goes through all of them.
    pub fn ends_by(&self, at: HybridTime) -> bool
        ensures { result ≡ ends_by at self.now.catalog.tables }
    {
        self.tables.ends_by(at)
    }

    /// Makes room for so many more records of each kind.
    pub fn prepare(&mut self, count: usize) -> Result<(), NoMemory>
        ensures catalog { self.new.catalog ≡ self.old.catalog }
        ensures room { OnOk result (count ≤ self.new.room) }
    {
        self.namespaces.prepare(count)?;
        self.kept_from.prepare(count)?;
        self.tables.prepare(count)?;
        self.owners.prepare(count)?;
        Ok(())
    }

    /// A new namespace, in the room that was made. Its catalog is kept from its beginning on.
    pub fn add_namespace(&mut self, namespace: NamespaceRecord)
        requires room { 1 ≤ self.old.room }
        requires current { namespace.to ≡ None }
        requires free { namespace_named self.old.catalog.namespaces namespace.name ≡ None }
        requires fresh { name_of self.old.catalog.namespaces namespace.id ≡ None }
        ensures catalog { self.new.catalog ≡ namespace_added namespace self.old.catalog }
        ensures room { self.old.room ≤ self.new.room + 1 }
    {
        self.kept_from.set(namespace.id, namespace.from);
        self.namespaces.add(namespace);
    }

    /// The current record of a namespace ends, if there is one. It takes no memory.
    pub fn end_namespace(&mut self, id: &Ident, at: HybridTime)
        ensures catalog { self.new.catalog ≡ namespace_ended id.now at self.old.catalog }
        ensures room { self.new.room ≡ self.old.room }
    {
        self.namespaces.end(id, at);
    }

    /// A new table that its namespace owns, in the room that was made.
    pub fn add_table(&mut self, table: TableRecord)
        requires room { 1 ≤ self.old.room }
        requires current { table.to ≡ None }
        requires past { ends_by table.from self.old.catalog.tables ≡ true }
        requires free { current_named self.old.catalog.tables table.namespace table.name ≡ None }
        requires fresh { current_table self.old.catalog.tables table.id ≡ None }
        requires unowned { owner_of self.old.catalog.owners table.id ≡ None }
        ensures catalog { self.new.catalog ≡ table_added table self.old.catalog }
        ensures room { self.old.room ≤ self.new.room + 1 }
    {
        self.owners.add(table.id, table.namespace);
        self.tables.add(table);
    }

    /// The record of a table whose owner is known, as a clone begins them, in the room that was made.
    pub fn begin_table(&mut self, table: TableRecord)
        requires room { 1 ≤ self.old.room }
        requires current { table.to ≡ None }
        requires past { ends_by table.from self.old.catalog.tables ≡ true }
        requires free { current_named self.old.catalog.tables table.namespace table.name ≡ None }
        requires fresh { current_table self.old.catalog.tables table.id ≡ None }
        ensures catalog { self.new.catalog ≡ record self.old.catalog { tables = self.old.catalog.tables ++ table ∷ [] } }
        ensures room { self.old.room ≤ self.new.room + 1 }
    {
        self.tables.add(table);
    }

    /// The current record of a table ends, if there is one. It takes no memory.
    pub fn end_table(&mut self, id: &Ident, at: HybridTime)
        ensures catalog { self.new.catalog ≡ table_ended id.now at self.old.catalog }
        ensures room { self.new.room ≡ self.old.room }
    {
        self.tables.end(id, at);
    }

    /// A table goes on under another name or schema, in the room that was made: its current record
    /// ends where this one begins. Its name is nobody's, or its own.
    pub fn replace_table(&mut self, table: TableRecord)
        requires room { 1 ≤ self.old.room }
        requires current { table.to ≡ None }
        requires past { ends_by table.from self.old.catalog.tables ≡ true }
        requires free { is_free_for table.id (current_named self.old.catalog.tables table.namespace table.name) ≡ true }
        ensures catalog { self.new.catalog ≡ record self.old.catalog { tables = end_table table.id table.from self.old.catalog.tables ++ table ∷ [] } }
        ensures room { self.old.room ≤ self.new.room + 1 }
    {
        self.tables.replace(table);
    }

    /// The current tables of a namespace give way to those that it had at a time, as a restore brings
    /// them back, in the room that was made. Records of one table are of one namespace, and none of this
    /// namespace ends after the point.
    pub fn restore_tables(&mut self, namespace: &Ident, back: Vec<TableRecord>, point: HybridTime)
        requires room { length back.items ≤ self.old.room }
        requires past { ends_in namespace.now point self.old.catalog.tables ≡ true }
        requires home { IsHome self.old.catalog.tables }
        requires back { (to : ℕ) × (back.items ≡ tables_back self.old.catalog.tables namespace.now to point) }
        ensures catalog { self.new.catalog ≡ record self.old.catalog { tables = replace namespace.now back.items point self.old.catalog.tables } }
        ensures room { self.old.room ≤ self.new.room + length back.items }
    {
        self.tables.restore(namespace, back, point);
    }

    /// The target of a clone becomes current, with the tables that it takes over of its source, in the
    /// room that was made. The tables' owner is known since the clone was accepted. The target's
    /// catalog is kept from its beginning on.
    pub fn add_target(&mut self, namespace: NamespaceRecord, tables: Vec<TableRecord>)
        requires room { 1 ≤ self.old.room }
        requires places { length tables.items ≤ self.old.room }
        requires target { (r : CloneRecord) × (TargetFits self.old.catalog r × ((namespace ≡ target_of r namespace.from) × (tables.items ≡ cloned_tables r.tables self.old.catalog.tables r.target_id r.to namespace.from))) }
        ensures catalog { self.new.catalog ≡ record (namespace_added namespace self.old.catalog) { tables = self.old.catalog.tables ++ tables.items } }
    {
        keys_agree();
        self.tables.follow_in_turn();
        self.kept_from.set(namespace.id, namespace.from);
        self.namespaces.add(namespace);
        self.tables.add_all(tables);
    }

    /// The namespace of a table that is yet to be made, in the room that was made.
    pub fn add_owner(&mut self, table: Ident, namespace: Ident)
        requires room { 1 ≤ self.old.room }
        requires unowned { owner_of self.old.catalog.owners table ≡ None }
        ensures catalog { self.new.catalog ≡ record self.old.catalog { owners = self.old.catalog.owners ++ record { table = table; namespace = namespace } ∷ [] } }
        ensures room { self.old.room ≤ self.new.room + 1 }
    {
        self.owners.add(table, namespace);
    }

    /// Sets the mark of a namespace, or raises it, in the room that was made.
    pub fn set_kept_from(&mut self, namespace: Ident, from: HybridTime)
        requires room { 1 ≤ self.old.room }
        ensures catalog { self.new.catalog ≡ record self.old.catalog { kept_from = set_kept_from self.old.catalog.kept_from namespace from } }
        ensures room { self.old.room ≤ self.new.room + 1 }
    {
        self.kept_from.set(namespace, from);
    }

    /// Makes room to look up anew what a prune leaves.
    pub fn prepare_keep(&mut self) -> Result<(), NoMemory>
        ensures catalog { self.new.catalog ≡ self.old.catalog }
        ensures room { OnOk result (KeepRoom self.new) }
    {
        let count = max(self.namespaces.records().len(), self.tables.records().len());
        self.prepare(count)
    }

    /// The records of namespaces and of tables that don't stay go. What is current has to stay. It
    /// takes no memory beside the room that was made.
    pub fn keep<S: Keeps<NamespaceRecord>, T: Keeps<TableRecord>>(&mut self, spaces: &S, tables: &T)
        requires room { KeepRoom self.old }
        requires spaces_stay { (r : NamespaceRecord) → is_open r.to ≡ true → S.stays spaces.now r ≡ true }
        requires tables_stay { (r : TableRecord) → is_open r.to ≡ true → T.stays tables.now r ≡ true }
        ensures catalog { self.new.catalog ≡ record self.old.catalog {
          namespaces = filter (λ r. S.stays spaces.now r) self.old.catalog.namespaces;
          tables = filter (λ r. T.stays tables.now r) self.old.catalog.tables;
        } }
    {
        self.namespaces.keep(spaces);
        self.tables.keep(tables);
    }

    /// The records that ended by their namespace's cut go, and the marks of namespaces that have records
    /// rise to it. It takes no memory beside the room that was made. The answer is how many records went.
    pub fn prune<C: Cuts>(&mut self, cuts: &C) -> usize
        requires room { KeepRoom self.old }
        ensures catalog { self.new.catalog ≡ pruned_by (λ ns. C.cut cuts.now ns) self.old.catalog }
        ensures count { result ≡ length (filter (space_goes (λ ns. C.cut cuts.now ns)) self.old.catalog.namespaces) + length (filter (table_goes (λ ns. C.cut cuts.now ns)) self.old.catalog.tables) }
    {
        let spaces = self.namespaces.records().len();
        let tables = self.tables.records().len();
        self.kept_from.raise_all(&Cutting {
            cuts,
            namespaces: &self.namespaces,
            tables: &self.tables,
        });
        self.namespaces.keep(&Uncut { cuts });
        self.tables.keep(&Uncut { cuts });
        let spaces_gone = spaces - self.namespaces.records().len();
        let tables_gone = tables - self.tables.records().len();
        spaces_gone + tables_gone
    }
}
