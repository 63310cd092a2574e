//! What commands and looks find in the master's part. None of these calls takes memory.
ghost use Rattle.std.specs.Prelude.{◌≡◌, ◌==◌, ◌<◌, ◌+◌, ◌&&◌, Some};
ghost use Rattle.row_values.specs.Ids.{id_bound, same};
ghost use Rattle.model.specs.Times.{is_open};
ghost use Rattle.model.specs.Catalog.{by_id, current_tables};
ghost use Rattle.model.specs.Records.{schedule_of};
ghost use Rattle.model.specs.Operations.{holder, user};
ghost use Rattle.yb_ident.specs.Seen as kinds;
ghost use Rattle.model.specs.Coordination.{pending, pending_of};
ghost use Rattle.model.specs.Changed.{next_namespace, next_table, next_schedule};
ghost use Rattle.model.specs.Changes.{named, count_namespaces, most_namespaces, schedule_id, first_table};
ghost use Rattle.master_part.specs.Tables.{lesser, lesser_in};

use crate::fields::{clone_id, kind_of, restoration_id, schedule_id, table_id};
use crate::part::MasterPart;
use catalog_core::TableRecord;
use row_values::Name;
use tablet_inbox::Listed;
use yb_ident::{Ident, Kind};

// The most current namespaces.
const MOST_NAMESPACES: usize = 64;

impl MasterPart {
    /// The operation that holds a namespace.
    pub fn holder(&self, namespace: &Ident) -> Option<Ident>
        ensures exact { result ≡ holder self.now.master namespace.now }
    {
        if let Some(restoration) = self.restorations.of_namespace(namespace) {
            return Some(restoration_id(restoration));
        }
        match self.clones.to_namespace(namespace) {
            Some(clone) => Some(clone_id(clone)),
            None => None,
        }
    }

    /// The operation that uses a namespace.
    pub fn user(&self, namespace: &Ident) -> Option<Ident>
        ensures exact { result ≡ user self.now.master namespace.now }
    {
        if let Some(restoration) = self.restorations.of_namespace(namespace) {
            return Some(restoration_id(restoration));
        }
        match self.clones.with_namespace(namespace) {
            Some(clone) => Some(clone_id(clone)),
            None => None,
        }
    }

    /// The namespace, or the clone that is to make one, that has a name.
    pub fn named(&self, name: &Name) -> Option<Ident>
        ensures exact { result ≡ named self.now.master name.now }
    {
        match self.catalog.namespace_named(name) {
            Some(namespace) => Some(namespace),
            None => self.clones.named(name),
        }
    }

    /// Whether there are as many namespaces as there may be.
    pub fn is_full(&self) -> bool
        ensures exact { result ≡ (count_namespaces self.now.master == most_namespaces) }
    {
        let current = self.catalog.count_namespaces();
        let hidden = self.clones.count_hidden();
        current <= MOST_NAMESPACES && hidden == MOST_NAMESPACES - current
    }

    /// The schedule of a namespace that has the least number.
    pub fn schedule_of(&self, namespace: &Ident) -> Option<Ident>
        ensures exact { result ≡ schedule_id (schedule_of self.now.master.schedules namespace.now) }
    {
        match self.schedules.schedule_of(namespace) {
            Some(schedule) => Some(schedule_id(&schedule)),
            None => None,
        }
    }

    /// The current table of a namespace that has the least number. It goes through all records where
    /// there is one.
    #[tactic(auto, using(crate::proofs::Least::none_first))]
    pub fn first_table(&self, namespace: &Ident) -> Option<Ident>
        ensures exact { result ≡ first_table (by_id (current_tables self.now.master.catalog.tables namespace.now)) }
    {
        if self.catalog.count_tables(namespace) == 0 {
            return None;
        }
        least_in(self.catalog.tables(), namespace)
    }

    /// The tablet of a slot that the unfinished record of an operation lists, and that has not said that it did its
    /// part.
    #[tactic(auto, using(crate::proofs::ByKind::pending_by))]
    pub fn pending(&self, operation: &Ident, slot: u32) -> Option<Listed>
        ensures exact { result ≡ pending self.now.master operation.now slot }
    {
        self.pending_by(kind_of(operation), operation, slot)
    }

    // The same of an operation of this kind.
    fn pending_by(&self, kind: Kind, operation: &Ident, slot: u32) -> Option<Listed>
        ensures exact { result ≡ pending_of (kinds.kind_of kind) self.now.master.snapshots self.now.master.restorations self.now.master.clones operation.now slot }
    {
        match kind {
            Kind::Snapshot => self.snapshots.pending(operation, slot),
            Kind::Restoration => self.restorations.pending(operation, slot),
            Kind::Clone => self.clones.pending(operation, slot),
            Kind::Namespace => None,
            Kind::Table => None,
            Kind::Tablet => None,
            Kind::Schedule => None,
        }
    }

    /// The identifier that the next namespace gets.
    pub fn next_namespace(&self) -> Ident
        requires few { self.now.master.drawn.namespaces + 1 < id_bound }
        ensures exact { result ≡ next_namespace self.now.master }
    {
        Ident {
            kind: Kind::Namespace,
            number: self.drawn.namespaces + 1,
        }
    }

    /// The identifier that the next schedule gets.
    pub fn next_schedule(&self) -> Ident
        requires few { self.now.master.drawn.schedules + 1 < id_bound }
        ensures exact { result ≡ next_schedule self.now.master }
    {
        Ident {
            kind: Kind::Schedule,
            number: self.drawn.schedules + 1,
        }
    }

    /// How many tablets were drawn.
    pub fn drawn_tablets(&self) -> u64
        ensures exact { result ≡ self.now.master.drawn.tablets }
    {
        self.drawn.tablets
    }

    /// The identifier that the next table gets.
    pub fn next_table(&self) -> Ident
        requires few { self.now.master.drawn.tables + 1 < id_bound }
        ensures exact { result ≡ next_table self.now.master }
    {
        Ident {
            kind: Kind::Table,
            number: self.drawn.tables + 1,
        }
    }
}

// Whether a table is current in a namespace.
fn is_current_in(table: &TableRecord, namespace: &Ident) -> bool
    ensures exact { result ≡ (is_open table.now.to && same table.now.namespace namespace.now) }
{
    table.to.is_none() && table.namespace == *namespace
}

// The identifier of the less number: that of a table that is current in a namespace, or what was found later.
fn lesser_in(table: &TableRecord, namespace: &Ident, later: Option<Ident>) -> Option<Ident>
    ensures exact { result ≡ lesser_in namespace.now table.now later }
{
    if is_current_in(table, namespace) {
        Some(lesser(table_id(table), later))
    } else {
        later
    }
}

fn lesser(id: Ident, later: Option<Ident>) -> Ident
    ensures exact { Some result ≡ lesser id later }
{
    match later {
        None => id,
        Some(later) => { if id.number < later.number { id } else { later } }
    }
}

// The current table of a namespace that has the least number.
fn least_in(tables: &[TableRecord], namespace: &Ident) -> Option<Ident>
    ensures exact { result ≡ first_table (by_id (current_tables tables.now namespace.now)) }
{
    let mut least = None;
    let mut upto = tables.len();
    'tables: while upto > 0 {
        upto -= 1;
        least = lesser_in(&tables[upto], namespace, least);
    }
    least
}
