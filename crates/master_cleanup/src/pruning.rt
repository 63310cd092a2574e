//! What a prune of the catalog comes to.
ghost use Rattle.std.specs.Prelude.{◌≡◌, ◌≤◌, length, filter, IfOk};
ghost use Rattle.model.specs.Parts.{Parts};
ghost use Rattle.model.specs.Cleanup as book;
ghost use Rattle.catalog_core.specs.Pruned.{space_goes, table_goes};
ghost use Rattle.master_part.specs.Going.{cut_of};
ghost use Rattle.master_part.specs.Decisions.{outcome_by, MayDo};

use crate::cuts::{cut_in, cuts_of, space_id, table_space};
use catalog_core::{NamespaceRecord, TableRecord};
use cluster_events::Reply;
use hybrid_time::HybridTime;
use master_part::{Cut, Decision, MasterAct, MasterPart};
use row_values::{NoMemory, Records};

/// The prune of the catalog's old records.
#[tactic(auto, using(crate::proofs::Pruned::pruned_as, crate::proofs::Pruned::cuts_right))]
pub fn decide_prune(master: &MasterPart, stamp: HybridTime) -> Result<Decision, NoMemory>
    ensures plan { IfOk result (λ d. (ps : Parts) → ps.master ≡ master.now.master → outcome_by ps.tablet d ≡ book.prune stamp ps) }
    ensures may { IfOk result (λ d. MayDo d stamp master.now.master) }
{
    let cuts = cuts_of(master, stamp)?;
    let namespaces = count_namespaces(master.catalog().namespaces(), cuts.as_slice());
    let tables = count_tables(master.catalog().tables(), cuts.as_slice());
    Ok(Decision::Accepts {
        act: MasterAct::Prunes { cuts },
        changes: Records::new(master.alloc()),
        reply: Reply::Pruned((namespaces + tables) as u64),
    })
}

// How many records of namespaces ended by their cuts.
fn count_namespaces(namespaces: &[NamespaceRecord], cuts: &[Cut]) -> usize
    ensures count { result ≡ length (filter (space_goes (cut_of cuts.now)) namespaces.now) }
    ensures most { result ≤ length namespaces.now }
{
    let mut count = 0;
    for namespace in namespaces {
        if namespace_goes(namespace, cuts) {
            count += 1;
        }
    }
    count
}

// How many records of tables ended by the cuts of their namespaces.
fn count_tables(tables: &[TableRecord], cuts: &[Cut]) -> usize
    ensures count { result ≡ length (filter (table_goes (cut_of cuts.now)) tables.now) }
    ensures most { result ≤ length tables.now }
{
    let mut count = 0;
    for table in tables {
        if table_goes(table, cuts) {
            count += 1;
        }
    }
    count
}

// Whether the record of a namespace ended by its cut.
fn namespace_goes(namespace: &NamespaceRecord, cuts: &[Cut]) -> bool
    ensures exact { result ≡ space_goes (cut_of cuts.now) namespace.now }
{
    match namespace.to {
        Some(to) => to.number() <= cut_in(cuts, &space_id(namespace)).number(),
        None => false,
    }
}

// Whether the record of a table ended by the cut of its namespace.
fn table_goes(table: &TableRecord, cuts: &[Cut]) -> bool
    ensures exact { result ≡ table_goes (cut_of cuts.now) table.now }
{
    match table.to {
        Some(to) => to.number() <= cut_in(cuts, &table_space(table)).number(),
        None => false,
    }
}
