//! The floor of a namespace: what is below it, retention doesn't need. None of these calls takes
//! memory.
ghost use Rattle.std.specs.Prelude.{◌≡◌};
ghost use Rattle.model.specs.Operations.{time_of_user};
ghost use Rattle.model.specs.Cleanup as book;

use clone_coord::CloneRecord;
use hybrid_time::HybridTime;
use master_part::MasterPart;
use restore_coord::RestorationRecord;
use yb_ident::Ident;

/// The floor of a namespace at a stamp.
pub fn floor_of(master: &MasterPart, namespace: &Ident, stamp: HybridTime) -> HybridTime
    ensures exact { result ≡ book.floor_of master.now.master namespace.now stamp }
{
    let least = master.schedules().least_low(namespace, stamp);
    retention_rules::floor(least, time_of_user(master, namespace), stamp)
}

/// The floor of a table's namespace at a stamp.
pub fn floor_of_table(master: &MasterPart, table: &Ident, stamp: HybridTime) -> HybridTime
    ensures exact { result ≡ book.floor_of_table master.now.master table.now stamp }
{
    match master.catalog().owner_of(table) {
        Some(namespace) => floor_of(master, &namespace, stamp),
        None => stamp,
    }
}

// The time to which the operation that uses a namespace goes.
fn time_of_user(master: &MasterPart, namespace: &Ident) -> Option<HybridTime>
    ensures exact { result ≡ time_of_user master.now.master namespace.now }
{
    if let Some(restoration) = master.restorations().of_namespace(namespace) {
        return Some(restored_to(restoration));
    }
    match master.clones().with_namespace(namespace) {
        Some(clone) => Some(cloned_to(clone)),
        None => None,
    }
}

fn restored_to(restoration: &RestorationRecord) -> HybridTime
    ensures exact { result ≡ restoration.now.to }
{
    restoration.to
}

fn cloned_to(clone: &CloneRecord) -> HybridTime
    ensures exact { result ≡ clone.now.to }
{
    clone.to
}
