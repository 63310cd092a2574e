use hybrid_time::HybridTime;
use row_values::Records;
use std::marker::Model;
use tablet_inbox::Listed;
use yb_ident::Ident;

/// A snapshot of a namespace at a time, by a schedule, and the time of the namespace's one before it.
/// Contracts see it as the book's.
#[derive(Debug, Drop, PartialEq, Eq)]
pub struct SnapshotRecord {
    pub id: Ident,
    /// Whether all its tablets froze.
    pub complete: bool,
    pub listed: Records<Listed>,
    pub schedule: Ident,
    pub namespace: Ident,
    pub after: HybridTime,
    pub at: HybridTime,
}

impl Model for SnapshotRecord {
    ghost use Rattle.model.specs.Records.{SnapshotRecord};

    ghost Value = { SnapshotRecord };

    ghost view = { λ r. record {
      id = r.id;
      complete = r.complete;
      listed = r.listed;
      schedule = r.schedule;
      namespace = r.namespace;
      after = r.after;
      at = r.at;
    } };

    ghost inverse = { λ v. record {
      id = v.id;
      complete = v.complete;
      listed = v.listed;
      schedule = v.schedule;
      namespace = v.namespace;
      after = v.after;
      at = v.at;
    } };
}
