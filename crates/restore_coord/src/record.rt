use crate::state::RestorationState;
use hybrid_time::HybridTime;
use row_values::Records;
use std::marker::Model;
use tablet_inbox::Listed;
use yb_ident::Ident;

/// A restoration of a namespace to a time, by a schedule. Contracts see it as the book's.
#[derive(Debug, Drop, PartialEq, Eq)]
pub struct RestorationRecord {
    pub id: Ident,
    pub schedule: Ident,
    pub namespace: Ident,
    pub to: HybridTime,
    pub listed: Records<Listed>,
    pub state: RestorationState,
}

impl Model for RestorationRecord {
    ghost use Rattle.model.specs.Records.{RestorationRecord};
    ghost use Rattle.restore_coord.specs.Seen.{state_of, state_from};

    ghost Value = { RestorationRecord };

    ghost view = { λ r. record {
      id = r.id;
      schedule = r.schedule;
      namespace = r.namespace;
      to = r.to;
      listed = r.listed;
      state = state_of r.state;
    } };

    ghost inverse = { λ v. record {
      id = v.id;
      schedule = v.schedule;
      namespace = v.namespace;
      to = v.to;
      listed = v.listed;
      state = state_from v.state;
    } };
}
