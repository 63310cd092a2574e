use crate::state::CloneState;
use hybrid_time::HybridTime;
use partition_codes::Range;
use row_values::{Name, Records};
use std::marker::Model;
use tablet_inbox::Listed;
use yb_ident::Ident;

/// A source's table, with the one that stands for it in the clone. Contracts see it as the book's.
#[derive(Clone, Copy, Debug, PartialEq, Eq)]
pub struct IdPair {
    pub source: Ident,
    pub target: Ident,
}

impl Model for IdPair {
    ghost use Rattle.model.specs.Records.{IdPair};

    ghost Value = { IdPair };

    ghost view = { λ p. record { source = p.source; target = p.target } };

    ghost inverse = { λ v. record { source = v.source; target = v.target } };
}

/// A source's tablet with the target that takes its rows, for the target's table. Contracts see it as
/// the book's.
#[derive(Clone, Copy, Debug, PartialEq, Eq)]
pub struct TabletPair {
    pub source: Ident,
    pub source_slot: u32,
    pub target: Ident,
    pub slot: u32,
    pub table: Ident,
    pub range: Range,
}

impl Model for TabletPair {
    ghost use Rattle.model.specs.Records.{TabletPair};

    ghost Value = { TabletPair };

    ghost view = { λ p. record {
      source = p.source;
      source_slot = p.source_slot;
      target = p.target;
      slot = p.slot;
      table = p.table;
      low = p.range.low;
      high = p.range.high;
    } };

    ghost inverse = { λ v. record {
      source = v.source;
      source_slot = v.source_slot;
      target = v.target;
      slot = v.slot;
      table = v.table;
      range = record { low = v.low; high = v.high };
    } };
}

/// A clone of a namespace as of a time. Contracts see it as the book's.
#[derive(Debug, Drop, PartialEq, Eq)]
pub struct CloneRecord {
    pub id: Ident,
    pub source: Ident,
    pub source_name: Name,
    pub target: Name,
    pub target_id: Ident,
    pub tables: Records<IdPair>,
    pub tablets: Records<TabletPair>,
    pub to: HybridTime,
    pub listed: Records<Listed>,
    pub state: CloneState,
}

impl Model for CloneRecord {
    ghost use Rattle.model.specs.Records.{CloneRecord};
    ghost use Rattle.clone_coord.specs.Seen.{state_of, state_from};

    ghost Value = { CloneRecord };

    ghost view = { λ r. record {
      id = r.id;
      source = r.source;
      source_name = r.source_name;
      target = r.target;
      target_id = r.target_id;
      tables = r.tables;
      tablets = r.tablets;
      to = r.to;
      listed = r.listed;
      state = state_of r.state;
    } };

    ghost inverse = { λ v. record {
      id = v.id;
      source = v.source;
      source_name = v.source_name;
      target = v.target;
      target_id = v.target_id;
      tables = v.tables;
      tablets = v.tablets;
      to = v.to;
      listed = v.listed;
      state = state_from v.state;
    } };
}
