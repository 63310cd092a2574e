//! The master's part: the catalog, the activity of tablets, schedules, and the records of operations.
//! Contracts see it as the book's master, with the room that there is, and what it does as the book's
//! effects.
//!
//! What takes memory comes first and may fail: it leaves the master as it was. What changes the master
//! comes last, and can't fail.
#![tactic(auto)]

mod act;
mod beginning;
mod change;
mod cloning;
mod cut;
mod decision;
mod drawn;
mod effects;
mod fields;
mod found;
mod free;
mod listed;
mod moving;
mod numbering;
mod order;
mod part;
mod placing;
mod removing;
mod sending;
mod sent;
mod switch;
mod switching;
mod telling;
mod told;
mod within;

pub use act::MasterAct;
pub use beginning::new_snapshot;
pub use change::{PartChange, PartKind};
pub use cut::Cut;
pub use decision::Decision;
pub use drawn::Drawn;
pub use fields::{
    kind_of, number_of, schedule_id, scheduled_namespace, snapshot_id, snapshot_namespace,
    snapshot_time, table_id, table_number, tablet_of,
};
pub use listed::{by_table_and_number, listing};
pub use order::{Orders, put_all_in_order};
pub use part::MasterPart;
pub use placing::{put_slot, same_slots};
pub use sent::Sent;
pub use switch::Switch;
pub use telling::told_all;
pub use within::{once, tablets_active_within};
