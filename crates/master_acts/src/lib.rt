//! What looks and commands find in the master's part and refuse, and what they come to: a reply, or what
//! the master and the touched tablets' parts are told. Each contract is the book's judgement or plan.
//!
//! None of these calls changes the master. What an act does is `MasterPart`'s own.
#![tactic(auto)]

mod batches;
mod cloning;
mod columns;
mod decide;
mod decided;
mod fields;
mod found;
mod judges;
mod lines;
mod lists;
mod looks;
mod operations;
mod pairs;
mod places;
mod plans;
mod scheduling;

pub use cloning::{CloneSource, decide_clone, found_source};
pub use columns::{decide_add_column, decide_drop_column, decide_rename_table};
pub use decide::{
    decide_create_namespace, decide_create_schedule, decide_create_table, decide_delete_schedule,
    decide_drop_namespace, decide_drop_table, decide_edit_schedule, decide_split,
};
pub use decided::decide_change;
pub use found::{found_namespace, found_table};
pub use judges::{
    ColumnOf, Family, judge_add_column, judge_create_namespace, judge_create_table,
    judge_drop_column, judge_drop_namespace, judge_drop_table, judge_rename_table, judge_split,
};
pub use looks::{look, look_keys, look_table};
pub use operations::{decide_restore, decide_take_snapshot};
pub use plans::plan_of;
pub use scheduling::{
    judge_create_schedule, judge_delete_schedule, judge_edit_schedule, judge_restore,
    judge_take_snapshot,
};
