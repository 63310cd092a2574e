//! What a command comes to: a refusal or an answer, or what the master and the touched tablets' parts are told.
ghost use Rattle.std.specs.Prelude.{ℕ, [], ◌≡◌, ◌≢◌, ◌≤◌, ◌<◌, ◌+◌, ◌∷◌, IfOk, AllPairs, map, length};
ghost use Rattle.row_values.specs.Ids.{id_bound};
ghost use Rattle.model.specs.Tablets.{Tablet, HideSince};
ghost use Rattle.model.specs.Acts.{Ok as Made};
ghost use Rattle.model.specs.Parts.{Parts};
ghost use Rattle.cluster_events.specs.SeenReplies.{reply_of};
ghost use Rattle.model.specs.Changes as book;
ghost use Rattle.model.specs.Changes.{tell_made, tell_children, splitting};
ghost use Rattle.model.specs.Changed.{next_tablet, shares, children};
ghost use Rattle.master_part.specs.Acts.{IsLawful};
ghost use Rattle.master_acts.specs.Founds.{family_seen};
ghost use Rattle.master_part.specs.Decisions.{told_by, outcome_by, MayDo};

use crate::fields::{schema_of, version_of};
use crate::judges::{
    Family, judge_create_namespace, judge_create_table, judge_drop_namespace, judge_drop_table,
    judge_split,
};
use crate::scheduling::{judge_create_schedule, judge_delete_schedule, judge_edit_schedule};
use catalog_tablets::Interval;
use cluster_events::Reply;
use hybrid_time::HybridTime;
use master_part::{
    Decision, MasterAct, MasterPart, PartChange, PartKind, schedule_id, table_id, told_all,
};
use partition_codes::{Range, share};
use row_values::{Copied, Name, NoMemory, Records, Slots};
use std::alloc::Global;
use table_schema::{NewColumn, Schema};
use yb_ident::{Ident, Kind};

/// A new namespace.
#[tactic(auto, using(crate::proofs::Allowed::namespace_fits, crate::proofs::Allowed::few_namespaces), unfolding(model::specs::Changes::create_namespace))]
pub fn decide_create_namespace(master: &MasterPart, name: &Name) -> Result<Decision, NoMemory>
    requires lawful { IsLawful master.now.master }
    ensures plan { IfOk result (λ d. (parts : ℕ → Tablet) → outcome_by parts d ≡ book.create_namespace name.now master.now.master) }
    ensures may { IfOk result (λ d. (n : ℕ) → MayDo d n master.now.master) }
{
    let made = match judge_create_namespace(master, name) {
        Ok(made) => made,
        Err(why) => return Ok(Decision::Answers(Reply::Refused(why))),
    };
    let act = MasterAct::MakesNamespace { name: name.copy()? };
    let mut ids = Records::new(master.alloc());
    ids.push(made)?;
    Ok(Decision::Accepts {
        act,
        changes: Records::new(master.alloc()),
        reply: Reply::Ok { made: ids },
    })
}

/// The end of a namespace.
#[tactic(auto, unfolding(model::specs::Changes::drop_namespace))]
pub fn decide_drop_namespace(master: &MasterPart, name: &Name) -> Result<Decision, NoMemory>
    ensures plan { IfOk result (λ d. (parts : ℕ → Tablet) → outcome_by parts d ≡ book.drop_namespace name.now master.now.master) }
    ensures may { IfOk result (λ d. (n : ℕ) → MayDo d n master.now.master) }
{
    let namespace = match judge_drop_namespace(master, name) {
        Ok(namespace) => namespace,
        Err(why) => return Ok(Decision::Answers(Reply::Refused(why))),
    };
    Ok(Decision::Accepts {
        act: MasterAct::DropsNamespace { namespace },
        changes: Records::new(master.alloc()),
        reply: made_none(master),
    })
}

/// A new table of so many tablets, one in each of the slots.
#[tactic(auto, using(crate::proofs::Allowed::table_fits, crate::proofs::Allowed::few_tables, crate::proofs::Allowed::few_tablets), unfolding(model::specs::Changes::create_table))]
pub fn decide_create_table(
    master: &MasterPart,
    namespace: &Name,
    table: &Name,
    tablets: u32,
    columns: &Records<NewColumn>,
    slots: &Slots,
    stamp: HybridTime,
) -> Result<Decision, NoMemory>
    requires lawful { IsLawful master.now.master }
    requires later { master.now.master.clock < stamp }
    requires columns { length columns.now ≤ 16 }
    requires apart { AllPairs (λ c d. c.name ≢ d.name) columns.now }
    requires most { length slots.now ≤ 64 }
    ensures plan { IfOk result (λ d. (parts : ℕ → Tablet) → outcome_by parts d ≡ book.create_table namespace.now table.now tablets columns.now slots.now stamp master.now.master) }
    ensures may { IfOk result (λ d. MayDo d stamp master.now.master) }
{
    let owner = match judge_create_table(master, namespace, table, tablets) {
        Ok(owner) => owner,
        Err(why) => return Ok(Decision::Answers(Reply::Refused(why))),
    };
    let id = master.next_table();
    let changes = tablets_made(master.alloc(), id, slots.as_slice(), master.drawn_tablets())?;
    let schema = Schema::of_columns(master.alloc(), columns.as_slice())?;
    let act = MasterAct::MakesTable {
        namespace: owner,
        name: table.copy()?,
        columns: columns.copy()?,
        schema,
        slots: slots.copy()?,
    };
    let mut made = Records::new(master.alloc());
    made.push(id)?;
    Ok(Decision::Accepts {
        act,
        changes,
        reply: Reply::Ok { made },
    })
}

/// The end of a table whose active tablets are in these slots.
#[tactic(auto, unfolding(model::specs::Changes::drop_table))]
pub fn decide_drop_table(
    master: &MasterPart,
    namespace: &Name,
    table: &Name,
    slots: &Slots,
    stamp: HybridTime,
) -> Result<Decision, NoMemory>
    ensures plan { IfOk result (λ d. (parts : ℕ → Tablet) → outcome_by parts d ≡ book.drop_table namespace.now table.now slots.now stamp master.now.master) }
    ensures may { IfOk result (λ d. (n : ℕ) → MayDo d n master.now.master) }
{
    let found = match judge_drop_table(master, namespace, table) {
        Ok(found) => table_id(found),
        Err(why) => return Ok(Decision::Answers(Reply::Refused(why))),
    };
    let hides = PartKind::Hide { ended: stamp };
    let changes = told_all(master.alloc(), slots.as_slice(), &hides)?;
    Ok(Decision::Accepts {
        act: MasterAct::DropsTable { table: found },
        changes,
        reply: made_none(master),
    })
}

/// A split of a table's tablet at a code.
#[tactic(auto, using(crate::proofs::Allowed::split_above, crate::proofs::Allowed::split_below), unfolding(model::specs::Changes::split))]
pub fn decide_split(
    master: &MasterPart,
    namespace: &Name,
    table: &Name,
    code: u16,
    stamp: HybridTime,
) -> Result<Decision, NoMemory>
    requires lawful { IsLawful master.now.master }
    ensures plan { IfOk result (λ d. (ps : Parts) → ps.master ≡ master.now.master → outcome_by ps.tablet d ≡ book.split namespace.now table.now code stamp ps) }
    ensures may { IfOk result (λ d. (n : ℕ) → MayDo d n master.now.master) }
{
    let family = match judge_split(master, namespace, table, code) {
        Ok(family) => family,
        Err(why) => return Ok(Decision::Answers(Reply::Refused(why))),
    };
    splitting(master, &family, code, stamp)
}

/// A new schedule.
#[tactic(auto, using(crate::proofs::Allowed::schedule_fits, crate::proofs::Allowed::few_schedules), unfolding(model::specs::Changes::create_schedule))]
pub fn decide_create_schedule(
    master: &MasterPart,
    interval: u64,
    retention: u64,
    namespace: &Name,
) -> Result<Decision, NoMemory>
    requires lawful { IsLawful master.now.master }
    ensures plan { IfOk result (λ d. (parts : ℕ → Tablet) → outcome_by parts d ≡ book.create_schedule interval retention namespace.now master.now.master) }
    ensures may { IfOk result (λ d. (n : ℕ) → MayDo d n master.now.master) }
{
    let owner = match judge_create_schedule(master, interval, retention, namespace) {
        Ok(owner) => owner,
        Err(why) => return Ok(Decision::Answers(Reply::Refused(why))),
    };
    let mut made = Records::new(master.alloc());
    made.push(master.next_schedule())?;
    Ok(Decision::Accepts {
        act: MasterAct::MakesSchedule {
            namespace: owner,
            interval,
            retention,
        },
        changes: Records::new(master.alloc()),
        reply: Reply::Ok { made },
    })
}

/// Other periods of a schedule.
#[tactic(auto, using(crate::proofs::Allowed::period_fits), unfolding(model::specs::Changes::edit_schedule))]
pub fn decide_edit_schedule(
    master: &MasterPart,
    schedule: &Ident,
    interval: u64,
    retention: u64,
) -> Result<Decision, NoMemory>
    ensures plan { IfOk result (λ d. (parts : ℕ → Tablet) → outcome_by parts d ≡ book.edit_schedule schedule.now interval retention master.now.master) }
    ensures may { IfOk result (λ d. (n : ℕ) → MayDo d n master.now.master) }
{
    let found = match judge_edit_schedule(master, schedule, interval, retention) {
        Ok(found) => schedule_id(&found),
        Err(why) => return Ok(Decision::Answers(Reply::Refused(why))),
    };
    Ok(Decision::Accepts {
        act: MasterAct::EditsSchedule {
            schedule: found,
            interval,
            retention,
        },
        changes: Records::new(master.alloc()),
        reply: made_none(master),
    })
}

/// The end of a schedule.
#[tactic(auto, unfolding(model::specs::Changes::delete_schedule))]
pub fn decide_delete_schedule(master: &MasterPart, schedule: &Ident) -> Result<Decision, NoMemory>
    ensures plan { IfOk result (λ d. (parts : ℕ → Tablet) → outcome_by parts d ≡ book.delete_schedule schedule.now master.now.master) }
    ensures may { IfOk result (λ d. (n : ℕ) → MayDo d n master.now.master) }
{
    let found = match judge_delete_schedule(master, schedule) {
        Ok(found) => schedule_id(&found),
        Err(why) => return Ok(Decision::Answers(Reply::Refused(why))),
    };
    Ok(Decision::Accepts {
        act: MasterAct::DeletesSchedule { schedule: found },
        changes: Records::new(master.alloc()),
        reply: made_none(master),
    })
}

/// Nothing is made.
pub fn made_none(master: &MasterPart) -> Reply
    ensures exact { reply_of result ≡ Made [] }
{
    Reply::Ok {
        made: Records::new(master.alloc()),
    }
}

// A tablet is split.
#[tactic(auto, using(crate::proofs::Allowed::few_tablets))]
fn splitting(
    master: &MasterPart,
    family: &Family,
    code: u16,
    stamp: HybridTime,
) -> Result<Decision, NoMemory>
    requires lawful { IsLawful master.now.master }
    requires above { family.now.tablet.low < code }
    requires below { code < family.now.tablet.high }
    ensures plan { IfOk result (λ d. (parts : ℕ → Tablet) → outcome_by parts d ≡ splitting (family_seen family.now) code stamp master.now.master (parts family.now.tablet.slot)) }
    ensures may { IfOk result (λ d. (n : ℕ) → MayDo d n master.now.master) }
{
    let drawn = master.drawn_tablets();
    let parent = family.tablet;
    let version = version_of(schema_of(family.table));
    let low = tablet_id(drawn, 1);
    let high = tablet_id(drawn, 2);
    let changes = split_changes(
        master.alloc(),
        &parent,
        code,
        (family.low_slot, family.high_slot),
        drawn,
        version,
        stamp,
    )?;
    let mut made = Records::new(master.alloc());
    made.push(low)?;
    made.push(high)?;
    Ok(Decision::Accepts {
        act: MasterAct::SplitsTablet {
            parent,
            code,
            low_slot: family.low_slot,
            high_slot: family.high_slot,
        },
        changes,
        reply: Reply::Ok { made },
    })
}

// What the parts of a new table's slots get.
fn tablets_made(
    alloc: Global,
    table: Ident,
    slots: &[u32],
    drawn: u64,
) -> Result<Records<PartChange>, NoMemory>
    requires most { length slots.now ≤ 64 }
    requires tablets { drawn + length slots.now < id_bound }
    ensures exact { IfOk result (λ made. (parts : ℕ → Tablet) (n : ℕ) → map (told_by parts) made ≡ tell_made (shares slots.now 0 (length slots.now) n drawn table)) }
{
    let count = slots.len() as u32;
    let mut made = Records::new(alloc);
    let mut place = 0u32;
    for slot in slots {
        made.push(PartChange {
            slot: *slot,
            kind: PartKind::Make {
                tablet: tablet_id(drawn, place + 1),
                table,
                range: share(place, count),
                version: 1,
            },
        })?;
        place += 1;
    }
    Ok(made)
}

// An identifier of the next tablets.
fn tablet_id(drawn: u64, count: u32) -> Ident
    requires some { 1 ≤ count }
    requires few { drawn + count < id_bound }
    ensures exact { result ≡ next_tablet drawn count }
{
    Ident {
        kind: Kind::Tablet,
        number: drawn + u64::from(count),
    }
}

// What the part of a split tablet gets, and those of its children.
fn split_changes(
    alloc: Global,
    parent: &Interval,
    code: u16,
    slots: (u32, u32),
    drawn: u64,
    version: u32,
    stamp: HybridTime,
) -> Result<Records<PartChange>, NoMemory>
    requires tablets { drawn + 2 < id_bound }
    requires above { parent.now.low < code }
    requires below { code < parent.now.high }
    ensures exact { IfOk result (λ made. (parts : ℕ → Tablet) → map (told_by parts) made ≡ record { slot = parent.now.slot; act = HideSince stamp } ∷ tell_children (children parent.now code slots.0 slots.1 stamp drawn) version (parts parent.now.slot)) }
{
    let mut changes = Records::new(alloc);
    changes.push(PartChange {
        slot: parent.slot,
        kind: PartKind::Hide { ended: stamp },
    })?;
    changes.push(PartChange {
        slot: slots.0,
        kind: PartKind::Child {
            parent: parent.slot,
            tablet: tablet_id(drawn, 1),
            table: parent.table,
            range: Range {
                low: parent.range.low,
                high: u32::from(code),
            },
            version,
        },
    })?;
    changes.push(PartChange {
        slot: slots.1,
        kind: PartKind::Child {
            parent: parent.slot,
            tablet: tablet_id(drawn, 2),
            table: parent.table,
            range: Range {
                low: u32::from(code),
                high: parent.range.high,
            },
            version,
        },
    })?;
    Ok(changes)
}
