ghost use Rattle.std.specs.Prelude.{◌≡◌, ◌++◌, length, codes, flat_map, Some, option_map, OnOk, OnErr};
ghost use Rattle.model_runs.specs.Texts.{refusal_text, word, number_word, id_word, id_words, time_word, slots_word, version_word, place_words, column_word, removal_words, row_parts, body_text, state_text, work_text, list_text, reply_text, told_text};
ghost use Rattle.std.specs.Fmt.{decimal};
ghost use Rattle.tablet_inbox.specs.Seen.{kind_seen};
ghost use Rattle.cluster_events.specs.SeenStates.{state_of};
ghost use Rattle.cluster_events.specs.SeenReplies.{work_of, refusal_of, reply_of};
ghost use Rattle.admin_words.specs.Growing.{Begins};
ghost use Rattle.admin_text.specs.Whens.{when_text};

use crate::refusal::tell_refusal;
use admin_words::{ById, Text, Told};
use cluster_events::{Refusal, Removal, Reply, State, TabletPlace, WorkItem};
use hybrid_time::HybridTime;
use row_values::{KeyedRow, NoMemory};
use table_schema::Column;
use tablet_inbox::BodyKind;
use yb_ident::Ident;

// When it was accepted, if that is told, and what was made.
#[tactic(auto, using(std::proofs::lemmas::List::append_assoc))]
fn tell_made(text: &mut Text, when: Option<HybridTime>, made: &[Ident]) -> Result<(), NoMemory>
    ensures added { OnOk result (text.new ≡ text.old ++ (codes "ok" ++ when_text when ++ id_words made.now)) }
    ensures kept { OnErr result (Begins text.old text.new) }
{
    match when {
        None => text.add(b"ok")?,
        Some(when) => text.of_time(b"ok", when)?,
    }
    text.each(b" ", made)
}

// The places that a look found, and the version and the columns of the schema.
#[tactic(auto, using(std::proofs::lemmas::List::append_assoc))]
fn tell_placed(
    text: &mut Text,
    places: &[TabletPlace],
    version: u32,
    columns: &[Column],
) -> Result<(), NoMemory>
    ensures added { OnOk result (text.new ≡ text.old ++ (codes "placed" ++ flat_map place_words places.now ++ version_word version ++ flat_map column_word columns.now)) }
    ensures kept { OnErr result (Begins text.old text.new) }
{
    text.add(b"placed")?;
    text.each(b" ", places)?;
    text.version_word(version)?;
    text.each(b" ", columns)
}

// What a coordinator does next.
#[tactic(auto, using(std::proofs::lemmas::List::append_assoc))]
fn tell_item(text: &mut Text, item: &WorkItem) -> Result<(), NoMemory>
    ensures added { OnOk result (text.new ≡ text.old ++ work_text (Some (work_of item.now))) }
    ensures kept { OnErr result (Begins text.old text.new) }
{
    match item {
        WorkItem::Send { operation, slot } => {
            text.of_id(b"send", *operation)?;
            text.number_word(*slot)
        }
        WorkItem::Collect {
            operation,
            slot,
            other,
        } => {
            text.of_id(b"collect", *operation)?;
            text.number_word(*slot)?;
            text.number_word(*other)
        }
        WorkItem::Advance { operation } => text.of_id(b"advance", *operation),
    }
}

// What a coordinator does next, if anything.
#[tactic(auto, using(std::proofs::lemmas::List::append_assoc))]
fn tell_work(text: &mut Text, item: &Option<WorkItem>) -> Result<(), NoMemory>
    ensures added { OnOk result (text.new ≡ text.old ++ (codes "work " ++ work_text (option_map work_of item.now))) }
    ensures kept { OnErr result (Begins text.old text.new) }
{
    text.add(b"work ")?;
    match item {
        None => text.add(b"none"),
        Some(item) => tell_item(text, item),
    }
}

// What may be removed.
#[tactic(auto, using(std::proofs::lemmas::List::append_assoc))]
fn tell_removable(text: &mut Text, targets: &[Removal]) -> Result<(), NoMemory>
    ensures added { OnOk result (text.new ≡ text.old ++ (codes "removable" ++ flat_map removal_words targets.now)) }
    ensures kept { OnErr result (Begins text.old text.new) }
{
    text.add(b"removable")?;
    text.each(b" ", targets)
}

// Rows with the ids of their columns.
#[tactic(auto, using(std::proofs::lemmas::List::append_assoc))]
fn tell_rows(text: &mut Text, gap: &[u8], rows: &[KeyedRow]) -> Result<(), NoMemory>
    ensures added { OnOk result (text.new ≡ text.old ++ (codes "rows" ++ number_word (length rows.now) ++ row_parts gap.now decimal rows.now)) }
    ensures kept { OnErr result (Begins text.old text.new) }
{
    text.of_number(b"rows", rows.len())?;
    text.row_parts(gap, &ById, rows)
}

// What a command has a tablet do.
#[tactic(auto, using(std::proofs::lemmas::List::append_assoc))]
fn tell_body(text: &mut Text, kind: BodyKind) -> Result<(), NoMemory>
    ensures added { OnOk result (text.new ≡ text.old ++ body_text (kind_seen kind)) }
    ensures kept { OnErr result (Begins text.old text.new) }
{
    match kind {
        BodyKind::Fence => text.add(b"fence"),
        BodyKind::Freeze => text.add(b"freeze"),
        BodyKind::RestoreFrom => text.add(b"restore_from"),
        BodyKind::Hide => text.add(b"hide"),
        BodyKind::Copy => text.add(b"copy"),
        BodyKind::Release => text.add(b"release"),
    }
}

// The command of an operation that a tablet did.
#[tactic(auto, using(std::proofs::lemmas::List::append_assoc))]
fn tell_done(text: &mut Text, operation: Ident, kind: BodyKind) -> Result<(), NoMemory>
    ensures added { OnOk result (text.new ≡ text.old ++ (codes "done" ++ id_word operation ++ word (body_text (kind_seen kind)))) }
    ensures kept { OnErr result (Begins text.old text.new) }
{
    text.of_id(b"done", operation)?;
    text.add(b" ")?;
    tell_body(text, kind)
}

// The state into which a record moved.
#[tactic(auto, using(std::proofs::lemmas::List::append_assoc))]
fn tell_advanced(text: &mut Text, state: State) -> Result<(), NoMemory>
    ensures added { OnOk result (text.new ≡ text.old ++ (codes "advanced" ++ word (state_text (state_of state)))) }
    ensures kept { OnErr result (Begins text.old text.new) }
{
    text.add(b"advanced")?;
    text.state_word(state)
}

// The cutoff of a tablet, and how many versions it has.
#[tactic(auto, using(std::proofs::lemmas::List::append_assoc))]
fn tell_versions(text: &mut Text, cutoff: HybridTime, versions: u64) -> Result<(), NoMemory>
    ensures added { OnOk result (text.new ≡ text.old ++ (codes "stats cutoff" ++ time_word cutoff ++ codes " versions" ++ number_word versions)) }
    ensures kept { OnErr result (Begins text.old text.new) }
{
    text.of_time(b"stats cutoff", cutoff)?;
    text.add(b" versions")?;
    text.number_word(versions)
}

// What a tablet has.
#[tactic(auto, using(std::proofs::lemmas::List::append_assoc))]
fn tell_counts(
    text: &mut Text,
    cutoff: HybridTime,
    versions: u64,
    frozen: u64,
    inbox: u64,
) -> Result<(), NoMemory>
    ensures added { OnOk result (text.new ≡ text.old ++ (codes "stats cutoff" ++ time_word cutoff ++ codes " versions" ++ number_word versions ++ codes " frozen" ++ number_word frozen ++ codes " inbox" ++ number_word inbox)) }
    ensures kept { OnErr result (Begins text.old text.new) }
{
    tell_versions(text, cutoff, versions)?;
    text.add(b" frozen")?;
    text.number_word(frozen)?;
    text.add(b" inbox")?;
    text.number_word(inbox)
}

// How many there are, and each behind a gap.
#[tactic(auto, using(std::proofs::lemmas::List::append_assoc))]
fn tell_list<T: Told>(
    text: &mut Text,
    gap: &[u8],
    things: &[u8],
    items: &[T],
) -> Result<(), NoMemory>
    ensures added { OnOk result (text.new ≡ text.old ++ list_text gap.now things.now T.told items.now) }
    ensures kept { OnErr result (Begins text.old text.new) }
{
    text.number(items.len())?;
    text.word(things)?;
    text.each(gap, items)
}

// Why an event is refused.
#[tactic(auto, using(std::proofs::lemmas::List::append_assoc))]
fn tell_refused(text: &mut Text, why: &Refusal) -> Result<(), NoMemory>
    ensures added { OnOk result (text.new ≡ text.old ++ (codes "refused " ++ refusal_text (refusal_of why.now))) }
    ensures kept { OnErr result (Begins text.old text.new) }
{
    text.add(b"refused ")?;
    tell_refusal(text, why)
}

// A reply, its parts behind a gap each, with the time of an accepted one where there is one.
#[tactic(auto, using(std::proofs::lemmas::List::append_assoc))]
pub(crate) fn tell_reply_with(
    text: &mut Text,
    gap: &[u8],
    when: Option<HybridTime>,
    reply: &Reply,
) -> Result<(), NoMemory>
    ensures added { OnOk result (text.new ≡ text.old ++ reply_text gap.now (when_text when) (reply_of reply.now)) }
    ensures kept { OnErr result (Begins text.old text.new) }
{
    match reply {
        Reply::Ok { made } => tell_made(text, when, made.as_slice()),
        Reply::Planned(slots) => text.of_slots(b"planned", slots),
        Reply::Placed {
            places,
            version,
            columns,
        } => tell_placed(text, places.as_slice(), *version, columns.as_slice()),
        Reply::Work(item) => tell_work(text, item),
        Reply::Removable(targets) => tell_removable(text, targets.as_slice()),
        Reply::Present(slots) => text.of_slots(b"present", slots),
        Reply::Rows(rows) => tell_rows(text, gap, rows.as_slice()),
        Reply::CutoffAt(cutoff) => text.of_time(b"cutoff_at", *cutoff),
        Reply::Compacted { before, after } => text.of_numbers(b"compacted", *before, *after),
        Reply::Sent => text.add(b"sent"),
        Reply::Done { operation, kind } => tell_done(text, *operation, *kind),
        Reply::Acked => text.add(b"acked"),
        Reply::Advanced(state) => tell_advanced(text, *state),
        Reply::Removed => text.add(b"removed"),
        Reply::Pruned(count) => text.of_number(b"pruned", *count),
        Reply::Stats {
            cutoff,
            versions,
            frozen,
            inbox,
        } => tell_counts(text, *cutoff, *versions, *frozen, *inbox),
        Reply::Empty => text.add(b"empty"),
        Reply::Schedules(lines) => tell_list(text, gap, b"schedules", lines.as_slice()),
        Reply::Snapshots(lines) => tell_list(text, gap, b"snapshots", lines.as_slice()),
        Reply::Restorations(lines) => tell_list(text, gap, b"restorations", lines.as_slice()),
        Reply::Clones(lines) => tell_list(text, gap, b"clones", lines.as_slice()),
        Reply::Tablets(lines) => tell_list(text, gap, b"tablets", lines.as_slice()),
        Reply::Refused(why) => tell_refused(text, why),
    }
}

/// The reply of an event with this stamp, on the line of a command.
#[tactic(auto, using(std::proofs::lemmas::List::append_assoc))]
pub fn tell_reply(text: &mut Text, stamp: HybridTime, reply: &Reply) -> Result<(), NoMemory>
    ensures added { OnOk result (text.new ≡ text.old ++ told_text stamp (reply_of reply.now)) }
    ensures kept { OnErr result (Begins text.old text.new) }
{
    tell_reply_with(text, b"\n  ", Some(stamp), reply)
}
