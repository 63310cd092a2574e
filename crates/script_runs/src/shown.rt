//! The lines that commands write.
ghost use Rattle.std.specs.Prelude.{◌≡◌, ◌++◌, List, ℕ, flat_map, OnOk, OnErr};
ghost use Rattle.row_values.specs.Schema.{Column};
ghost use Rattle.model_runs.specs.Running.{reply_line, read_text, events_text};
ghost use Rattle.model_runs.specs.Texts.{told_text, row_text, rows_text};
ghost use Rattle.model_runs.specs.HistoryTexts.{entry_line};
ghost use Rattle.machine_laws.specs.Past.{book_entry};
ghost use Rattle.cluster_events.specs.SeenReplies.{reply_of};
ghost use Rattle.script_courses.specs.SeenCourses.{showing_of};
ghost use Rattle.admin_words.specs.Growing.{Begins};
ghost use Rattle.script_runs.specs.Shown.{shown_by};

use admin_text::{tell_entry, tell_reply};
use admin_words::{ByName, Text};
use cluster_core::{Answer, Entries, Logged};
use cluster_events::Reply;
use hybrid_time::HybridTime;
use row_values::{KeyedRow, NoMemory};
use script_courses::{Showing, rows_of};
use table_schema::Column;

fn stamp_in(answer: &Answer) -> HybridTime
    ensures stamp { result ≡ answer.now.stamp }
{
    answer.stamp
}

pub(crate) fn reply_in(answer: &Answer) -> &Reply
    ensures reply { reply_of result.now ≡ answer.now.reply }
{
    &answer.reply
}

/// A reply with its stamp.
#[tactic(auto, using(std::proofs::lemmas::List::append_assoc))]
fn tell_answer(text: &mut Text, answer: &Answer) -> Result<(), NoMemory>
    ensures added { OnOk result (text.new ≡ text.old ++ told_text answer.now.stamp answer.now.reply) }
    ensures kept { OnErr result (Begins text.old text.new) }
{
    tell_reply(text, stamp_in(answer), reply_in(answer))
}

/// The row of a key, with the names of its columns.
#[tactic(auto, using(std::proofs::lemmas::List::append_assoc))]
fn tell_row(text: &mut Text, columns: &[Column], rows: &[KeyedRow]) -> Result<(), NoMemory>
    ensures added { OnOk result (text.new ≡ text.old ++ row_text columns.now rows.now) }
    ensures kept { OnErr result (Begins text.old text.new) }
{
    match rows {
        [] => text.add(b"none"),
        [first, ..] => {
            text.add(b"row")?;
            text.cell_words(&ByName { columns }, first.row.cells.as_slice())
        }
    }
}

/// How many rows there are, and each with the names of its columns.
#[tactic(auto, using(std::proofs::lemmas::List::append_assoc))]
fn tell_rows(text: &mut Text, columns: &[Column], rows: &[KeyedRow]) -> Result<(), NoMemory>
    ensures added { OnOk result (text.new ≡ text.old ++ rows_text columns.now rows.now) }
    ensures kept { OnErr result (Begins text.old text.new) }
{
    text.number(rows.len())?;
    text.add(b" rows")?;
    text.row_parts(b"\n  ", &ByName { columns }, rows)
}

/// The row of a read of a key; another reply as it is.
#[tactic(auto, using(std::proofs::lemmas::List::append_assoc))]
fn tell_read_row(text: &mut Text, columns: &[Column], answer: &Answer) -> Result<(), NoMemory>
    ensures added { OnOk result (text.new ≡ text.old ++ read_text (row_text columns.now) answer.now.stamp answer.now.reply) }
    ensures kept { OnErr result (Begins text.old text.new) }
{
    match rows_of(reply_in(answer)) {
        Some(rows) => tell_row(text, columns, rows.as_slice()),
        None => tell_answer(text, answer),
    }
}

/// The rows of a read; another reply as it is.
#[tactic(auto, using(std::proofs::lemmas::List::append_assoc))]
fn tell_read_rows(text: &mut Text, columns: &[Column], answer: &Answer) -> Result<(), NoMemory>
    ensures added { OnOk result (text.new ≡ text.old ++ read_text (rows_text columns.now) answer.now.stamp answer.now.reply) }
    ensures kept { OnErr result (Begins text.old text.new) }
{
    match rows_of(reply_in(answer)) {
        Some(rows) => tell_rows(text, columns, rows.as_slice()),
        None => tell_answer(text, answer),
    }
}

/// How many events there were.
#[tactic(auto, using(std::proofs::lemmas::List::append_assoc))]
fn tell_events(text: &mut Text, count: u64) -> Result<(), NoMemory>
    ensures added { OnOk result (text.new ≡ text.old ++ events_text count) }
    ensures kept { OnErr result (Begins text.old text.new) }
{
    text.number(count)?;
    text.add(b" events")
}

#[tactic(auto, using(std::proofs::lemmas::List::append_assoc))]
fn tell_shown(
    text: &mut Text,
    showing: Showing,
    columns: &[Column],
    answer: &Answer,
    count: u64,
) -> Result<(), NoMemory>
    ensures added { OnOk result (text.new ≡ text.old ++ shown_by (showing_of showing) columns.now answer.now count) }
    ensures kept { OnErr result (Begins text.old text.new) }
{
    match showing {
        Showing::Reply => tell_answer(text, answer),
        Showing::Row => tell_read_row(text, columns, answer),
        Showing::Table => tell_read_rows(text, columns, answer),
        Showing::Count => tell_events(text, count),
    }
}

/// The line of a command of one act: its reply.
#[tactic(auto, using(std::proofs::lemmas::List::append_assoc))]
pub(crate) fn tell_line(text: &mut Text, line: u64, answer: &Answer) -> Result<(), NoMemory>
    ensures added { OnOk result (text.new ≡ text.old ++ reply_line line (told_text answer.now.stamp answer.now.reply)) }
    ensures kept { OnErr result (Begins text.old text.new) }
{
    text.number(line)?;
    text.add(b": ")?;
    tell_answer(text, answer)?;
    text.add(b"\n")
}

/// The line of a command that looked, by the columns that were placed, the newest answer, and how many
/// acts followed.
#[tactic(auto, using(std::proofs::lemmas::List::append_assoc))]
pub(crate) fn tell_look_line(
    text: &mut Text,
    line: u64,
    showing: Showing,
    columns: &[Column],
    answer: &Answer,
    count: u64,
) -> Result<(), NoMemory>
    ensures added { OnOk result (text.new ≡ text.old ++ reply_line line (shown_by (showing_of showing) columns.now answer.now count)) }
    ensures kept { OnErr result (Begins text.old text.new) }
{
    text.number(line)?;
    text.add(b": ")?;
    tell_shown(text, showing, columns, answer, count)?;
    text.add(b"\n")
}

/// The line of a command that performed acts of a coordinator: how many.
#[tactic(auto, using(std::proofs::lemmas::List::append_assoc))]
pub(crate) fn tell_work_line(text: &mut Text, line: u64, count: u64) -> Result<(), NoMemory>
    ensures added { OnOk result (text.new ≡ text.old ++ reply_line line (events_text count)) }
    ensures kept { OnErr result (Begins text.old text.new) }
{
    text.number(line)?;
    text.add(b": ")?;
    tell_events(text, count)?;
    text.add(b"\n")
}

/// The line of an entry, as its log has it.
fn tell_logged(text: &mut Text, entry: &Logged) -> Result<(), NoMemory>
    ensures added { OnOk result (text.new ≡ text.old ++ entry_line (book_entry entry.now)) }
    ensures kept { OnErr result (Begins text.old text.new) }
{
    let answer = &entry.reply;
    tell_entry(
        text,
        entry.number,
        &entry.event,
        stamp_in(answer),
        reply_in(answer),
    )
}

/// The lines of entries, in their order.
pub(crate) fn tell_entries(text: &mut Text, entries: &Entries<'_>) -> Result<(), NoMemory>
    ensures added { OnOk result (text.new ≡ text.old ++ flat_map entry_line entries.now) }
    ensures kept { OnErr result (Begins text.old text.new) }
{
    for at in 0..entries.len() {
        if let Some(entry) = entries.get(at) {
            tell_logged(text, entry)?;
        }
    }
    Ok(())
}
