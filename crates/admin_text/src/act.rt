ghost use Rattle.std.specs.Prelude.{◌≡◌, ◌++◌, codes, OnOk, OnErr};
ghost use Rattle.model_runs.specs.Texts.{word, number_word, id_word, slots_word, version_word};
ghost use Rattle.model_runs.specs.HistoryTexts.{command_text, batch_text, places_text, key_word, columns_word, asked_words, act_text};
ghost use Rattle.commands.specs.Seen.{command_of};
ghost use Rattle.cluster_events.specs.SeenActs.{act_of};
ghost use Rattle.admin_words.specs.Growing.{Begins};

use admin_words::Text;
use cluster_events::{Act, At};
use commands::Command;
use hybrid_time::HybridTime;
use row_values::{Item, Key, NoMemory, Slots};
use yb_ident::Ident;

// A command under its plan.
#[tactic(auto, using(std::proofs::lemmas::List::append_assoc))]
fn tell_change(text: &mut Text, slots: &Slots, command: &Command) -> Result<(), NoMemory>
    ensures added { OnOk result (text.new ≡ text.old ++ (codes "change" ++ slots_word slots.now ++ word (command_text (command_of command.now)))) }
    ensures kept { OnErr result (Begins text.old text.new) }
{
    text.of_slots(b"change", slots)?;
    text.add(b" ")?;
    text.command(command)
}

// The place of a write, and the version of the schema.
#[tactic(auto, using(std::proofs::lemmas::List::append_assoc))]
fn tell_place(text: &mut Text, slot: u32, tablet: Ident, version: u32) -> Result<(), NoMemory>
    ensures added { OnOk result (text.new ≡ text.old ++ (codes "write" ++ number_word slot ++ id_word tablet ++ version_word version)) }
    ensures kept { OnErr result (Begins text.old text.new) }
{
    text.of_number(b"write", slot)?;
    text.id_word(tablet)?;
    text.version_word(version)
}

// A write of a batch under a version of the schema.
#[tactic(auto, using(std::proofs::lemmas::List::append_assoc))]
fn tell_write(text: &mut Text, place: At, version: u32, batch: &[Item]) -> Result<(), NoMemory>
    ensures added { OnOk result (text.new ≡ text.old ++ (codes "write" ++ number_word place.slot ++ id_word place.tablet ++ version_word version ++ word (batch_text batch.now))) }
    ensures kept { OnErr result (Begins text.old text.new) }
{
    tell_place(text, place.slot, place.tablet, version)?;
    text.add(b" ")?;
    text.batch(batch)
}

// A key behind a space, or ` *` for all keys.
#[tactic(auto, using(std::proofs::lemmas::List::append_assoc))]
fn tell_key(text: &mut Text, key: &Option<Key>) -> Result<(), NoMemory>
    ensures added { OnOk result (text.new ≡ text.old ++ key_word key.now) }
    ensures kept { OnErr result (Begins text.old text.new) }
{
    match key {
        None => text.add(b" *"),
        Some(key) => text.word(key.as_slice()),
    }
}

// The ids of columns behind a space, or ` -` for none.
#[tactic(auto, using(std::proofs::lemmas::List::append_assoc))]
fn tell_columns(text: &mut Text, columns: &[u32]) -> Result<(), NoMemory>
    ensures added { OnOk result (text.new ≡ text.old ++ columns_word columns.now) }
    ensures kept { OnErr result (Begins text.old text.new) }
{
    match columns {
        [] => text.add(b" -"),
        [_, ..] => {
            text.add(b" ")?;
            text.numbers(columns)
        }
    }
}

// Where a read goes, and under which version of the schema.
#[tactic(auto, using(std::proofs::lemmas::List::append_assoc))]
fn tell_places(text: &mut Text, places: &[At], version: u32) -> Result<(), NoMemory>
    ensures added { OnOk result (text.new ≡ text.old ++ (codes "read" ++ word (places_text places.now) ++ version_word version)) }
    ensures kept { OnErr result (Begins text.old text.new) }
{
    text.add(b"read ")?;
    text.joined(b",", places)?;
    text.version_word(version)
}

// A read of a key or of all keys.
#[tactic(auto, using(std::proofs::lemmas::List::append_assoc))]
fn tell_read(
    text: &mut Text,
    places: &[At],
    version: u32,
    key: &Option<Key>,
    at: Option<HybridTime>,
    columns: &[u32],
) -> Result<(), NoMemory>
    ensures added { OnOk result (text.new ≡ text.old ++ (codes "read" ++ word (places_text places.now) ++ version_word version ++ key_word key.now ++ columns_word columns.now ++ asked_words at)) }
    ensures kept { OnErr result (Begins text.old text.new) }
{
    tell_places(text, places, version)?;
    tell_key(text, key)?;
    tell_columns(text, columns)?;
    text.asked_words(at)
}

// An operation and the slot of a tablet.
#[tactic(auto, using(std::proofs::lemmas::List::append_assoc))]
fn tell_order(text: &mut Text, name: &[u8], operation: Ident, slot: u32) -> Result<(), NoMemory>
    ensures added { OnOk result (text.new ≡ text.old ++ (name.now ++ id_word operation ++ number_word slot)) }
    ensures kept { OnErr result (Begins text.old text.new) }
{
    text.of_id(name, operation)?;
    text.number_word(slot)
}

// A removal.
#[tactic(auto, using(std::proofs::lemmas::List::append_assoc))]
fn tell_remove(text: &mut Text, target: Ident, slots: &Slots) -> Result<(), NoMemory>
    ensures added { OnOk result (text.new ≡ text.old ++ (codes "remove" ++ id_word target ++ slots_word slots.now)) }
    ensures kept { OnErr result (Begins text.old text.new) }
{
    text.of_id(b"remove", target)?;
    text.slots_word(slots.as_slice())
}

/// An act, as a history has it.
#[tactic(auto, using(std::proofs::lemmas::List::append_assoc))]
pub fn tell_act(text: &mut Text, act: &Act) -> Result<(), NoMemory>
    ensures added { OnOk result (text.new ≡ text.old ++ act_text (act_of act.now)) }
    ensures kept { OnErr result (Begins text.old text.new) }
{
    match act {
        Act::Look(ask) => text.ask(ask),
        Act::Change { command, slots } => tell_change(text, slots, command),
        Act::Write {
            place,
            version,
            batch,
        } => tell_write(text, *place, *version, batch.as_slice()),
        Act::Read {
            places,
            version,
            key,
            at,
            columns,
        } => tell_read(
            text,
            places.as_slice(),
            *version,
            key,
            *at,
            columns.as_slice(),
        ),
        Act::Cutoff { slot } => text.of_number(b"cutoff", *slot),
        Act::Compact { slot } => text.of_number(b"compact", *slot),
        Act::Send { operation, slot } => tell_order(text, b"send", *operation, *slot),
        Act::Process { slot, other } => text.of_numbers(b"process", *slot, *other),
        Act::Ack { operation, slot } => tell_order(text, b"ack", *operation, *slot),
        Act::Advance { operation } => text.of_id(b"advance", *operation),
        Act::Remove { target, slots } => tell_remove(text, *target, slots),
        Act::Prune => text.add(b"prune"),
        Act::Restart { slot } => text.of_number(b"restart", *slot),
        Act::Stats { slot } => text.of_number(b"stats", *slot),
    }
}
