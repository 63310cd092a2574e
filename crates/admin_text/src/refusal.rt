ghost use Rattle.std.specs.Prelude.{◌≡◌, ◌++◌, codes, OnOk, OnErr};
ghost use Rattle.row_values.specs.Ids as ids;
ghost use Rattle.model_runs.specs.Texts.{word, id_word, number_word, standing_text, refusal_text};
ghost use Rattle.tablet_inbox.specs.Seen.{id_or, standing_seen};
ghost use Rattle.cluster_events.specs.SeenReplies.{refusal_of};
ghost use Rattle.admin_words.specs.Growing.{Begins};

use admin_words::Text;
use cluster_events::Refusal;
use row_values::NoMemory;
use tablet_inbox::Standing;
use yb_ident::Ident;

// The identifier of a tablet behind a space, or that of nothing.
#[tactic(auto, using(std::proofs::lemmas::List::append_assoc))]
fn tell_tablet(text: &mut Text, tablet: Option<Ident>) -> Result<(), NoMemory>
    ensures added { OnOk result (text.new ≡ text.old ++ id_word (id_or ids.Tablet tablet)) }
    ensures kept { OnErr result (Begins text.old text.new) }
{
    match tablet {
        None => text.add(b" 00000003-0000-4000-8000-000000000000"),
        Some(tablet) => text.id_word(tablet),
    }
}

// What a part says of itself.
#[tactic(auto, using(std::proofs::lemmas::List::append_assoc))]
fn tell_standing(text: &mut Text, standing: Standing) -> Result<(), NoMemory>
    ensures added { OnOk result (text.new ≡ text.old ++ standing_text (standing_seen standing)) }
    ensures kept { OnErr result (Begins text.old text.new) }
{
    match standing {
        Standing::Empty => text.add(b"empty"),
        Standing::Serving { tablet, low, high } => {
            text.add(b"serving")?;
            tell_tablet(text, tablet)?;
            text.range_word(low, high)
        }
        Standing::Hidden { tablet, ended } => {
            text.add(b"hidden")?;
            tell_tablet(text, tablet)?;
            text.time_word(ended)
        }
    }
}

// A part that is not what was wanted of it.
#[tactic(auto, using(std::proofs::lemmas::List::append_assoc))]
fn tell_moved(text: &mut Text, slot: u32, standing: Standing) -> Result<(), NoMemory>
    ensures added { OnOk result (text.new ≡ text.old ++ (codes "moved" ++ number_word slot ++ word (standing_text (standing_seen standing)))) }
    ensures kept { OnErr result (Begins text.old text.new) }
{
    text.of_number(b"moved", slot)?;
    text.add(b" ")?;
    tell_standing(text, standing)
}

/// The name of a refusal and its values, in their order.
#[tactic(auto, using(std::proofs::lemmas::List::append_assoc))]
pub fn tell_refusal(text: &mut Text, why: &Refusal) -> Result<(), NoMemory>
    ensures added { OnOk result (text.new ≡ text.old ++ refusal_text (refusal_of why.now)) }
    ensures kept { OnErr result (Begins text.old text.new) }
{
    match why {
        Refusal::UnknownNamespace => text.add(b"unknown_namespace"),
        Refusal::UnknownTable => text.add(b"unknown_table"),
        Refusal::UnknownColumn => text.add(b"unknown_column"),
        Refusal::UnknownSchedule => text.add(b"unknown_schedule"),
        Refusal::UnknownSnapshot => text.add(b"unknown_snapshot"),
        Refusal::WrongKind => text.add(b"wrong_kind"),
        Refusal::BadPeriod {
            interval,
            retention,
        } => text.of_numbers(b"bad_period", *interval, *retention),
        Refusal::NameTaken { by } => text.of_id(b"name_taken", *by),
        Refusal::NotEmpty { table } => text.of_id(b"not_empty", *table),
        Refusal::UnderSchedule { schedule } => text.of_id(b"under_schedule", *schedule),
        Refusal::NoSchedule { namespace } => text.of_id(b"no_schedule", *namespace),
        Refusal::TooMany { limit } => text.of_number(b"too_many", *limit),
        Refusal::SlotsFull { free, needed } => text.of_numbers(b"slots_full", *free, *needed),
        Refusal::TooEarly { low } => text.of_time(b"too_early", *low),
        Refusal::Future { now } => text.of_time(b"future", *now),
        Refusal::Busy { operation } => text.of_id(b"busy", *operation),
        Refusal::Fenced { operation } => text.of_id(b"fenced", *operation),
        Refusal::Moved { slot, standing } => tell_moved(text, *slot, *standing),
        Refusal::StaleSchema { kept } => text.of_number(b"stale_schema", *kept),
        Refusal::StalePlan { kept } => text.of_slots(b"stale_plan", kept),
        Refusal::CrossTablet { first, other } => text.of_numbers(b"cross_tablet", *first, *other),
        Refusal::TooNarrow { low } => text.of_number(b"too_narrow", *low),
        Refusal::TooOld { asked, cutoff } => text.of_times(b"too_old", *asked, *cutoff),
        Refusal::NotDue { next } => text.of_time(b"not_due", *next),
        Refusal::NotPending { operation } => text.of_id(b"not_pending", *operation),
        Refusal::Idle => text.add(b"idle"),
        Refusal::OtherSlot { wanted } => text.of_number(b"other_slot", *wanted),
        Refusal::NotDone => text.add(b"not_done"),
        Refusal::Waiting { on } => text.of_id(b"waiting", *on),
        Refusal::InWindow { at, floor } => text.of_times(b"in_window", *at, *floor),
        Refusal::Listed { by } => text.of_id(b"listed", *by),
    }
}
