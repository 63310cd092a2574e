ghost use Rattle.std.specs.Prelude.{◌≡◌, ◌++◌, [], ◌∷◌, codes, OnOk, OnErr};
ghost use Rattle.std.specs.Fmt.{decimal};
ghost use Rattle.model_runs.specs.Texts.{word, number_word, time_word, history_gap, reply_text};
ghost use Rattle.model_runs.specs.HistoryTexts.{act_text, entry_line};
ghost use Rattle.cluster_events.specs.SeenReplies.{reply_of};
ghost use Rattle.admin_words.specs.Growing.{Begins};

use crate::act::tell_act;
use crate::reply::tell_reply_with;
use admin_words::Text;
use cluster_events::{Event, Reply};
use hybrid_time::HybridTime;
use row_values::NoMemory;

// The number of an entry, who asked, and when.
#[tactic(auto, using(std::proofs::lemmas::List::append_assoc))]
fn tell_head(
    text: &mut Text,
    number: u64,
    caller: u32,
    reading: u64,
    stamp: HybridTime,
) -> Result<(), NoMemory>
    ensures added { OnOk result (text.new ≡ text.old ++ (codes "#" ++ decimal number ++ number_word caller ++ number_word reading ++ time_word stamp)) }
    ensures kept { OnErr result (Begins text.old text.new) }
{
    text.add(b"#")?;
    text.number(number)?;
    text.number_word(caller)?;
    text.number_word(reading)?;
    text.time_word(stamp)
}

// What an event did, behind a space.
#[tactic(auto, using(std::proofs::lemmas::List::append_assoc))]
fn tell_event(text: &mut Text, event: &Event) -> Result<(), NoMemory>
    ensures added { OnOk result (text.new ≡ text.old ++ word (act_text event.now.act)) }
    ensures kept { OnErr result (Begins text.old text.new) }
{
    text.add(b" ")?;
    tell_act(text, event.act())
}

// What an event answered, and the end of the line.
#[tactic(auto, using(std::proofs::lemmas::List::append_assoc))]
fn tell_answer(text: &mut Text, reply: &Reply) -> Result<(), NoMemory>
    ensures added { OnOk result (text.new ≡ text.old ++ (codes " => " ++ reply_text history_gap [] (reply_of reply.now) ++ 10 ∷ [])) }
    ensures kept { OnErr result (Begins text.old text.new) }
{
    text.add(b" => ")?;
    tell_reply_with(text, b" | ", None, reply)?;
    text.add(b"\n")
}

/// The line of an entry in a history.
#[tactic(auto, using(std::proofs::lemmas::List::append_assoc))]
pub fn tell_entry(
    text: &mut Text,
    number: u64,
    event: &Event,
    stamp: HybridTime,
    reply: &Reply,
) -> Result<(), NoMemory>
    ensures added { OnOk result (text.new ≡ text.old ++ entry_line (record { number = number; event = event.now; stamp = stamp; reply = reply_of reply.now })) }
    ensures kept { OnErr result (Begins text.old text.new) }
{
    tell_head(text, number, event.caller(), event.reading(), stamp)?;
    tell_event(text, event)?;
    tell_answer(text, reply)
}
