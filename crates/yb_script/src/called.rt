//! The words that the program is called with.

ghost use Rattle.std.specs.Prelude.{◌≡◌, ◌≤◌, IfSome};
ghost use Rattle.model.specs.Drawn.{most_slots};
ghost use Rattle.yb_script.specs.Called.{slots_asked};

/// The slots for tablets of a cluster of which the words don't tell how many it has.
const USUAL_SLOTS: u32 = 64;

/// How many slots the words ask for; `None` where they are no form.
pub fn slots_asked(words: &[String]) -> Option<u32>
    ensures exact { result ≡ slots_asked words.now }
    ensures few { IfSome result (λ slots. slots ≤ most_slots) }
{
    match words {
        [word] if word.as_str() == "run" => Some(USUAL_SLOTS),
        _ => None,
    }
}
