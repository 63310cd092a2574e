//! Laws of numbers and of forms. `script_lang` has those of its own commands.

ghost use Rattle.std.specs.Prelude.{◌≡◌, ℕ, ◌<◌, ◌≤◌, ◌^◌, true, List, Some, Ok, Err, decimal};
ghost use Rattle.script_words.specs.declared.cause.Cause.{Cause};
ghost use Rattle.script_places.specs.Numbers.{number_of};
ghost use Rattle.script_places.specs.Places.{Form, read_form};
ghost use Rattle.script_places.specs.Grammar.{are_right, Spells, FormRefused};

/// A number is read of its decimal text, and of no other.
pub fn numbers_are_decimal()
    ensures read { (most n : ℕ) (w : List ℕ) → most < 2 ^ 64 → number_of most w ≡ Some n → (w ≡ decimal n) × (n ≤ most) }
    ensures all { (most n : ℕ) → most < 2 ^ 64 → n ≤ most → number_of most (decimal n) ≡ Some n }
{}

/// The words behind a command's own are read as the command that they spell, and as no other; they
/// are refused for the first cause for which they spell none, and for no other. It is so of each form
/// whose numbers have bounds of 64 bits and in which a place that takes all words stands last, also
/// of one that no command has yet.
pub fn what_spells_a_form_is_read_as_it<C>()
    ensures read { (slots : ℕ) (form : Form C) (command : C) (ws : List (List ℕ)) → slots < 2 ^ 64 → are_right form.places ≡ true
        → read_form slots form ws ≡ Ok command → Spells slots form.places form.makes command ws }
    ensures spelled { (slots : ℕ) (form : Form C) (command : C) (ws : List (List ℕ)) → slots < 2 ^ 64 → are_right form.places ≡ true
        → Spells slots form.places form.makes command ws → read_form slots form ws ≡ Ok command }
    ensures refused { (slots : ℕ) (form : Form C) (cause : Cause) (ws : List (List ℕ)) → slots < 2 ^ 64 → are_right form.places ≡ true
        → read_form slots form ws ≡ Err cause → FormRefused slots form cause ws }
    ensures wrong { (slots : ℕ) (form : Form C) (cause : Cause) (ws : List (List ℕ)) → slots < 2 ^ 64 → are_right form.places ≡ true
        → FormRefused slots form cause ws → read_form slots form ws ≡ Err cause }
{}
