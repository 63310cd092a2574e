//! Laws of the grammar, in its own words.

ghost use Rattle.std.specs.Prelude.{◌≡◌, ℕ, ◌<◌, ◌^◌, List, Option, true, Ok, Err};
ghost use Rattle.script_words.specs.declared.cause.Cause.{Cause};
ghost use Rattle.script_places.specs.Grammar.{SpelledIn, RefusedIn};
ghost use Rattle.model.specs.Scripts.{ScriptCommand};
ghost use Rattle.script_lang.specs.declared.script.ScriptLine.{ScriptLine};
ghost use Rattle.script_lang.specs.Table.{table, command_of};
ghost use Rattle.script_lang.specs.Script.{line_of, script_of};
ghost use Rattle.script_lang.specs.Grammar.{IsLine, LineRefused, IsScript, IsRefusedAt, is_text};

/// The words of a line are read as the command that they spell, and as no other; they are refused
/// for the first cause for which they spell none, and for no other.
pub fn what_spells_a_command_is_read_as_it()
    ensures read { (slots : ℕ) (command : ScriptCommand) (w : List ℕ) (ws : List (List ℕ)) → slots < 2 ^ 64
        → command_of slots w ws ≡ Ok command → SpelledIn slots table command w ws }
    ensures spelled { (slots : ℕ) (command : ScriptCommand) (w : List ℕ) (ws : List (List ℕ)) → slots < 2 ^ 64
        → SpelledIn slots table command w ws → command_of slots w ws ≡ Ok command }
    ensures refused { (slots : ℕ) (cause : Cause) (w : List ℕ) (ws : List (List ℕ)) → slots < 2 ^ 64
        → command_of slots w ws ≡ Err cause → RefusedIn slots table cause w ws }
    ensures wrong { (slots : ℕ) (cause : Cause) (w : List ℕ) (ws : List (List ℕ)) → slots < 2 ^ 64
        → RefusedIn slots table cause w ws → command_of slots w ws ≡ Err cause }
{}

/// A line is read as what it is in the grammar, and is refused for its first cause.
pub fn a_line_is_read_as_the_grammar_says()
    ensures read { (slots : ℕ) (line : List ℕ) (found : Option ScriptCommand) → slots < 2 ^ 64 → line_of slots line ≡ Ok found → IsLine slots line found }
    ensures line { (slots : ℕ) (line : List ℕ) (found : Option ScriptCommand) → slots < 2 ^ 64 → IsLine slots line found → line_of slots line ≡ Ok found }
    ensures refused { (slots : ℕ) (line : List ℕ) (cause : Cause) → slots < 2 ^ 64 → line_of slots line ≡ Err cause → LineRefused slots line cause }
    ensures wrong { (slots : ℕ) (line : List ℕ) (cause : Cause) → slots < 2 ^ 64 → LineRefused slots line cause → line_of slots line ≡ Err cause }
{}

/// What is read of a text is the script that it is, and a refusal names its first line that is not
/// in the grammar, with that line's first cause. So each text is a script or has such a line.
pub fn a_text_is_a_script_or_has_a_first_wrong_line()
    ensures read { (slots : ℕ) (text : List ℕ) (found : List ScriptLine) → slots < 2 ^ 64 → script_of slots text ≡ Ok found → IsScript slots text found }
    ensures script { (slots : ℕ) (text : List ℕ) (found : List ScriptLine) → slots < 2 ^ 64 → IsScript slots text found → script_of slots text ≡ Ok found }
    ensures refused { (slots n : ℕ) (text : List ℕ) (cause : Cause) → slots < 2 ^ 64 → script_of slots text ≡ Err (n, cause) → IsRefusedAt slots text n cause }
    ensures wrong { (slots n : ℕ) (text : List ℕ) (cause : Cause) → slots < 2 ^ 64 → IsRefusedAt slots text n cause → script_of slots text ≡ Err (n, cause) }
{}

/// A command has one meaning, a line that has one is not refused, and it is refused for one cause.
pub fn a_line_has_one_meaning()
    ensures one { (slots : ℕ) (line : List ℕ) (found other : Option ScriptCommand) → slots < 2 ^ 64 → IsLine slots line found → IsLine slots line other → found ≡ other }
    ensures never_both { (slots : ℕ) (line : List ℕ) (found : Option ScriptCommand) (cause : Cause) → slots < 2 ^ 64 → IsLine slots line found → ¬ (LineRefused slots line cause) }
    ensures one_cause { (slots : ℕ) (line : List ℕ) (cause other : Cause) → slots < 2 ^ 64 → LineRefused slots line cause → LineRefused slots line other → cause ≡ other }
{}

/// A script has no other bytes than those from 0x20 to 0x7e, line feeds, and carriage returns just
/// before line feeds.
pub fn no_other_byte_is_accepted()
    ensures bytes { (slots : ℕ) (text : List ℕ) (found : List ScriptLine) → IsScript slots text found → is_text text ≡ true }
{}
