//! Laws of lines and words.

ghost use Rattle.std.specs.Prelude.{◌≡◌, [], ◌∷◌, ◌++◌, List, ℕ, true, false, Ok};
ghost use Rattle.script_words.specs.Lines.{lines_of, has_feed, chop};
ghost use Rattle.script_words.specs.Words.{is_plain, is_open, words_of};
ghost use Rattle.script_words.specs.Reading.{words_of_line};
ghost use Rattle.script_words.specs.Layout.{IsLaidOut};

/// A line feed ends a line, and a carriage return just before it is dropped; what no line feed ends
/// is a line of its own, if it isn't empty.
pub fn a_line_feed_ends_a_line()
    ensures ended { (line rest : List ℕ) → has_feed line ≡ false → lines_of (line ++ 10 ∷ rest) ≡ chop line ∷ lines_of rest }
    ensures last { (b : ℕ) (line : List ℕ) → has_feed (b ∷ line) ≡ false → lines_of (b ∷ line) ≡ (b ∷ line) ∷ [] }
{}

/// The words of a line are those that are laid out in it, and a line has a layout exactly where each
/// quoted run is ended.
pub fn words_are_those_that_are_laid_out()
    ensures read { (line : List ℕ) → is_open false line ≡ false → IsLaidOut (words_of line) line }
    ensures all { (words : List (List ℕ)) (line : List ℕ) → IsLaidOut words line → (is_open false line ≡ false) × (words_of line ≡ words) }
{}

/// A line with another byte than a printed one has no words.
pub fn words_of_a_text_are_printed()
    ensures printed { (words : List (List ℕ)) (line : List ℕ) → words_of_line line ≡ Ok words → is_plain line ≡ true }
{}
