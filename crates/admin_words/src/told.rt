ghost use Rattle.std.specs.Prelude.{◌≡◌, ◌++◌, flat_map, List, ℕ, OnOk, OnErr};
ghost use Rattle.std.specs.Fmt.{decimal};
ghost use Rattle.std.specs.List.{join_by};
ghost use Rattle.row_values.specs.Ids.{id_text};
ghost use Rattle.model_runs.specs.Texts.{slots_word, numbers_text};
ghost use Rattle.admin_words.specs.Growing.{Begins};

use crate::text::Text;
use row_values::NoMemory;
use yb_ident::Ident;

/// What has a text.
pub trait Told {
    ghost told: { Self → List ℕ };

    /// Puts its text at the end of another.
    fn tell(&self, text: &mut Text) -> Result<(), NoMemory>
        ensures added { OnOk result (text.new ≡ text.old ++ told self.now) }
        ensures kept { OnErr result (Begins text.old text.new) };
}

#[tactic(auto, using(std::proofs::lemmas::List::append_assoc))]
impl Told for u32 {
    ghost told = { decimal };

    fn tell(&self, text: &mut Text) -> Result<(), NoMemory> {
        text.number(*self)
    }
}

#[tactic(auto, using(std::proofs::lemmas::List::append_assoc))]
impl Told for Ident {
    ghost told = { id_text };

    fn tell(&self, text: &mut Text) -> Result<(), NoMemory> {
        text.id(*self)
    }
}

#[tactic(auto, using(std::proofs::lemmas::List::append_assoc))]
impl Text {
    /// The texts of items, each behind a gap.
    pub fn each<T: Told>(&mut self, gap: &[u8], items: &[T]) -> Result<(), NoMemory>
        ensures added { OnOk result (self.new ≡ self.old ++ flat_map (λ item. gap.now ++ T.told item) items.now) }
        ensures kept { OnErr result (Begins self.old self.new) }
    {
        for item in items {
            self.add(gap)?;
            item.tell(self)?;
        }
        Ok(())
    }

    /// The texts of items with a separator between them.
    pub fn joined<T: Told>(&mut self, separator: &[u8], items: &[T]) -> Result<(), NoMemory>
        ensures added { OnOk result (self.new ≡ self.old ++ join_by T.told separator.now items.now) }
        ensures kept { OnErr result (Begins self.old self.new) }
    {
        match items {
            [] => Ok(()),
            [first, rest @ ..] => {
                first.tell(self)?;
                self.each(separator, rest)
            }
        }
    }

    /// Numbers with commas between them.
    pub fn numbers(&mut self, numbers: &[u32]) -> Result<(), NoMemory>
        ensures added { OnOk result (self.new ≡ self.old ++ numbers_text numbers.now) }
        ensures kept { OnErr result (Begins self.old self.new) }
    {
        self.joined(b",", numbers)
    }

    /// Slots behind a space, as `[1,2]`.
    pub fn slots_word(&mut self, slots: &[u32]) -> Result<(), NoMemory>
        ensures added { OnOk result (self.new ≡ self.old ++ slots_word slots.now) }
        ensures kept { OnErr result (Begins self.old self.new) }
    {
        self.add(b" [")?;
        self.numbers(slots)?;
        self.add(b"]")
    }
}
