ghost use Rattle.std.specs.Prelude.{◌≡◌, ◌++◌, OnOk, OnErr};
ghost use Rattle.model_runs.specs.Texts.{word, id_word, time_word, slots_word};
ghost use Rattle.admin_words.specs.Growing.{Begins};

use crate::text::Text;
use hybrid_time::HybridTime;
use itoa::Integer;
use row_values::{NoMemory, Slots};
use yb_ident::Ident;

#[tactic(auto, using(std::proofs::lemmas::List::append_assoc))]
impl Text {
    /// A name and an identifier.
    pub fn of_id(&mut self, name: &[u8], id: Ident) -> Result<(), NoMemory>
        ensures added { OnOk result (self.new ≡ self.old ++ (name.now ++ id_word id)) }
        ensures kept { OnErr result (Begins self.old self.new) }
    {
        self.add(name)?;
        self.id_word(id)
    }

    /// A name and a number.
    pub fn of_number<N: Integer>(&mut self, name: &[u8], number: N) -> Result<(), NoMemory>
        ensures added { OnOk result (self.new ≡ self.old ++ (name.now ++ word (N.text number))) }
        ensures kept { OnErr result (Begins self.old self.new) }
    {
        self.add(name)?;
        self.number_word(number)
    }

    /// A name and two numbers.
    pub fn of_numbers<N: Integer>(&mut self, name: &[u8], a: N, b: N) -> Result<(), NoMemory>
        ensures added { OnOk result (self.new ≡ self.old ++ (name.now ++ word (N.text a) ++ word (N.text b))) }
        ensures kept { OnErr result (Begins self.old self.new) }
    {
        self.of_number(name, a)?;
        self.number_word(b)
    }

    /// A name and a time.
    pub fn of_time(&mut self, name: &[u8], time: HybridTime) -> Result<(), NoMemory>
        ensures added { OnOk result (self.new ≡ self.old ++ (name.now ++ time_word time)) }
        ensures kept { OnErr result (Begins self.old self.new) }
    {
        self.add(name)?;
        self.time_word(time)
    }

    /// A name and two times.
    pub fn of_times(&mut self, name: &[u8], a: HybridTime, b: HybridTime) -> Result<(), NoMemory>
        ensures added { OnOk result (self.new ≡ self.old ++ (name.now ++ time_word a ++ time_word b)) }
        ensures kept { OnErr result (Begins self.old self.new) }
    {
        self.of_time(name, a)?;
        self.time_word(b)
    }

    /// A name and slots.
    pub fn of_slots(&mut self, name: &[u8], slots: &Slots) -> Result<(), NoMemory>
        ensures added { OnOk result (self.new ≡ self.old ++ (name.now ++ slots_word slots.now)) }
        ensures kept { OnErr result (Begins self.old self.new) }
    {
        self.add(name)?;
        self.slots_word(slots.as_slice())
    }
}
