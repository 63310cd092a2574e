ghost use Rattle.std.specs.Prelude.{◌≡◌, ◌++◌, OnOk, OnErr};
ghost use Rattle.model_runs.specs.Texts.{value_text};
ghost use Rattle.admin_words.specs.Growing.{Begins};

use crate::text::Text;
use row_values::{NoMemory, Value};

#[tactic(auto, using(std::proofs::lemmas::List::append_assoc))]
impl Text {
    /// A number in decimal, a text in quotes, or `null`.
    pub fn value(&mut self, value: &Value) -> Result<(), NoMemory>
        ensures added { OnOk result (self.new ≡ self.old ++ value_text value.now) }
        ensures kept { OnErr result (Begins self.old self.new) }
    {
        match value {
            Value::Int(number) => self.number(*number),
            Value::Text(text) => {
                self.add(b"'")?;
                self.add(text.as_slice())?;
                self.add(b"'")
            }
            Value::Null => self.add(b"null"),
        }
    }
}
