ghost use Rattle.std.specs.Prelude.{◌≡◌, ◌++◌, [], OnOk, OnErr};
ghost use Rattle.row_values.specs.Ids.{id_text};
ghost use Rattle.model_runs.specs.Texts.{word, id_word, time_text, time_word, range_word, version_word};
ghost use Rattle.admin_words.specs.Growing.{Begins};

use hybrid_time::HybridTime;
use itoa::{Buffer, Integer};
use row_values::{Bytes, NoMemory};
use std::alloc::Global;
use std::marker::Model;
use uuid::Uuid;
use yb_ident::Ident;

/// A text that grows at its end, which contracts see as its bytes. Where memory runs out, a part of
/// what was to come may stand behind what stood.
#[derive(Debug, Drop)]
pub struct Text {
    bytes: Vec<u8>,
}

impl Model for Text {
    ghost use Rattle.std.specs.Prelude.{List, ℕ};

    ghost Value = { List ℕ };

    ghost view = { λ text. text.bytes.items };
}

#[tactic(auto, using(std::proofs::lemmas::List::append_assoc))]
impl Text {
    /// The empty text, which takes no memory.
    pub fn new(alloc: Global) -> Text
        ensures empty { result ≡ [] }
    {
        Text {
            bytes: Vec::new(alloc),
        }
    }

    /// Its bytes, without taking memory.
    pub fn into_bytes(self) -> Bytes
        ensures same { result ≡ self }
    {
        let Text { bytes } = self;
        Bytes::from_vec(bytes)
    }

    /// The bytes, to be read.
    pub fn as_slice(&self) -> &[u8]
        ensures same { result.now ≡ self.now }
    {
        self.bytes.as_slice()
    }

    /// Puts bytes at the end.
    pub fn add(&mut self, bytes: &[u8]) -> Result<(), NoMemory>
        ensures added { OnOk result (self.new ≡ self.old ++ bytes.now) }
        ensures kept { OnErr result (Begins self.old self.new) }
    {
        self.bytes.extend_from_slice(bytes)?;
        Ok(())
    }

    /// Bytes behind a space.
    pub fn word(&mut self, bytes: &[u8]) -> Result<(), NoMemory>
        ensures added { OnOk result (self.new ≡ self.old ++ word bytes.now) }
        ensures kept { OnErr result (Begins self.old self.new) }
    {
        self.add(b" ")?;
        self.add(bytes)
    }

    /// A number in decimal, as `{}` writes it.
    pub fn number<N: Integer>(&mut self, number: N) -> Result<(), NoMemory>
        ensures added { OnOk result (self.new ≡ self.old ++ N.text number) }
        ensures kept { OnErr result (Begins self.old self.new) }
    {
        let mut buffer = Buffer::new();
        self.add(buffer.format(number).as_bytes())
    }

    /// A number behind a space.
    pub fn number_word<N: Integer>(&mut self, number: N) -> Result<(), NoMemory>
        ensures added { OnOk result (self.new ≡ self.old ++ word (N.text number)) }
        ensures kept { OnErr result (Begins self.old self.new) }
    {
        self.add(b" ")?;
        self.number(number)
    }

    /// A time, as `<micros>.<logical>`.
    pub fn time(&mut self, time: HybridTime) -> Result<(), NoMemory>
        ensures added { OnOk result (self.new ≡ self.old ++ time_text time) }
        ensures kept { OnErr result (Begins self.old self.new) }
    {
        self.number(time.micros())?;
        self.add(b".")?;
        self.number(time.logical())
    }

    /// A time behind a space.
    pub fn time_word(&mut self, time: HybridTime) -> Result<(), NoMemory>
        ensures added { OnOk result (self.new ≡ self.old ++ time_word time) }
        ensures kept { OnErr result (Begins self.old self.new) }
    {
        self.add(b" ")?;
        self.time(time)
    }

    /// An identifier.
    pub fn id(&mut self, id: Ident) -> Result<(), NoMemory>
        ensures added { OnOk result (self.new ≡ self.old ++ id_text id) }
        ensures kept { OnErr result (Begins self.old self.new) }
    {
        let id = Uuid::from_bytes(id.bytes());
        let mut buffer = Uuid::encode_buffer();
        self.add(id.hyphenated().encode_lower(&mut buffer).as_bytes())
    }

    /// An identifier behind a space.
    pub fn id_word(&mut self, id: Ident) -> Result<(), NoMemory>
        ensures added { OnOk result (self.new ≡ self.old ++ id_word id) }
        ensures kept { OnErr result (Begins self.old self.new) }
    {
        self.add(b" ")?;
        self.id(id)
    }

    /// The range of codes from `low` up to and without `high`, as `<low>..<high>` behind a space.
    pub fn range_word(&mut self, low: u32, high: u32) -> Result<(), NoMemory>
        ensures added { OnOk result (self.new ≡ self.old ++ range_word low high) }
        ensures kept { OnErr result (Begins self.old self.new) }
    {
        self.number_word(low)?;
        self.add(b"..")?;
        self.number(high)
    }

    /// The version of a schema, as `v<version>` behind a space.
    pub fn version_word(&mut self, version: u32) -> Result<(), NoMemory>
        ensures added { OnOk result (self.new ≡ self.old ++ version_word version) }
        ensures kept { OnErr result (Begins self.old self.new) }
    {
        self.add(b" v")?;
        self.number(version)
    }
}
