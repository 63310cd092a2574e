ghost use Rattle.std.specs.Prelude.{◌≡◌, ◌++◌, codes, flat_map, OnOk, OnErr};
ghost use Rattle.model_runs.specs.Texts.{word, id_word, number_word};
ghost use Rattle.model_runs.specs.HistoryTexts.{exact_words, new_column_word, command_text, asked_words, ask_text};
ghost use Rattle.table_schema.specs.Seen.{column_kind_of};
ghost use Rattle.commands.specs.Seen.{command_of, ask_of};
ghost use Rattle.admin_words.specs.Growing.{Begins};

use crate::text::Text;
use commands::{Ask, Command};
use hybrid_time::HybridTime;
use row_values::{Name, NoMemory, Records};
use table_schema::{Kind, NewColumn};
use yb_ident::Ident;

#[tactic(auto, using(std::proofs::lemmas::List::append_assoc))]
impl Text {
    // ` ht <n>`
    fn exact_words(&mut self, time: HybridTime) -> Result<(), NoMemory>
        ensures added { OnOk result (self.new ≡ self.old ++ exact_words time) }
        ensures kept { OnErr result (Begins self.old self.new) }
    {
        self.add(b" ht")?;
        self.number_word(time.number())
    }

    // `<name>:<kind>` behind a space.
    fn new_column_word(&mut self, name: &Name, kind: Kind) -> Result<(), NoMemory>
        ensures added { OnOk result (self.new ≡ self.old ++ new_column_word name.now (column_kind_of kind)) }
        ensures kept { OnErr result (Begins self.old self.new) }
    {
        self.word(name.as_slice())?;
        self.add(b":")?;
        self.column_kind(kind)
    }

    // A word and the name of a namespace.
    fn in_namespace(&mut self, line: &[u8], namespace: &Name) -> Result<(), NoMemory>
        ensures added { OnOk result (self.new ≡ self.old ++ (line.now ++ word namespace.now)) }
        ensures kept { OnErr result (Begins self.old self.new) }
    {
        self.add(line)?;
        self.word(namespace.as_slice())
    }

    // A word and the names of a table's namespace and of the table, or of two namespaces.
    fn in_table(&mut self, line: &[u8], namespace: &Name, table: &Name) -> Result<(), NoMemory>
        ensures added { OnOk result (self.new ≡ self.old ++ (line.now ++ word namespace.now ++ word table.now)) }
        ensures kept { OnErr result (Begins self.old self.new) }
    {
        self.in_namespace(line, namespace)?;
        self.word(table.as_slice())
    }

    // A word, the names of a table's namespace and of the table, and one more name.
    fn named_in_table(
        &mut self,
        line: &[u8],
        namespace: &Name,
        table: &Name,
        name: &Name,
    ) -> Result<(), NoMemory>
        ensures added { OnOk result (self.new ≡ self.old ++ (line.now ++ word namespace.now ++ word table.now ++ word name.now)) }
        ensures kept { OnErr result (Begins self.old self.new) }
    {
        self.in_table(line, namespace, table)?;
        self.word(name.as_slice())
    }

    // A word and what a table is made of.
    fn new_table(
        &mut self,
        line: &[u8],
        namespace: &Name,
        table: &Name,
        tablets: u32,
        columns: &Records<NewColumn>,
    ) -> Result<(), NoMemory>
        ensures added { OnOk result (self.new ≡ self.old ++ (line.now ++ word namespace.now ++ word table.now
            ++ codes " tablets" ++ number_word tablets
            ++ flat_map (λ c. new_column_word c.name c.kind) columns.now)) }
        ensures kept { OnErr result (Begins self.old self.new) }
    {
        self.in_table(line, namespace, table)?;
        self.add(b" tablets")?;
        self.number_word(tablets)?;
        self.each(b" ", columns.as_slice())
    }

    // Two numbers, each behind a space.
    fn period_words(&mut self, interval: u64, retention: u64) -> Result<(), NoMemory>
        ensures added { OnOk result (self.new ≡ self.old ++ (number_word interval ++ number_word retention)) }
        ensures kept { OnErr result (Begins self.old self.new) }
    {
        self.number_word(interval)?;
        self.number_word(retention)
    }

    /// A command, as a script writes it, with whole times.
    pub fn command(&mut self, command: &Command) -> Result<(), NoMemory>
        ensures added { OnOk result (self.new ≡ self.old ++ command_text (command_of command.now)) }
        ensures kept { OnErr result (Begins self.old self.new) }
    {
        match command {
            Command::CreateNamespace { namespace } => {
                self.in_namespace(b"create_namespace", namespace)
            }
            Command::DropNamespace { namespace } => self.in_namespace(b"drop_namespace", namespace),
            Command::CreateTable {
                namespace,
                table,
                tablets,
                columns,
            } => self.new_table(b"create_table", namespace, table, *tablets, columns),
            Command::AddColumn {
                namespace,
                table,
                name,
                kind,
            } => {
                self.in_table(b"add_column", namespace, table)?;
                self.new_column_word(name, *kind)
            }
            Command::DropColumn {
                namespace,
                table,
                name,
            } => self.named_in_table(b"drop_column", namespace, table, name),
            Command::RenameTable {
                namespace,
                table,
                name,
            } => self.named_in_table(b"rename_table", namespace, table, name),
            Command::DropTable { namespace, table } => {
                self.in_table(b"drop_table", namespace, table)
            }
            Command::Split {
                namespace,
                table,
                code,
            } => {
                self.in_table(b"split", namespace, table)?;
                self.number_word(*code)
            }
            Command::CreateSnapshotSchedule {
                interval,
                retention,
                namespace,
            } => {
                self.add(b"create_snapshot_schedule")?;
                self.period_words(*interval, *retention)?;
                self.word(namespace.as_slice())
            }
            Command::EditSnapshotSchedule {
                schedule,
                interval,
                retention,
            } => {
                self.of_id(b"edit_snapshot_schedule", *schedule)?;
                self.period_words(*interval, *retention)
            }
            Command::DeleteSnapshotSchedule { schedule } => {
                self.of_id(b"delete_snapshot_schedule", *schedule)
            }
            Command::TakeSnapshot { schedule } => self.of_id(b"take_snapshot", *schedule),
            Command::RestoreSnapshotSchedule { schedule, to } => {
                self.of_id(b"restore_snapshot_schedule", *schedule)?;
                self.exact_words(*to)
            }
            Command::CloneNamespace { source, target, to } => {
                self.in_table(b"clone_namespace", source, target)?;
                match to {
                    None => Ok(()),
                    Some(to) => self.exact_words(*to),
                }
            }
            Command::ListSnapshotSchedules => self.add(b"list_snapshot_schedules"),
            Command::ListSnapshots => self.add(b"list_snapshots"),
            Command::ListSnapshotRestorations => self.add(b"list_snapshot_restorations"),
            Command::ListClones => self.add(b"list_clones"),
            Command::ListTablets { namespace } => self.in_namespace(b"list_tablets", namespace),
        }
    }

    /// ` at <n>` where a time is asked.
    pub fn asked_words(&mut self, at: Option<HybridTime>) -> Result<(), NoMemory>
        ensures added { OnOk result (self.new ≡ self.old ++ asked_words at) }
        ensures kept { OnErr result (Begins self.old self.new) }
    {
        match at {
            None => Ok(()),
            Some(at) => {
                self.add(b" at")?;
                self.number_word(at.number())
            }
        }
    }

    /// What a look asks.
    pub fn ask(&mut self, ask: &Ask) -> Result<(), NoMemory>
        ensures added { OnOk result (self.new ≡ self.old ++ ask_text (ask_of ask.now)) }
        ensures kept { OnErr result (Begins self.old self.new) }
    {
        match ask {
            Ask::Plan(command) => {
                self.add(b"look ")?;
                self.command(command)
            }
            Ask::Keys {
                namespace,
                table,
                batch,
                at,
            } => {
                self.in_table(b"look_keys", namespace, table)?;
                self.add(b" ")?;
                self.named_batch(batch.as_slice())?;
                self.asked_words(*at)
            }
            Ask::Table {
                namespace,
                table,
                at,
            } => {
                self.in_table(b"look_table", namespace, table)?;
                self.asked_words(*at)
            }
            Ask::Work => self.add(b"look_work"),
            Ask::Removable => self.add(b"look_removable"),
            Ask::Present => self.add(b"look_present"),
        }
    }
}
