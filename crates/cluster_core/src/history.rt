//! A history that was taken out of a cluster.
ghost use Rattle.std.specs.Prelude.{◌≡◌, ◌==◌, [], length};
ghost use Rattle.std.specs.List.{find};
ghost use Rattle.std.specs.Option.{option_copied, option_map};
ghost use Rattle.step_table.specs.Histories.{history_of, IsNumbered};
ghost use Rattle.step_line.specs.Numbered.{in_logs};
ghost use Rattle.machine_laws.specs.Past.{book_entry};
ghost use Rattle.machine_laws.specs.Core.{core_of};
ghost use Rattle.cluster_core.specs.Coding.{coding};
ghost use Rattle.cluster_core.specs.Logs.{logged_in};

use crate::entries::Logged;
use crate::machine::ClusterMachine;
use std::marker::Model;
use step_line::Line;
use versions::VersionStore;

/// What the logs of a cluster hold. It keeps the cluster's parts, so that it is made without memory.
/// Contracts see the book's entries, the newest first.
#[derive(Drop)]
pub struct History<V: VersionStore> {
    line: Option<Line<ClusterMachine<V>>>,
}

impl<V: VersionStore> Model for History<V> {
    ghost use Rattle.std.specs.Prelude.{List};
    ghost use Rattle.model.specs.Entries.{Entry};
    ghost use Rattle.cluster_core.specs.Logs.{logged_in};

    ghost Value = { List Entry };

    ghost view = { λ h. logged_in h.line };
}

impl<V: VersionStore> History<V> {
    /// That of no cluster.
    pub fn empty() -> History<V>
        ensures empty { result ≡ [] }
    {
        History { line: None }
    }

    /// That of a line.
    pub(crate) fn of(line: Line<ClusterMachine<V>>) -> History<V>
        ensures same { result ≡ logged_in (Some line) }
    {
        History { line: Some(line) }
    }

    /// The number of entries.
    pub fn len(&self) -> u64
        ensures count { result ≡ length self.now }
    {
        match &self.line {
            None => 0,
            Some(line) => line.len(),
        }
    }

    /// The entry of a number; `None` exactly where none has it. It is looked for in one log after the
    /// other: whoever reads many takes `Cluster::entries`.
    pub fn get(&self, number: u64) -> Option<&Logged>
        ensures entry { option_map book_entry (option_copied result) ≡ find (λ e. e.number == number) self.now }
    {
        match &self.line {
            None => None,
            Some(line) => entry_of(line, number),
        }
    }
}

/// The entry of a number in a log.
fn entry_in(log: &[Logged], number: u64) -> Option<&Logged>
    ensures exact { option_copied result ≡ find (λ e. e.number == number) log.now }
{
    for entry in log {
        if entry.number == number {
            return Some(entry);
        }
    }
    None
}

/// The entry of a number in any log of a line.
fn entry_of<V: VersionStore>(line: &Line<ClusterMachine<V>>, number: u64) -> Option<&Logged>
    ensures exact { option_copied result ≡ find (λ e. e.number == number) (history_of (core_of coding) line.now.parts) }
    ensures numbered { IsNumbered 1 (history_of (core_of coding) line.now.parts) }
{
    if line.len() < number {
        return None;
    }
    entry_in_logs(line, number)
}

fn entry_in_logs<V: VersionStore>(line: &Line<ClusterMachine<V>>, number: u64) -> Option<&Logged>
    ensures exact { option_copied result ≡ in_logs (core_of coding) number line.now.parts }
{
    for slot in 0..line.size() {
        let found = entry_in(line.part(slot).entries(), number);
        if found.is_some() {
            return found;
        }
    }
    None
}
