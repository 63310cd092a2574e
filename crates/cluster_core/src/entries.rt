//! The entries of a history, in order of number.
ghost use Rattle.std.specs.Prelude.{◌≡◌, ◌≤◌, map, length, replicate, reverse, slice_get, Some, None, IfOk};
ghost use Rattle.std.specs.Option.{option_copied, option_map};
ghost use Rattle.step_table.specs.Lists.{Every};
ghost use Rattle.step_table.specs.Histories.{history_of};
ghost use Rattle.step_line.specs.Numbered.{placed};
ghost use Rattle.machine_laws.specs.Past.{book, book_entry};
ghost use Rattle.machine_laws.specs.Core.{core_of};
ghost use Rattle.cluster_core.specs.Coding.{coding};

use crate::answer::Answer;
use crate::machine::ClusterMachine;
use cluster_events::Event;
use row_values::NoMemory;
use std::alloc::Global;
use std::marker::Model;
use step_line::Line;
use step_table::Entry;
use versions::VersionStore;

/// An entry in the log of a part.
pub type Logged = Entry<Event, Answer>;

/// The entries of a history in order of number, each where its log has it. Contracts see the book's
/// entries. To make it takes a step an entry and a part; to read an entry takes one.
#[derive(Drop)]
pub struct Entries<'a> {
    places: Vec<Option<&'a Logged>>,
}

impl<'a> Model for Entries<'a> {
    ghost use Rattle.std.specs.Prelude.{◌≡◌, List, map, Some};
    ghost use Rattle.std.specs.Option.{option_copied};
    ghost use Rattle.step_line.specs.Places.{found};
    ghost use Rattle.model.specs.Entries.{Entry};
    ghost use Rattle.machine_laws.specs.Past.{book_entry};

    ghost Value = { List Entry };

    ghost view = { λ e. map book_entry (found (map option_copied e.places.items)) };

    ghost invariant = { λ e. map option_copied e.places.items ≡ map Some (found (map option_copied e.places.items)) };
}

impl<'a> Entries<'a> {
    /// Those in the logs of a line.
    pub(crate) fn of<V: VersionStore>(
        line: &'a Line<ClusterMachine<V>>,
    ) -> Result<Entries<'a>, NoMemory>
        ensures exact { IfOk result (λ entries. entries ≡ reverse (book (history_of (core_of coding) line.now.parts))) }
    {
        let places = places_of(line)?;
        Ok(Entries { places })
    }

    /// The number of entries.
    pub fn len(&self) -> u64
        ensures count { result ≡ length self.now }
    {
        self.places.len() as u64
    }

    /// The entry at this place, counted from 0: its number is one more. `None` from `len` on.
    pub fn get(&self, at: u64) -> Option<&'a Logged>
        ensures entry { option_map book_entry (option_copied result) ≡ slice_get self.now at }
    {
        match self.places.get(at as usize) {
            None => None,
            Some(place) => *place,
        }
    }
}

/// Puts each entry of a log in the place of its number.
fn place_entries<'a>(log: &'a [Logged], places: &mut Vec<Option<&'a Logged>>)
    requires within { Every (λ e. (1 ≤ e.number) × (e.number ≤ length places.old.items)) log.now }
    ensures placed { map option_copied places.new.items ≡ placed log.now (map option_copied places.old.items) }
{
    for entry in log {
        places[(entry.number - 1) as usize] = Some(entry);
    }
}

fn no_entries<'a>(alloc: Global, count: u64) -> Result<Vec<Option<&'a Logged>>, NoMemory>
    ensures exact { IfOk result (λ places. map option_copied places.items ≡ replicate count None) }
{
    let places = Vec::from_elem(alloc, None, count as usize)?;
    Ok(places)
}

/// The entries of all logs, each in the place of its number.
fn places_of<'a, V: VersionStore>(
    line: &'a Line<ClusterMachine<V>>,
) -> Result<Vec<Option<&'a Logged>>, NoMemory>
    ensures exact { IfOk result (λ places. map option_copied places.items ≡ map Some (history_of (core_of coding) line.now.parts)) }
{
    let mut places = no_entries(line.allocator(), line.len())?;
    for slot in 0..line.size() {
        place_entries(line.part(slot).entries(), &mut places);
    }
    Ok(places)
}
