ghost use Rattle.std.specs.Prelude.{ℕ, ◌≡◌, ◌≢◌, [], true, false, None, OnOk, List, length, slice_get, drop};
ghost use Rattle.std.specs.Option.{option_copied};
ghost use Rattle.row_values.specs.Ids.{Id, same};
ghost use Rattle.std.specs.Cmp.{IsEquivalence};
ghost use Rattle.model.specs.Tablets as book;
ghost use Rattle.model.specs.Tablets.{Tablet, is_mark, is_done, holds_command, processed, restarted};
ghost use Rattle.row_values.specs.declared.rows.KeyedRow.{KeyedRow};
ghost use Rattle.tablet_inbox.specs.Seen.{kind_seen};

use crate::command::{Mark, TabletCommand};
use indexmap::IndexSet;
use row_values::NoMemory;
use std::alloc::Global;
use std::marker::Model;

/// The commands that wait for a tablet, and the marks of those that it did. Marks are found by an
/// index. Room for a command is also room for its mark.
#[derive(Drop)]
pub struct Inbox {
    commands: Vec<TabletCommand>,
    done: Vec<Mark>,
    known: IndexSet<Mark>,
    ready: bool,
}

impl Model for Inbox {
    ghost use Rattle.std.specs.Prelude.{◌≡◌, ◌≤◌, ◌-◌, ◌+◌, true, vec_len, vec_capacity};
    ghost use Rattle.std.specs.List.{list_any};
    ghost use Rattle.indexmap.specs.IndexSet.{spare, contains};
    ghost use Rattle.model.specs.Tablets.{Mark};
    ghost use Rattle.tablet_inbox.specs.View.{InboxView};

    ghost Value = { InboxView };

    ghost view = { λ i. record { inbox = i.commands.items; done = i.done.items; ready = i.ready } };

    ghost invariant = { λ i. record {
      known : (m : Mark) → contains ⟦<Mark as PartialEq>⟧.eq i.known m ≡ list_any (⟦<Mark as PartialEq>⟧.eq m) i.done.items;
      marks : vec_len i.commands ≤ vec_capacity i.done - vec_len i.done;
      places : vec_len i.commands ≤ spare i.known;
      room : i.ready ≡ true → (1 ≤ vec_capacity i.commands - vec_len i.commands)
          × (vec_len i.commands + 1 ≤ vec_capacity i.done - vec_len i.done) × (vec_len i.commands + 1 ≤ spare i.known);
    } };
}

impl Inbox {
    /// The empty inbox, which takes no memory.
    pub fn new(alloc: Global) -> Inbox
        ensures empty { result ≡ record { inbox = []; done = []; ready = false } }
    {
        Inbox {
            commands: Vec::new(alloc),
            done: Vec::new(alloc),
            known: IndexSet::new(alloc),
            ready: false,
        }
    }

    /// The number of commands that wait.
    pub fn len(&self) -> u64
        ensures count { result ≡ length self.now.inbox }
    {
        self.commands.len() as u64
    }

    /// Whether a command like this was done.
    pub fn is_done(&self, mark: Mark) -> bool
        ensures exact { result ≡ is_done self.now.done mark.operation mark.kind }
    {
        marks_agree();
        self.known.contains(&mark)
    }

    /// Whether a command like this waits.
    pub fn holds(&self, mark: Mark) -> bool
        ensures exact { result ≡ holds_command self.now.inbox mark.operation mark.kind }
    {
        has_command(self.commands.as_slice(), mark)
    }

    /// The first command that waits; `None` exactly where none does.
    pub fn next(&self) -> Option<&TabletCommand>
        ensures first { option_copied result ≡ slice_get self.now.inbox 0 }
    {
        self.commands.get(0)
    }

    /// Makes room for one more command, and for its mark.
    pub fn prepare_offer(&mut self) -> Result<(), NoMemory>
        ensures inbox { self.new.inbox ≡ self.old.inbox }
        ensures done { self.new.done ≡ self.old.done }
        ensures ready { OnOk result (self.new.ready ≡ true) }
    {
        if self.ready {
            return Ok(());
        }
        let count = self.commands.len();
        self.commands.reserve(1)?;
        self.done.reserve(count + 1)?;
        self.known.reserve(count + 1)?;
        self.ready = true;
        Ok(())
    }

    /// Puts a command behind the others, unless one like it waits or was done. It takes no memory.
    pub fn offer(&mut self, command: TabletCommand)
        requires ready { self.old.ready ≡ true }
        ensures offered { (n : ℕ) (t : Tablet) → t.inbox ≡ self.old.inbox → t.done ≡ self.old.done → self.new.inbox ≡ (book.offered command n t).inbox }
        ensures done { self.new.done ≡ self.old.done }
    {
        let mark = command.mark();
        if self.is_done(mark) || self.holds(mark) {
            return;
        }
        self.ready = false;
        self.commands.push(command).unwrap();
    }

    /// The first command is done: it is gone, and its mark stays. It takes no memory.
    pub fn mark_done(&mut self)
        requires waits { self.old.inbox ≢ [] }
        ensures inbox { (rows : List KeyedRow) (n : ℕ) (t : Tablet) → t.inbox ≡ self.old.inbox → t.done ≡ self.old.done → self.new.inbox ≡ (processed t.inbox rows n t).inbox }
        ensures done { (rows : List KeyedRow) (n : ℕ) (t : Tablet) → t.inbox ≡ self.old.inbox → t.done ≡ self.old.done → self.new.done ≡ (processed t.inbox rows n t).done }
        ensures ready { self.new.ready ≡ self.old.ready }
    {
        marks_agree();
        let command = self.commands.remove(0);
        let mark = command.mark();
        self.known.insert(mark).unwrap();
        self.done.push(mark).unwrap();
    }

    /// All commands that wait are lost, as by a restart. It takes no memory.
    pub fn lose_all(&mut self)
        ensures inbox { (n : ℕ) (t : Tablet) → self.new.inbox ≡ (restarted n t).inbox }
        ensures done { self.new.done ≡ self.old.done }
        ensures ready { self.new.ready ≡ self.old.ready }
    {
        self.commands.clear();
    }
}

/// The comparison of marks is the book's.
pub fn marks_agree()
    ensures marks { (a b : book.Mark) → ⟦<Mark as PartialEq>⟧.eq a b ≡ is_mark a.operation a.kind b }
    ensures laws { IsEquivalence ⟦<Mark as PartialEq>⟧.eq }
{}

// Whether there is a command like this.
fn has_command(commands: &[TabletCommand], mark: Mark) -> bool
    ensures exact { result ≡ holds_command commands.now mark.operation mark.kind }
{
    for command in commands {
        if command.mark() == mark {
            return true;
        }
    }
    false
}
