ghost use Rattle.std.specs.Prelude.{◌≡◌, ◌||◌, ◌==◌, false};
ghost use Rattle.model.specs.Records as book;
ghost use Rattle.model.specs.Moves.{anew};

use crate::body::Body;
use row_values::{Copied, NoMemory, Records};
use std::marker::Model;
use yb_ident::Ident;

/// A tablet of an operation's record: where it is, what it is to do, and whether it has said that it
/// did. Contracts see it as the book's.
#[derive(Clone, Copy, Debug, PartialEq, Eq)]
pub struct Listed {
    pub tablet: Ident,
    pub slot: u32,
    pub body: Body,
    pub acked: bool,
}

impl Model for Listed {
    ghost use Rattle.model.specs.Records.{Listed};
    ghost use Rattle.tablet_inbox.specs.Seen.{body_of, body_from};

    ghost Value = { Listed };

    ghost view = { λ l. record { tablet = l.tablet; slot = l.slot; body = body_of l.body; acked = l.acked } };

    ghost inverse = { λ v. record { tablet = v.tablet; slot = v.slot; body = body_from v.body; acked = v.acked } };
}

impl Copied for Listed {
    fn copy(&self) -> Result<Listed, NoMemory> {
        Ok(*self)
    }
}

/// The listed tablet of a slot that has not said that it did its part. It takes no memory.
pub fn unacked_at(listed: &[Listed], slot: u32) -> Option<Listed>
    ensures exact { result ≡ book.unacked_at listed.now slot }
{
    for item in listed {
        if item.slot == slot && !item.acked {
            return Some(*item);
        }
    }
    None
}

/// Whether a tablet is listed. It takes no memory.
pub fn lists_tablet(listed: &[Listed], tablet: &Ident) -> bool
    ensures exact { result ≡ book.lists_tablet tablet.now listed.now }
{
    for item in listed {
        if item.tablet == *tablet {
            return true;
        }
    }
    false
}

/// The first listed tablet that has not said that it did its part. It takes no memory.
pub fn first_unacked(listed: &[Listed]) -> Option<Listed>
    ensures exact { result ≡ book.first_unacked listed.now }
{
    for item in listed {
        if !item.acked {
            return Some(*item);
        }
    }
    None
}

/// The tablet of a slot has said that it did its part. It takes no memory.
pub fn set_acked(listed: &mut Records<Listed>, slot: u32)
    ensures acked { listed.new ≡ book.acked_at slot listed.old }
{
    let none = Records::new(listed.allocator());
    let mut items = std::mem::replace(listed, none).into_vec();
    ack_items(&mut items, slot);
    *listed = Records::from_vec(items);
}

fn ack_items(items: &mut Vec<Listed>, slot: u32)
    ensures acked { items.new.items ≡ book.acked_at slot items.old.items }
{
    for item in items.iter_mut() {
        ack_item(item, slot);
    }
}

fn ack_item(item: &mut Listed, slot: u32)
    ensures acked { item.new ≡ record item.old { acked = item.old.acked || (item.old.slot == slot) } }
{
    if item.slot == slot {
        item.acked = true;
    }
}

/// No listed tablet has said anything. It takes no memory.
pub fn clear_acks(listed: &mut Records<Listed>)
    ensures anew { listed.new ≡ anew listed.old }
{
    let none = Records::new(listed.allocator());
    let mut items = std::mem::replace(listed, none).into_vec();
    clear_items(&mut items);
    *listed = Records::from_vec(items);
}

fn clear_items(items: &mut Vec<Listed>)
    ensures anew { items.new.items ≡ anew items.old.items }
{
    for item in items.iter_mut() {
        clear_item(item);
    }
}

fn clear_item(item: &mut Listed)
    ensures anew { item.new ≡ record item.old { acked = false } }
{
    item.acked = false;
}
