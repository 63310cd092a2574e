ghost use Rattle.std.specs.Prelude.{◌≡◌};
ghost use Rattle.model.specs.Times.{is_open};
ghost use Rattle.model.specs.Activity as book;
ghost use Rattle.catalog_tablets.specs.Slots.{lowered};
ghost use Rattle.catalog_tablets.specs.View.{routed, held, later_first, ends_at};

use crate::interval::Interval;
use crate::slots::SlotCounts;
use hybrid_time::HybridTime;
use kept_records::{Changes, Gathers, Tests};

// Finds the tablet of a code at a time.
#[derive(Drop)]
pub struct Routes {
    pub code: u16,
    pub x: HybridTime,
}

impl Gathers<Interval, Option<Interval>> for Routes {
    ghost step = { λ w i later. routed w.code w.x i later };

    fn step(&self, item: &Interval, later: Option<Interval>) -> Option<Interval> {
        if item.is_active_at(self.x) && item.range.holds(self.code) {
            Some(*item)
        } else {
            later
        }
    }
}

// Finds the active tablet of a code.
#[derive(Drop)]
pub struct Holds {
    pub code: u16,
}

impl Gathers<Interval, Option<Interval>> for Holds {
    ghost step = { λ w i later. held w.code i later };

    fn step(&self, item: &Interval, later: Option<Interval>) -> Option<Interval> {
        if item.to.is_none() && item.range.holds(self.code) {
            Some(*item)
        } else {
            later
        }
    }
}

// Finds the last interval.
#[derive(Drop)]
pub struct Last;

impl Gathers<Interval, Option<Interval>> for Last {
    ghost step = { λ _ i later. later_first i later };

    fn step(&self, item: &Interval, later: Option<Interval>) -> Option<Interval> {
        match later {
            Some(last) => Some(last),
            None => Some(*item),
        }
    }
}

// An open interval ends.
#[derive(Drop)]
pub struct Ends {
    pub at: HybridTime,
}

impl Changes<Interval> for Ends {
    ghost changed = { λ w i. ends_at w.at i };

    fn change(&self, item: &mut Interval) {
        if item.to.is_none() {
            item.to = Some(self.at);
        }
    }
}

// The slot of an interval that goes is used once less.
#[derive(Drop)]
pub struct Leaves;

impl Gathers<Interval, SlotCounts> for Leaves {
    ghost step = { λ _ i later. lowered i.slot later };

    fn step(&self, item: &Interval, later: SlotCounts) -> SlotCounts {
        let mut counts = later;
        counts.lower(item.slot);
        counts
    }
}

// Whether a tablet is active.
#[derive(Drop)]
pub struct Open;

impl Tests<Interval> for Open {
    ghost passes = { λ _ i. is_open i.to };

    fn passes(&self, item: &Interval) -> bool {
        item.to.is_none()
    }
}

// Whether a tablet was active at a time.
#[derive(Drop)]
pub struct ActiveAt {
    pub x: HybridTime,
}

impl Tests<Interval> for ActiveAt {
    ghost passes = { λ w i. book.active_at w.x i };

    fn passes(&self, item: &Interval) -> bool {
        item.is_active_at(self.x)
    }
}

// Whether a tablet was active at some time from one to another, both counted.
#[derive(Drop)]
pub struct ActiveBetween {
    pub a: HybridTime,
    pub b: HybridTime,
}

impl Tests<Interval> for ActiveBetween {
    ghost passes = { λ w i. book.active_between w.a w.b i };

    fn passes(&self, item: &Interval) -> bool {
        item.is_active_between(self.a, self.b)
    }
}
