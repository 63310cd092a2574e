ghost use Rattle.std.specs.Prelude.{◌≡◌, ◌≤◌, ◌<◌, ◌+◌, ◌-◌, ◌^◌, ◌++◌, ◌∷◌, [], length};
ghost use Rattle.model.specs.Changed.{begins, children, next_tablet, shares};

use crate::interval::Interval;
use crate::tablets::Tablets;
use hybrid_time::HybridTime;
use partition_codes::{Range, halves, share};
use yb_ident::{Ident, Kind};

// The tablet that was drawn with a number.
fn tablet_of(number: u64) -> Ident
    requires some { 1 ≤ number }
    requires below { number < 2 ^ 48 }
    ensures exact { result ≡ next_tablet 0 number }
{
    Ident {
        kind: Kind::Tablet,
        number,
    }
}

impl Tablets {
    /// The tablets of a new table begin, one in each of the slots, in the room that was made. The
    /// codes are shared out among them. `drawn` tablets were drawn before.
    pub fn begin_shares(&mut self, table: Ident, slots: &[u32], drawn: u64, at: HybridTime)
        requires room { length slots.now ≤ self.old.room }
        requires few { length slots.now ≤ 64 }
        requires numbers { drawn + length slots.now < 2 ^ 48 }
        ensures activity { self.new.activity ≡ self.old.activity ++ shares slots.now 0 (length slots.now) at drawn table }
        ensures room { self.new.room ≡ self.old.room - length slots.now }
    {
        let count = slots.len() as u32;
        let mut place = 0u32;
        for slot in slots {
            let tablet = tablet_of(drawn + u64::from(place + 1));
            self.begin(Interval {
                slot: *slot,
                tablet,
                table,
                range: share(place, count),
                from: at,
                to: None,
            });
            place += 1;
        }
    }

    /// The children of a split begin, in the room that was made. `drawn` tablets were drawn before.
    pub fn begin_children(
        &mut self,
        parent: &Interval,
        code: u16,
        low_slot: u32,
        high_slot: u32,
        drawn: u64,
        at: HybridTime,
    )
        requires room { 2 ≤ self.old.room }
        requires above { parent.now.low < code }
        requires below { code < parent.now.high }
        requires numbers { drawn + 2 < 2 ^ 48 }
        ensures activity { self.new.activity ≡ self.old.activity ++ children parent.now code low_slot high_slot at drawn }
        ensures room { self.new.room ≡ self.old.room - 2 }
    {
        let Ok((low, high)) = halves(parent.range, u32::from(code)) else {
            return;
        };
        self.begin_child(parent.table, low_slot, low, drawn + 1, at);
        self.begin_child(parent.table, high_slot, high, drawn + 2, at);
    }

    // One child begins.
    fn begin_child(&mut self, table: Ident, slot: u32, range: Range, number: u64, at: HybridTime)
        requires room { 1 ≤ self.old.room }
        requires some { 1 ≤ number }
        requires below { number < 2 ^ 48 }
        ensures activity { self.new.activity ≡ self.old.activity ++ begins slot (next_tablet 0 number) table range.low range.high at ∷ [] }
        ensures room { self.new.room ≡ self.old.room - 1 }
    {
        self.begin(Interval {
            slot,
            tablet: tablet_of(number),
            table,
            range,
            from: at,
            to: None,
        });
    }
}
