//! One event, over the places of all parts.
ghost use Rattle.std.specs.Prelude.{◌≡◌, ◌<◌, ◌^◌, map, length, Some, IfOk, IfErr, OnErr};
ghost use Rattle.step_table.specs.Machines.{logged};
ghost use Rattle.step_line.specs.Places.{found, means};
ghost use Rattle.step_line.specs.Lines.{Stepped, Declined, Holds};

use crate::places::{give_back, take_out};
use std::alloc::Global;
use step_table::{Held, Machine};

/// Performs an event on the parts in these places.
pub(crate) fn perform_in<M: Machine>(
    alloc: Global,
    places: &mut Vec<Option<M::Part>>,
    last: u64,
    event: M::Event,
) -> Result<M::Reply, M::Refused>
    requires whole { places.old.items ≡ map Some (found places.old.items) }
    requires holds { Holds M.core (means M.core.meaning places.old.items) }
    requires last { last ≡ logged M.core (means M.core.meaning places.old.items) }
    requires event { M.core.May (length (means M.core.meaning places.old.items)) event }
    ensures whole { places.new.items ≡ map Some (found places.new.items) }
    ensures ok { IfOk result (λ reply. Stepped M.core event reply (means M.core.meaning places.old.items) (means M.core.meaning places.new.items)) }
    ensures err { IfErr result (λ refused. Declined M.core event refused (means M.core.meaning places.old.items)) }
    ensures kept { OnErr result (means M.core.meaning places.new.items ≡ means M.core.meaning places.old.items) }
{
    let Ok(slots) = M::touches(alloc, &event) else {
        return Err(M::no_memory());
    };
    let Ok(mut items) = Vec::with_capacity(alloc, slots.as_slice().len()) else {
        return Err(M::no_memory());
    };
    take_out(places, slots.as_slice(), &mut items);
    let mut held = Held::of(items);
    match M::prepare(&mut held, &event) {
        Err(refused) => {
            give_back(places, held.into_items());
            Err(refused)
        }
        Ok(ready) => {
            let reply = M::apply(&mut held, ready, event, last + 1);
            give_back(places, held.into_items());
            Ok(reply)
        }
    }
}
