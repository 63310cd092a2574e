//! What each step on a word tells the seat that makes it.
ghost use Rattle.step_table.specs.Cuts.{cut_left, cut_right, glued};
ghost use Rattle.step_table.specs.Plays.{looked, took, gave, committed};
ghost use Rattle.step_table.specs.Rule.{spent};

use crate::known::Known;
use crate::machine::Machine;
use crate::named::Announced;
use atomic_table::{Join, Play, Split};
use std::marker::PhantomData;

/// A load of the number of the last entry.
pub(crate) struct Look<M> {
    of: PhantomData<M>,
}

impl<M: Machine> Play<Option<M::Part>, Known<M::Part, M::Event, M::Reply>> for Look<M> {
    ghost then = { looked M.core };
}

/// A try of a lock word, for the announced event.
pub(crate) struct Take<M, N> {
    of: PhantomData<(M, N)>,
}

impl<M: Machine, N: Announced<M::Event>> Play<Option<M::Part>, Known<M::Part, M::Event, M::Reply>>
    for Take<M, N> {
    ghost then = { took M.core N.event };
}

/// A lock word that is given back.
pub(crate) struct Give<M> {
    of: PhantomData<M>,
}

impl<M: Machine> Play<Option<M::Part>, Known<M::Part, M::Event, M::Reply>> for Give<M> {
    ghost then = { gave };
}

/// An addition of one to the number of the last entry.
pub(crate) struct Commit<M, N> {
    of: PhantomData<(M, N)>,
}

impl<M: Machine, N: Announced<M::Event>> Play<Option<M::Part>, Known<M::Part, M::Event, M::Reply>>
    for Commit<M, N> {
    ghost then = { committed M.core N.event };
}

/// A view that is cut in two.
pub(crate) struct Cut;

impl<P, E, R> Split<Known<P, E, R>> for Cut {
    ghost left = { cut_left };

    ghost right = { cut_right };
}

/// Two views that become one.
pub(crate) struct Glue;

impl<P, E, R> Join<Known<P, E, R>> for Glue {
    ghost both = { glued };

    ghost spent = { spent };
}
