use std::marker::Model;
use yb_ident::Ident;

/// That a command of an operation was sent to the tablet of a slot. Contracts see it as the book's.
#[derive(Clone, Copy, Debug, PartialEq, Eq)]
pub struct Sent {
    pub operation: Ident,
    pub slot: u32,
}

impl Model for Sent {
    ghost use Rattle.model.specs.Records.{Sent};

    ghost Value = { Sent };

    ghost view = { λ s. record { operation = s.operation; slot = s.slot } };

    ghost inverse = { λ v. record { operation = v.operation; slot = v.slot } };
}
