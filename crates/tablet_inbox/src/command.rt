ghost use Rattle.std.specs.Prelude.{◌≡◌};
ghost use Rattle.model.specs.Tablets as book;
ghost use Rattle.tablet_inbox.specs.Seen.{body_of, kind_seen};

use crate::body::{Body, BodyKind};
use std::marker::Model;
use yb_ident::Ident;

/// A body for a tablet, from the operation whose record lists it. Contracts see it as the book's.
#[derive(Clone, Copy, Debug, PartialEq, Eq)]
pub struct TabletCommand {
    pub operation: Ident,
    pub tablet: Ident,
    pub body: Body,
}

impl Model for TabletCommand {
    ghost use Rattle.model.specs.Tablets.{Command};
    ghost use Rattle.tablet_inbox.specs.Seen.{body_of, body_from};

    ghost Value = { Command };

    ghost view = { λ c. record { operation = c.operation; tablet = c.tablet; body = body_of c.body } };

    ghost inverse = { λ v. record { operation = v.operation; tablet = v.tablet; body = body_from v.body } };
}

/// A tablet's mark that it did an operation's command of this kind. Contracts see it as the book's.
#[derive(Clone, Copy, Debug, PartialEq, Eq, Hash)]
pub struct Mark {
    pub operation: Ident,
    pub kind: BodyKind,
}

impl Model for Mark {
    ghost use Rattle.model.specs.Tablets.{Mark};
    ghost use Rattle.tablet_inbox.specs.Seen.{kind_seen, kind_from};

    ghost Value = { Mark };

    ghost view = { λ m. record { operation = m.operation; kind = kind_seen m.kind } };

    ghost inverse = { λ v. record { operation = v.operation; kind = kind_from v.kind } };
}

impl TabletCommand {
    /// The mark of the command.
    pub fn mark(&self) -> Mark
        ensures exact { result ≡ record { operation = self.now.operation; kind = book.kind_of self.now.body } }
    {
        Mark {
            operation: self.operation,
            kind: self.body.kind(),
        }
    }
}
