//! How many identifiers were drawn, and the next of a clone.
ghost use Rattle.std.specs.Prelude.{◌≡◌, ◌<◌, ◌+◌};
ghost use Rattle.row_values.specs.Ids.{id_bound};
ghost use Rattle.model.specs.Changed.{next_clone};

use crate::drawn::Drawn;
use crate::part::MasterPart;
use yb_ident::{Ident, Kind};

impl MasterPart {
    /// How many identifiers of each kind were ever drawn.
    pub fn drawn(&self) -> Drawn
        ensures drawn { result ≡ self.now.master.drawn }
    {
        self.drawn
    }

    /// The identifier that the next clone gets.
    pub fn next_clone(&self) -> Ident
        requires few { self.now.master.drawn.clones + 1 < id_bound }
        ensures exact { result ≡ next_clone self.now.master }
    {
        Ident {
            kind: Kind::Clone,
            number: self.drawn.clones + 1,
        }
    }
}
