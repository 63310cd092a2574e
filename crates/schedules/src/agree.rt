ghost use Rattle.std.specs.Prelude.{◌≡◌};
ghost use Rattle.std.specs.Cmp.{IsEquivalence};
ghost use Rattle.row_values.specs.Ids.{Id, same};

use yb_ident::Ident;

// The comparison of identifiers is the book's.
pub fn keys_agree()
    ensures same { (a b : Id) → ⟦<Ident as PartialEq>⟧.eq a b ≡ same a b }
    ensures laws { IsEquivalence ⟦<Ident as PartialEq>⟧.eq }
{}
