ghost use Rattle.std.specs.Prelude.{◌≡◌, true};
ghost use Rattle.std.specs.Cmp.{IsEquivalence};
ghost use Rattle.row_values.specs.Ids.{Id, same};

use yb_ident::Ident;

/// The comparison of identifiers is the book's.
pub fn keys_agree()
    ensures idents { (a b : Id) → ⟦<Ident as PartialEq>⟧.eq a b ≡ same a b }
    ensures laws { IsEquivalence ⟦<Ident as PartialEq>⟧.eq }
    ensures equal { (a b : Id) → same a b ≡ true → a ≡ b }
{}
