ghost use Rattle.std.specs.Prelude.{◌≡◌, ◌≤◌, Bool, filter, vec_len};
ghost use Rattle.catalog_core.specs.Codes.{table_code, space_code};
ghost use Rattle.catalog_core.specs.Kept.{table_id, table_space, space_id};

use crate::codes::name_code;
use crate::records::{NamespaceRecord, TableRecord};
use crate::tables::code_in;
use newest_index::Keyed;
use yb_ident::Ident;

/// Which records stay where old ones go.
pub trait Keeps<R> {
    ghost stays: { Self → R → Bool };

    /// Whether a record stays.
    fn stays(&self, item: &R) -> bool
        ensures exact { result ≡ stays self.now item.now };
}

// The records that don't stay go.
pub fn retain<R: Drop, T: Keeps<R>>(records: &mut Vec<R>, test: &T)
    ensures items { records.new.items ≡ filter (λ r. T.stays test.now r) records.old.items }
    ensures fewer { vec_len records.new ≤ vec_len records.old }
{
    records.retain(|item| test.stays(item));
}

// Records are looked up by the number of their name.
#[derive(Drop)]
pub struct ByName;

impl Keyed<TableRecord, u64> for ByName {
    ghost key = { λ _ r. table_code r };

    fn key(&self, item: &TableRecord) -> u64 {
        code_in(&item.namespace, &item.name)
    }
}

impl Keyed<NamespaceRecord, u64> for ByName {
    ghost key = { λ _ r. space_code r };

    fn key(&self, item: &NamespaceRecord) -> u64 {
        name_code(0, &item.name)
    }
}

// And by their identifier.
#[derive(Drop)]
pub struct ById;

impl Keyed<TableRecord, Ident> for ById {
    ghost key = { λ _ r. table_id r };

    fn key(&self, item: &TableRecord) -> Ident {
        item.id
    }
}

impl Keyed<NamespaceRecord, Ident> for ById {
    ghost key = { λ _ r. space_id r };

    fn key(&self, item: &NamespaceRecord) -> Ident {
        item.id
    }
}

// Tables by their namespace.
#[derive(Drop)]
pub struct BySpace;

impl Keyed<TableRecord, Ident> for BySpace {
    ghost key = { λ _ r. table_space r };

    fn key(&self, item: &TableRecord) -> Ident {
        item.namespace
    }
}
