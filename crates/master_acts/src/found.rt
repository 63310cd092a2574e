//! What commands and looks name: a namespace, or a table. None of these calls takes memory.
ghost use Rattle.std.specs.Prelude.{◌≡◌};
ghost use Rattle.model.specs.Looks as book;
ghost use Rattle.master_part.specs.Answers.{answer, answer_at};

use catalog_core::TableRecord;
use cluster_events::Refusal;
use master_part::MasterPart;
use row_values::Name;
use yb_ident::Ident;

/// The namespace of a name.
pub fn found_namespace(master: &MasterPart, name: &Name) -> Result<Ident, Refusal>
    ensures exact { answer result ≡ book.found_namespace master.now.master name.now }
{
    match master.catalog().namespace_named(name) {
        Some(namespace) => Ok(namespace),
        None => Err(Refusal::UnknownNamespace),
    }
}

/// The current table of a name in the namespace of a name.
pub fn found_table<'a>(
    master: &'a MasterPart,
    namespace: &Name,
    table: &Name,
) -> Result<&'a TableRecord, Refusal>
    ensures exact { answer_at result ≡ book.found_table master.now.master namespace.now table.now }
{
    let Some(namespace) = master.catalog().namespace_named(namespace) else {
        return Err(Refusal::UnknownNamespace);
    };
    match master.catalog().current_named(&namespace, table) {
        Some(found) => Ok(found),
        None => Err(Refusal::UnknownTable),
    }
}
