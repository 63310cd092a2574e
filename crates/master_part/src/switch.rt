use catalog_core::TableRecord;
use catalog_tablets::Interval;
use row_values::Records;
use tablet_inbox::Listed;

/// What the switch of a restoration brings back: the tables of the restored time as they go on from the point, the
/// tablets that were active at that time, and what each concerned tablet is to do.
#[derive(Drop)]
pub struct Switch {
    pub tables: Records<TableRecord>,
    pub active: Records<Interval>,
    pub listed: Records<Listed>,
}
