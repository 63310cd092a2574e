use hybrid_time::HybridTime;
use partition_codes::Range;
use tablet_inbox::TabletCommand;
use yb_ident::Ident;

/// What the tablet's part of a slot gets by a command.
#[derive(Clone, Copy)]
pub struct PartChange {
    pub slot: u32,
    pub kind: PartKind,
}

/// What a tablet's part gets by a command.
#[derive(Clone, Copy)]
pub enum PartKind {
    /// A new tablet.
    Make {
        tablet: Ident,
        table: Ident,
        range: Range,
        version: u32,
    },
    /// A tablet with what the part of the slot `parent` has in the range.
    Child {
        parent: u32,
        tablet: Ident,
        table: Ident,
        range: Range,
        version: u32,
    },
    /// Another version of the schema.
    Version {
        version: u32,
    },
    /// Its tablet is hidden.
    Hide {
        ended: HybridTime,
    },
    /// A command goes into its inbox.
    Offer {
        command: TabletCommand,
    },
    /// Its tablet goes.
    Clear,
    /// Its frozen sets of a snapshot go.
    DropFrozen {
        snapshot: Ident,
    },
}
