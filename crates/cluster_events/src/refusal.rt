use hybrid_time::HybridTime;
use row_values::{Copied, NoMemory, Slots};
use tablet_inbox::Standing;
use yb_ident::Ident;

/// Why an event is refused.
#[derive(Debug, Drop, PartialEq, Eq)]
pub enum Refusal {
    UnknownNamespace,
    UnknownTable,
    UnknownColumn,
    UnknownSchedule,
    UnknownSnapshot,
    WrongKind,
    /// In minutes.
    BadPeriod {
        interval: u64,
        retention: u64,
    },
    NameTaken {
        by: Ident,
    },
    NotEmpty {
        table: Ident,
    },
    UnderSchedule {
        schedule: Ident,
    },
    NoSchedule {
        namespace: Ident,
    },
    TooMany {
        limit: u32,
    },
    SlotsFull {
        free: u32,
        needed: u32,
    },
    /// The asked time is before the window, which begins here.
    TooEarly {
        low: HybridTime,
    },
    /// The asked time is after the event's stamp.
    Future {
        now: HybridTime,
    },
    Busy {
        operation: Ident,
    },
    Fenced {
        operation: Ident,
    },
    /// The slot's part doesn't have what is wanted of it.
    Moved {
        slot: u32,
        standing: Standing,
    },
    StaleSchema {
        kept: u32,
    },
    /// The command would touch these slots now.
    StalePlan {
        kept: Slots,
    },
    /// Two partition codes of a batch that are in different tablets.
    CrossTablet {
        first: u16,
        other: u16,
    },
    TooNarrow {
        low: u32,
    },
    TooOld {
        asked: HybridTime,
        cutoff: HybridTime,
    },
    NotDue {
        next: HybridTime,
    },
    NotPending {
        operation: Ident,
    },
    Idle,
    OtherSlot {
        wanted: u32,
    },
    NotDone,
    Waiting {
        on: Ident,
    },
    InWindow {
        at: HybridTime,
        floor: HybridTime,
    },
    Listed {
        by: Ident,
    },
}

impl Copied for Refusal {
    fn copy(&self) -> Result<Refusal, NoMemory> {
        match self {
            Refusal::UnknownNamespace => Ok(Refusal::UnknownNamespace),
            Refusal::UnknownTable => Ok(Refusal::UnknownTable),
            Refusal::UnknownColumn => Ok(Refusal::UnknownColumn),
            Refusal::UnknownSchedule => Ok(Refusal::UnknownSchedule),
            Refusal::UnknownSnapshot => Ok(Refusal::UnknownSnapshot),
            Refusal::WrongKind => Ok(Refusal::WrongKind),
            Refusal::BadPeriod {
                interval,
                retention,
            } => Ok(Refusal::BadPeriod {
                interval: *interval,
                retention: *retention,
            }),
            Refusal::NameTaken { by } => Ok(Refusal::NameTaken { by: *by }),
            Refusal::NotEmpty { table } => Ok(Refusal::NotEmpty { table: *table }),
            Refusal::UnderSchedule { schedule } => Ok(Refusal::UnderSchedule {
                schedule: *schedule,
            }),
            Refusal::NoSchedule { namespace } => Ok(Refusal::NoSchedule {
                namespace: *namespace,
            }),
            Refusal::TooMany { limit } => Ok(Refusal::TooMany { limit: *limit }),
            Refusal::SlotsFull { free, needed } => Ok(Refusal::SlotsFull {
                free: *free,
                needed: *needed,
            }),
            Refusal::TooEarly { low } => Ok(Refusal::TooEarly { low: *low }),
            Refusal::Future { now } => Ok(Refusal::Future { now: *now }),
            Refusal::Busy { operation } => Ok(Refusal::Busy {
                operation: *operation,
            }),
            Refusal::Fenced { operation } => Ok(Refusal::Fenced {
                operation: *operation,
            }),
            Refusal::Moved { slot, standing } => Ok(Refusal::Moved {
                slot: *slot,
                standing: *standing,
            }),
            Refusal::StaleSchema { kept } => Ok(Refusal::StaleSchema { kept: *kept }),
            Refusal::StalePlan { kept } => Ok(Refusal::StalePlan { kept: kept.copy()? }),
            Refusal::CrossTablet { first, other } => Ok(Refusal::CrossTablet {
                first: *first,
                other: *other,
            }),
            Refusal::TooNarrow { low } => Ok(Refusal::TooNarrow { low: *low }),
            Refusal::TooOld { asked, cutoff } => Ok(Refusal::TooOld {
                asked: *asked,
                cutoff: *cutoff,
            }),
            Refusal::NotDue { next } => Ok(Refusal::NotDue { next: *next }),
            Refusal::NotPending { operation } => Ok(Refusal::NotPending {
                operation: *operation,
            }),
            Refusal::Idle => Ok(Refusal::Idle),
            Refusal::OtherSlot { wanted } => Ok(Refusal::OtherSlot { wanted: *wanted }),
            Refusal::NotDone => Ok(Refusal::NotDone),
            Refusal::Waiting { on } => Ok(Refusal::Waiting { on: *on }),
            Refusal::InWindow { at, floor } => Ok(Refusal::InWindow {
                at: *at,
                floor: *floor,
            }),
            Refusal::Listed { by } => Ok(Refusal::Listed { by: *by }),
        }
    }
}
