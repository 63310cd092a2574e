//! Two flags at which a `prepare` waits for a test, and a third for a wait that was too long.
use std::sync::atomic::{AtomicBool, Ordering};
use std::thread;

/// Flags that a part shares with a test. They are no part of what the part means.
#[derive(Drop)]
pub struct Gate {
    pub reached: AtomicBool,
    pub opened: AtomicBool,
    pub given_up: AtomicBool,
}

impl Gate {
    /// No flag is raised.
    pub(crate) const fn new() -> Gate {
        Gate {
            reached: AtomicBool::new(false),
            opened: AtomicBool::new(false),
            given_up: AtomicBool::new(false),
        }
    }

    /// Raises the first flag, and counts up to 1,000,000 turns until the second is raised. The third
    /// is raised where they run out.
    pub(crate) fn pass(&self) {
        self.reached.store(true, Ordering::SeqCst);
        for _turn in 0..1_000_000 {
            if self.opened.load(Ordering::SeqCst) {
                return;
            }
            thread::yield_now();
        }
        self.given_up.store(true, Ordering::SeqCst);
    }

    /// Counts up to 1,000,000 turns until the first flag is raised, and says whether it was.
    pub(crate) fn is_reached(&self) -> bool {
        for _turn in 0..1_000_000 {
            if self.reached.load(Ordering::SeqCst) {
                return true;
            }
            thread::yield_now();
        }
        false
    }

    /// Raises the second flag.
    pub(crate) fn open(&self) {
        self.opened.store(true, Ordering::SeqCst);
    }

    /// Says whether the third flag is raised.
    pub(crate) fn is_given_up(&self) -> bool {
        self.given_up.load(Ordering::SeqCst)
    }
}
