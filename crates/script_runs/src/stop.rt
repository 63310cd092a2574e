use cluster_core::StepRefused;
use row_values::NoMemory;

/// Why a command is not done to its end.
#[derive(Clone, Copy, Debug, PartialEq, Eq)]
pub enum Stop {
    NoMemory,
    /// An event would be stamped at the end of time, or the log that would keep it is full.
    Full,
}

impl From<NoMemory> for Stop {
    ghost use Rattle.std.specs.Prelude.{◌≡◌};
    ghost use Rattle.script_runs.specs.declared.stop.Stop.TheVariants as stop;

    ghost from_gives = { λ _ why. why ≡ stop.NoMemory };

    fn from(_refused: NoMemory) -> Stop {
        Stop::NoMemory
    }
}

impl From<StepRefused> for Stop {
    ghost use Rattle.std.specs.Prelude.{◌≡◌};
    ghost use Rattle.script_runs.specs.Stops.{stop_of};

    ghost from_gives = { λ refused why. why ≡ stop_of refused };

    fn from(refused: StepRefused) -> Stop {
        match refused {
            StepRefused::NoMemory => Stop::NoMemory,
            StepRefused::ClockEnd => Stop::Full,
            StepRefused::EventsFull { slot: _ } => Stop::Full,
        }
    }
}
