//! Why a run stops before its input ends.
ghost use Rattle.std.specs.Prelude.{◌≡◌};
ghost use Rattle.block_runs.specs.Underway.{status_at};

use flow_io::{Fault, Status};
use std::alloc::AllocError;

/// Memory ran out, or a write failed.
#[derive(Clone, Copy, Debug, PartialEq, Eq)]
pub enum Stop {
    Memory,
    Fault,
}

impl From<AllocError> for Stop {
    ghost use Rattle.std.specs.Prelude.{◌≡◌};
    ghost use Rattle.block_runs.specs.declared.stop.Stop.TheVariants.{Memory};

    ghost from_gives = { λ _ stop. stop ≡ Memory };

    fn from(_error: AllocError) -> Self {
        Stop::Memory
    }
}

impl From<Fault> for Stop {
    ghost use Rattle.std.specs.Prelude.{◌≡◌};
    ghost use Rattle.block_runs.specs.declared.stop.Stop.TheVariants.{Fault as WriteFault};

    ghost from_gives = { λ _ stop. stop ≡ WriteFault };

    fn from(_fault: Fault) -> Self {
        Stop::Fault
    }
}

impl Stop {
    /// The status of a run that stops so.
    pub fn status(self) -> Status
        ensures memory { self ≡ Stop.Memory → result ≡ Status.Memory }
        ensures fault { self ≡ Stop.Fault → result ≡ Status.Fault }
    {
        match self {
            Stop::Memory => Status::Memory,
            Stop::Fault => Status::Fault,
        }
    }
}

/// The status of a run that ended so.
pub(crate) fn status_at(outcome: Result<Status, Stop>) -> Status
    ensures { result ≡ status_at outcome }
{
    match outcome {
        Ok(status) => status,
        Err(stop) => stop.status(),
    }
}
