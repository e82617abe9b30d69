//! The limit: spending from it, and the walk's stop at its end.
ghost use Rattle.std.specs.Prelude.{◌≡◌, ◌+◌, ◌<◌, IfOk, IfErr};
ghost use Rattle.judged_work.specs.declared.stop.Stop.TheVariants.{Limit};

use std::alloc::AllocError;

/// Why the walk stopped.
#[derive(Drop)]
pub(crate) enum Stop {
    /// The work is more than the limit.
    Limit,
    /// There was no memory.
    Memory(AllocError),
}

impl From<AllocError> for Stop {
    ghost use Rattle.std.specs.Prelude.{◌≡◌};
    ghost use Rattle.judged_work.specs.declared.stop.Stop.TheVariants.{Memory};

    ghost from_gives = { λ refused e. e ≡ Memory refused };

    fn from(refused: AllocError) -> Stop {
        Stop::Memory(refused)
    }
}

/// What is left once this much is done.
pub(crate) fn spend(work: usize, left: usize) -> Result<usize, Stop>
    ensures rest { IfOk result (λ rest. rest + work ≡ left) }
    ensures more { IfErr result (λ e. e ≡ Limit → left < work) }
{
    if left < work {
        Err(Stop::Limit)
    } else {
        Ok(left - work)
    }
}
