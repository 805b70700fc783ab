ghost use Rattle.std.specs.Prelude.{◌≡◌, alloc_error};
ghost use Rattle.script.specs.declared.stop.Stop.TheVariants.{OutOfMemory, Refused};
ghost use Rattle.script.specs.Stops.{settled, unread};

use crate::answer::Answer;
use edges::Fault;
use notation::ListError;
use std::alloc::{AllocError, AllocFailed};

// Why a command is not carried out.
#[derive(Clone, Copy)]
pub(crate) enum Stop {
    NotUnderstood,
    RoomTooLarge,
    Refused(Fault),
    OutOfMemory(AllocError),
}

impl From<AllocError> for Stop {
    ghost from_gives = { λ given stop. stop ≡ OutOfMemory given };

    fn from(error: AllocError) -> Stop {
        Stop::OutOfMemory(error)
    }
}

impl<T: Drop> From<AllocFailed<T>> for Stop {
    ghost from_gives = { λ _ stop. stop ≡ OutOfMemory alloc_error };

    fn from(failed: AllocFailed<T>) -> Stop {
        Stop::OutOfMemory(failed.into())
    }
}

impl From<Fault> for Stop {
    ghost from_gives = { λ fault stop. stop ≡ Refused fault };

    fn from(fault: Fault) -> Stop {
        Stop::Refused(fault)
    }
}

impl From<ListError> for Stop {
    ghost from_gives = { λ error stop. stop ≡ unread error };

    fn from(error: ListError) -> Stop {
        match error {
            ListError::NotAList => Stop::NotUnderstood,
            ListError::OutOfMemory(error) => Stop::OutOfMemory(error),
        }
    }
}

// What a line is answered: why it stopped too, but for want of memory.
pub(crate) fn settled(answer: Result<Answer, Stop>) -> Result<Answer, AllocError>
    ensures { result ≡ settled answer }
{
    match answer {
        Ok(answer) => Ok(answer),
        Err(Stop::NotUnderstood) => Ok(Answer::NotUnderstood),
        Err(Stop::RoomTooLarge) => Ok(Answer::RoomTooLarge),
        Err(Stop::Refused(fault)) => Ok(Answer::Refused(fault)),
        Err(Stop::OutOfMemory(error)) => Err(error),
    }
}
