ghost use Rattle.notation.specs.declared.error.ListError.TheVariants.{OutOfMemory};
ghost use Rattle.std.specs.Prelude.{◌≡◌, alloc_error};

use std::alloc::{AllocError, AllocFailed};

// Why a text gives no list.
#[derive(Clone, Copy, PartialEq, Eq, Debug)]
pub enum ListError {
    NotAList,
    OutOfMemory(AllocError),
}

impl From<AllocError> for ListError {
    ghost from_gives = { λ given error. error ≡ OutOfMemory given };

    fn from(error: AllocError) -> ListError {
        ListError::OutOfMemory(error)
    }
}

impl<T: Drop> From<AllocFailed<T>> for ListError {
    ghost from_gives = { λ _ error. error ≡ OutOfMemory alloc_error };

    fn from(failed: AllocFailed<T>) -> ListError {
        ListError::OutOfMemory(failed.into())
    }
}
