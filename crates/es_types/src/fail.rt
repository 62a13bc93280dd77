//! Why a call fails: for a reason of its own, or since memory ran out.
ghost use Rattle.std.specs.Prelude.{◌≡◌};
ghost use Rattle.es_types.specs.declared.fail.Fail.TheVariants.{NoMemory};

pub use std::alloc::AllocError as NoMemory;
use std::alloc::AllocFailed;

/// Why a call failed: for a reason of its own, or since memory ran out.
#[derive(Drop)]
pub enum Fail<E> {
    Is(E),
    NoMemory,
}

impl<E> From<NoMemory> for Fail<E> {
    ghost from_gives = { λ _ fail. fail ≡ NoMemory };

    fn from(_refused: NoMemory) -> Fail<E> {
        Fail::NoMemory
    }
}

impl<T: Drop, E> From<AllocFailed<T>> for Fail<E> {
    ghost from_gives = { λ _ fail. fail ≡ NoMemory };

    fn from(_refused: AllocFailed<T>) -> Fail<E> {
        Fail::NoMemory
    }
}
