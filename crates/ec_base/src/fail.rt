//! Want of memory, alone and beside a refusal.
ghost use Rattle.ec_base.specs.declared.fail.Fail.TheVariants.{Memory};
ghost use Rattle.std.specs.Prelude.{◌≡◌};

use std::alloc::{AllocError, AllocFailed};
use std::fmt::Display;
use thiserror::Error;

/// Want of memory.
#[derive(Clone, Copy, Debug, PartialEq, Eq, Error)]
#[error("no memory")]
pub struct NoMemory;

/// Want of memory, or a refusal.
#[derive(Debug, Drop, Error)]
#[error_bound(R: Display)]
pub enum Fail<R> {
    /// Memory was wanted.
    #[error("no memory")]
    Memory,
    /// What the call refuses, and why.
    #[error("{0}")]
    Refused(R),
}

impl<R> From<NoMemory> for Fail<R> {
    ghost from_gives = { λ _ e. e ≡ Memory };

    fn from(_e: NoMemory) -> Fail<R> {
        Fail::Memory
    }
}

impl<R> From<AllocError> for Fail<R> {
    ghost from_gives = { λ _ e. e ≡ Memory };

    fn from(_e: AllocError) -> Fail<R> {
        Fail::Memory
    }
}

impl<T: Drop, R> From<AllocFailed<T>> for Fail<R> {
    ghost from_gives = { λ _ e. e ≡ Memory };

    fn from(_e: AllocFailed<T>) -> Fail<R> {
        Fail::Memory
    }
}

impl From<AllocError> for NoMemory {
    fn from(_e: AllocError) -> NoMemory {
        NoMemory
    }
}

impl<T: Drop> From<AllocFailed<T>> for NoMemory {
    fn from(_e: AllocFailed<T>) -> NoMemory {
        NoMemory
    }
}
