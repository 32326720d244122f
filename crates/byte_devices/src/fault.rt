//! What may go wrong with devices and with transfers.
ghost use Rattle.std.specs.Prelude.{◌≡◌};
ghost use Rattle.byte_devices.specs.declared.fault.TransferError.TheVariants as errors;

use std::alloc::{AllocError, AllocFailed};
use thiserror::Error;

/// A device failed in this call.
#[derive(Clone, Copy, Debug, PartialEq, Eq, Error)]
#[error("the device failed")]
pub struct Fault;

/// Why the bytes of a device could not be carried over.
#[derive(Clone, Copy, Debug, PartialEq, Eq, Error)]
pub enum TransferError {
    /// Out of memory.
    #[error("out of memory")]
    Memory,
    /// A device failed, or a source did not end in time.
    #[error("a device failed")]
    Device,
}

impl From<AllocError> for TransferError {
    ghost from_gives = { λ _ e. e ≡ errors.Memory };

    fn from(_e: AllocError) -> TransferError {
        TransferError::Memory
    }
}

impl<T: Drop> From<AllocFailed<T>> for TransferError {
    ghost from_gives = { λ _ e. e ≡ errors.Memory };

    fn from(_e: AllocFailed<T>) -> TransferError {
        TransferError::Memory
    }
}

impl From<Fault> for TransferError {
    ghost from_gives = { λ _ e. e ≡ errors.Device };

    fn from(_fault: Fault) -> TransferError {
        TransferError::Device
    }
}
