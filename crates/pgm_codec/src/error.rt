//! What may go wrong with images and their files.
ghost use Rattle.std.specs.Prelude.{◌≡◌};
ghost use Rattle.pgm_codec.specs.declared.error.PgmError.TheVariants as errors;
ghost use Rattle.byte_devices.specs.declared.fault.TransferError.TheVariants as transfers;
ghost use Rattle.pgm_codec.specs.Code.{code_of};

use byte_devices::{Fault, TransferError};
use std::alloc::{AllocError, AllocFailed};
use thiserror::Error;

/// Why an image could not be read, written or made. Of a text the first fault from the left is answered.
#[derive(Clone, Copy, Debug, PartialEq, Eq, Error)]
pub enum PgmError {
    /// P1: the text does not begin with a magic that is read.
    #[error("P1: not a PGM file")]
    BadMagic,
    /// P2: a byte of the header fits none of the parts in its place.
    #[error("P2: bad header")]
    BadHeader,
    /// P3: a side is 0.
    #[error("P3: a side is 0")]
    ZeroSize,
    /// P4: a side is above [`grid_core::MAX_SIDE`], or there are more than [`grid_core::MAX_PIXELS`] pixels.
    #[error("P4: the image is too large")]
    TooLarge,
    /// P5: maxval is 0 or above 65535.
    #[error("P5: maxval is 0 or above 65535")]
    BadMaxval,
    /// P6: the text ends too early.
    #[error("P6: truncated")]
    Truncated,
    /// P7: a sample is above maxval.
    #[error("P7: a sample is above maxval")]
    SampleRange,
    /// P8: a byte of the raster is no part of a sample.
    #[error("P8: bad sample")]
    BadSample,
    /// P9: something follows the last sample.
    #[error("P9: more after the last sample")]
    Trailing,
    /// P10: out of memory.
    #[error("P10: out of memory")]
    Memory,
    /// P11: a device failed, or a source did not end in time.
    #[error("P11: a device failed")]
    Device,
}

impl PgmError {
    /// The code, as `P6`.
    pub fn code(self) -> &'static str
        ensures { result.now ≡ code_of self }
    {
        match self {
            PgmError::BadMagic => "P1",
            PgmError::BadHeader => "P2",
            PgmError::ZeroSize => "P3",
            PgmError::TooLarge => "P4",
            PgmError::BadMaxval => "P5",
            PgmError::Truncated => "P6",
            PgmError::SampleRange => "P7",
            PgmError::BadSample => "P8",
            PgmError::Trailing => "P9",
            PgmError::Memory => "P10",
            PgmError::Device => "P11",
        }
    }
}

impl From<AllocError> for PgmError {
    ghost from_gives = { λ _ e. e ≡ errors.Memory };

    fn from(_e: AllocError) -> PgmError {
        PgmError::Memory
    }
}

impl<T: Drop> From<AllocFailed<T>> for PgmError {
    ghost from_gives = { λ _ e. e ≡ errors.Memory };

    fn from(_e: AllocFailed<T>) -> PgmError {
        PgmError::Memory
    }
}

impl From<grid_core::Memory> for PgmError {
    ghost from_gives = { λ _ e. e ≡ errors.Memory };

    fn from(_e: grid_core::Memory) -> PgmError {
        PgmError::Memory
    }
}

impl From<Fault> for PgmError {
    ghost from_gives = { λ _ e. e ≡ errors.Device };

    fn from(_fault: Fault) -> PgmError {
        PgmError::Device
    }
}

impl From<TransferError> for PgmError {
    ghost from_gives = { λ t e. (t ≡ transfers.Memory → e ≡ errors.Memory)
        × (t ≡ transfers.Device → e ≡ errors.Device) };

    fn from(e: TransferError) -> PgmError {
        match e {
            TransferError::Memory => PgmError::Memory,
            TransferError::Device => PgmError::Device,
        }
    }
}
