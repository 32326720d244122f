//! Why a datagram is refused, or nothing is sent.

ghost use Rattle.std.specs.Prelude.{◌≡◌};
ghost use Rattle.link_nodes.specs.Codes.{code_of};

use spd_codec::SpdError;
use thiserror::Error;

/// Why a datagram is refused, or nothing is sent.
#[derive(Clone, Copy, Debug, PartialEq, Eq, Error)]
pub enum NodeError {
    /// D1: the frame is for another image: its connectivity or its fingerprint is another.
    #[error("D1: the frame is for another image")]
    OtherMask,
    /// D2: the bytes are no frame, for this reason: M1 to M7.
    #[error("D2 {0}")]
    Spd(SpdError),
    /// D3: the link failed.
    #[error("D3: the link failed")]
    Device,
    /// D4: out of memory.
    #[error("D4: out of memory")]
    Memory,
}

impl NodeError {
    /// The code, as `D2`, without the reason.
    pub fn code(self) -> &'static str
        ensures { result.now ≡ code_of self }
    {
        match self {
            NodeError::OtherMask => "D1",
            NodeError::Spd(_) => "D2",
            NodeError::Device => "D3",
            NodeError::Memory => "D4",
        }
    }
}
