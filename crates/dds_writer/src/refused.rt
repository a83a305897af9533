//! Why a write is refused.
use std::alloc::AllocError;
use thiserror::Error;

/// Why a write is refused, in the order in which it is tested. A refused write changes nothing.
#[derive(Clone, Copy, Debug, PartialEq, Eq, Error)]
pub enum WriteRefused {
    /// 1: 2^63 - 1 samples are written, and no number is left (DDSI-RTPS 2.5, clause 8.3.5.4).
    #[error("no sequence number is left")]
    SequenceEnd,
    /// 2: the key is new while max_instances keys are written (OMG DDS 1.4, clause 2.2.3.19).
    #[error("max_instances keys are written")]
    InstanceLimit,
    /// 3: max_samples samples are kept (OMG DDS 1.4, clause 2.2.3.19).
    #[error("max_samples samples are kept")]
    Full,
    /// 4: max_samples_per_instance samples of the key are kept (OMG DDS 1.4, clause 2.2.3.19).
    #[error("max_samples_per_instance samples of the key are kept")]
    InstanceFull,
    /// 5: memory ran out.
    #[error("out of memory")]
    NoMemory,
}

impl From<AllocError> for WriteRefused {
    ghost use Rattle.dds_writer.specs.declared.refused.WriteRefused.TheVariants.{NoMemory};
    ghost use Rattle.std.specs.Prelude.{◌≡◌};

    ghost from_gives = { λ _ r. r ≡ NoMemory };

    fn from(_error: AllocError) -> WriteRefused {
        WriteRefused::NoMemory
    }
}
