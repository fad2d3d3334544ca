//! Why an act was not carried out.
ghost use Rattle.std.specs.Prelude.{◌≡◌};
ghost use Rattle.st_core.specs.declared.refusal.DriveRefusal.TheVariants.{Device, NoMemory};
ghost use Rattle.st_core.specs.Refusing.{refused};

use st_engine::EngineRefusal;
use std::alloc::AllocError;

/// Why an act was not carried out.
#[derive(Clone, Copy, Debug, PartialEq, Eq)]
pub enum DriveRefusal {
    /// The disk failed, now or before, or a frame is past the limit of a file.
    Device(EngineRefusal),
    /// No memory was left.
    NoMemory,
}

impl From<AllocError> for DriveRefusal {
    ghost from_gives = { λ _ why. why ≡ NoMemory };

    fn from(_error: AllocError) -> DriveRefusal {
        DriveRefusal::NoMemory
    }
}

impl From<EngineRefusal> for DriveRefusal {
    ghost from_gives = { λ refusal why. why ≡ refused refusal };

    fn from(refusal: EngineRefusal) -> DriveRefusal {
        match refusal {
            EngineRefusal::NoMemory => DriveRefusal::NoMemory,
            _ => DriveRefusal::Device(refusal),
        }
    }
}
