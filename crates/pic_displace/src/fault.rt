//! What ends the making of a displaced start.

use pic_deck::Refusal;
use pic_num::NoMemory;
use std::alloc::AllocError;

/// The E of a displaced start has a force value that is too large, or memory is wanting.
#[derive(Debug, Drop)]
pub enum DisplaceFault {
    Refused(Refusal),
    NoMemory,
}

impl From<NoMemory> for DisplaceFault {
    ghost use Rattle.std.specs.Prelude.{◌≡◌};
    ghost use Rattle.pic_displace.specs.declared.fault.DisplaceFault.TheVariants.{NoMemory};

    ghost from_gives = { λ _ fault. fault ≡ NoMemory };

    fn from(_refused: NoMemory) -> DisplaceFault {
        DisplaceFault::NoMemory
    }
}

impl From<AllocError> for DisplaceFault {
    ghost use Rattle.std.specs.Prelude.{◌≡◌};
    ghost use Rattle.pic_displace.specs.declared.fault.DisplaceFault.TheVariants.{NoMemory};

    ghost from_gives = { λ _ fault. fault ≡ NoMemory };

    fn from(_refused: AllocError) -> DisplaceFault {
        DisplaceFault::NoMemory
    }
}
