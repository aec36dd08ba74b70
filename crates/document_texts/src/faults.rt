// Why the text of a shared cell was not written whole.
ghost use Rattle.std.specs.Prelude.{◌≡◌};
ghost use Rattle.document_texts.specs.Faults.{of_air, of_sink, of_text};
ghost use Rattle.document_texts.specs.declared.faults.ShareFault.TheVariants.{NoMemory as ShareNoMemory};

use air_source::AirFault;
use fh_base::{NoMemory, SinkFault};
use fronthaul_replay::TextFault;
use thiserror::Error;

/// Why the text of a shared cell was not written whole.
#[derive(Clone, Copy, Debug, PartialEq, Eq, Error)]
pub enum ShareFault {
    /// The sink failed. A front part of the text was written.
    #[error("the sink failed")]
    WriteFault,
    /// Memory was refused. A front part of the text was written.
    #[error("no memory")]
    NoMemory,
}

impl From<NoMemory> for ShareFault {
    ghost from_gives = { λ _ fault. fault ≡ ShareNoMemory };

    fn from(_: NoMemory) -> Self {
        ShareFault::NoMemory
    }
}

impl From<AirFault> for ShareFault {
    ghost from_gives = { λ air fault. fault ≡ of_air air };

    fn from(air: AirFault) -> Self {
        match air {
            AirFault::Failed => ShareFault::WriteFault,
            AirFault::NoMemory => ShareFault::NoMemory,
        }
    }
}

impl From<TextFault> for ShareFault {
    ghost from_gives = { λ text fault. fault ≡ of_text text };

    fn from(text: TextFault) -> Self {
        match text {
            TextFault::WriteFault => ShareFault::WriteFault,
            TextFault::NoMemory => ShareFault::NoMemory,
        }
    }
}

impl From<SinkFault> for ShareFault {
    ghost from_gives = { λ sink fault. fault ≡ of_sink sink };

    fn from(sink: SinkFault) -> Self {
        match sink {
            SinkFault::Failed => ShareFault::WriteFault,
            SinkFault::NoMemory => ShareFault::NoMemory,
        }
    }
}
