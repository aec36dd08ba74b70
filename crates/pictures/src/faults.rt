// Why nothing was drawn, or not all.
ghost use Rattle.std.specs.Prelude.{◌≡◌};
ghost use Rattle.pictures.specs.Refusals.{of_refusal, of_sink, why_name};
ghost use Rattle.pictures.specs.declared.faults.DrawFault.TheVariants.{NoMemory as DrawNoMemory};

use fh_base::{NoMemory, SinkFault};
use thiserror::Error;

/// Why a line of a text is refused, or its end.
#[derive(Clone, Copy, Debug, PartialEq, Eq, Error)]
pub enum TextWhy {
    /// A byte of the line is not printable ASCII.
    #[error("NotText")]
    NotText,
    /// It is line 1, and not the head of the text.
    #[error("Head")]
    Head,
    /// The end of the text is before it, or is missing.
    #[error("End")]
    End,
    /// It has not the form or the place of its kind.
    #[error("Line")]
    Line,
}

impl TextWhy {
    /// Its name.
    pub fn name(self) -> &'static str
        ensures { result.now ≡ why_name self }
    {
        match self {
            TextWhy::NotText => "NotText",
            TextWhy::Head => "Head",
            TextWhy::End => "End",
            TextWhy::Line => "Line",
        }
    }
}

/// The line at which a text is refused, which counts from 1, and why.
#[derive(Clone, Copy, Debug, PartialEq, Eq, Error)]
#[error("line {line}: {why}")]
pub struct TextRefusal {
    pub line: usize,
    pub why: TextWhy,
}

/// Why a picture was not written whole.
#[derive(Clone, Copy, Debug, PartialEq, Eq, Error)]
pub enum DrawFault {
    /// The text is refused at a line, which counts from 1. Nothing was written.
    #[error("line {line}: {why}")]
    Refused { line: usize, why: TextWhy },
    /// The sink failed. A part of the picture was written.
    #[error("the sink failed")]
    WriteFault,
    /// Memory was refused. A part of the picture was written, or nothing.
    #[error("no memory")]
    NoMemory,
}

impl From<TextRefusal> for DrawFault {
    ghost from_gives = { λ refusal fault. fault ≡ of_refusal refusal };

    fn from(refusal: TextRefusal) -> Self {
        DrawFault::Refused {
            line: refusal.line,
            why: refusal.why,
        }
    }
}

impl From<SinkFault> for DrawFault {
    ghost from_gives = { λ sink fault. fault ≡ of_sink sink };

    fn from(sink: SinkFault) -> Self {
        match sink {
            SinkFault::Failed => DrawFault::WriteFault,
            SinkFault::NoMemory => DrawFault::NoMemory,
        }
    }
}

impl From<NoMemory> for DrawFault {
    ghost from_gives = { λ _ fault. fault ≡ DrawNoMemory };

    fn from(_: NoMemory) -> Self {
        DrawFault::NoMemory
    }
}
