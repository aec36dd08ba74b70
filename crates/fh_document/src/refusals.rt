// Why a document is refused.
ghost use Rattle.std.specs.Prelude.{◌≡◌, ◌≤◌, length};
ghost use Rattle.fh_document.specs.Refusals.{name_of};

use thiserror::Error;

/// Why a line of a document is refused.
#[derive(Clone, Copy, Debug, PartialEq, Eq, Error)]
pub enum DocWhy {
    /// A byte is not one of printable ASCII (20 to 7e in hexadecimal).
    #[error("NotText")]
    NotText,
    /// Line 1 is missing, or its words are none of `fronthaul 1`, `fronthaul 2` and `fronthaul 3`.
    #[error("FirstLine")]
    FirstLine,
    /// The first word is no keyword, or the second word of `transit` names none.
    #[error("UnknownWord")]
    UnknownWord,
    /// The line is of an earlier kind than one before it.
    #[error("Order")]
    Order,
    /// The configuration keyword, the endpoint's id, the frame of a deliver line, or the measurement's id is in an earlier line.
    #[error("Twice")]
    Twice,
    /// The number of words is wrong.
    #[error("Words")]
    Words,
    /// A word has not its form, or is out of its range.
    #[error("Number")]
    Number,
    /// The widths of an eAxC id do not sum to 16.
    #[error("WidthSum")]
    WidthSum,
    /// A minimum exceeds its maximum.
    #[error("MinMax")]
    MinMax,
    /// Sixteen endpoints, or 65,536 lines of a plan, are there already.
    #[error("TooMany")]
    TooMany,
}

/// Why a document is not read.
#[derive(Clone, Copy, Debug, PartialEq, Eq, Error)]
pub enum DocFault {
    /// The first line that is refused, counted from 1, and the first reason for it.
    #[error("line {line}: {why}")]
    At { line: usize, why: DocWhy },
    /// Memory ran out.
    #[error("no memory")]
    NoMemory,
}

/// Why a line is not read.
#[derive(Clone, Copy)]
pub(crate) enum LineFault {
    Why(DocWhy),
    NoMemory,
}

impl DocWhy {
    /// The name under which the reason is printed: its own.
    pub fn name(self) -> &'static str
        ensures name { result.now ≡ name_of self }
        ensures short { length result.now ≤ 11 }
    {
        match self {
            DocWhy::NotText => "NotText",
            DocWhy::FirstLine => "FirstLine",
            DocWhy::UnknownWord => "UnknownWord",
            DocWhy::Order => "Order",
            DocWhy::Twice => "Twice",
            DocWhy::Words => "Words",
            DocWhy::Number => "Number",
            DocWhy::WidthSum => "WidthSum",
            DocWhy::MinMax => "MinMax",
            DocWhy::TooMany => "TooMany",
        }
    }
}
