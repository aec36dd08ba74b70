// Of what a sum is.
ghost use Rattle.std.specs.Prelude.{◌≡◌, ◌<◌};
ghost use Rattle.explain_model.specs.Same.{place_of};
ghost use Rattle.why_lines.specs.Words.{place_in_sums, told_words};

use explain_model::ReasonWord;

/// Of what a sum is: of cells that are shown, of cells that are missing for a reason, or of PRBs that are silent for one.
#[derive(Clone, Copy)]
pub(crate) enum SumWord {
    Shown,
    Missing(ReasonWord),
    Silent(ReasonWord),
}

/// The place of a reason's word among all.
fn word_place(word: ReasonWord) -> usize
    ensures place { result ≡ place_of word }
    ensures below { result < 16 }
{
    word as usize
}

impl SumWord {
    /// Its place among all.
    pub(crate) fn place(self) -> usize
        ensures place { result ≡ place_in_sums self }
        ensures below { result < 33 }
    {
        match self {
            SumWord::Shown => 0,
            SumWord::Missing(word) => 1 + word_place(word),
            SumWord::Silent(word) => 17 + word_place(word),
        }
    }

    /// Those that have a line, in the order of their lines.
    pub(crate) fn told() -> [SumWord; 25]
        ensures { result ≡ told_words }
    {
        [
            SumWord::Shown,
            SumWord::Missing(ReasonWord::Other),
            SumWord::Missing(ReasonWord::Late),
            SumWord::Missing(ReasonWord::Early),
            SumWord::Missing(ReasonWord::Refused),
            SumWord::Missing(ReasonWord::WrongWay),
            SumWord::Missing(ReasonWord::Repeated),
            SumWord::Missing(ReasonWord::Unfinished),
            SumWord::Missing(ReasonWord::CommandMismatch),
            SumWord::Missing(ReasonWord::CommandLate),
            SumWord::Missing(ReasonWord::CommandEarly),
            SumWord::Missing(ReasonWord::CommandRange),
            SumWord::Missing(ReasonWord::CommandRepeat),
            SumWord::Missing(ReasonWord::CommandOverlap),
            SumWord::Missing(ReasonWord::CommandFull),
            SumWord::Missing(ReasonWord::NoData),
            SumWord::Missing(ReasonWord::NoCommand),
            SumWord::Silent(ReasonWord::CommandMismatch),
            SumWord::Silent(ReasonWord::CommandLate),
            SumWord::Silent(ReasonWord::CommandEarly),
            SumWord::Silent(ReasonWord::CommandRange),
            SumWord::Silent(ReasonWord::CommandRepeat),
            SumWord::Silent(ReasonWord::CommandOverlap),
            SumWord::Silent(ReasonWord::CommandFull),
            SumWord::Silent(ReasonWord::NoCommand),
        ]
    }
}
