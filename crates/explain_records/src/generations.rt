// What is kept of the last generation of a sequence id.
ghost use Rattle.std.specs.Prelude.{◌≡◌};
ghost use Rattle.ecpri_fragments.specs.Generations.{is_within};
ghost use Rattle.explain_records.specs.Turns.{found, fresh};

use crate::told::FirstBytes;
use fh_base::Ticks;

/// The last generation of a sequence id.
#[derive(Clone, Copy)]
pub(crate) struct LastGeneration {
    /// When it began.
    pub(crate) start: Ticks,
    /// How its fragment of subsequence 0 begins, where that is stored.
    pub(crate) first: Option<FirstBytes>,
    /// The place of its beginning, where that fragment tells of a symbol.
    pub(crate) place: Option<usize>,
    /// How many fragments are stored in it.
    pub(crate) pieces: u8,
}

/// Whether a time is no later than the last tick of the generation that began at `start`.
fn is_within(hold: Ticks, start: Ticks, at: Ticks) -> bool
    ensures { result ≡ is_within hold.0 start.0 at.0 }
{
    i128::from(at.0) <= i128::from(start.0) + i128::from(hold.0)
}

/// A generation that begins.
fn fresh(at: Ticks) -> LastGeneration
    ensures { result ≡ fresh at }
{
    LastGeneration {
        start: at,
        first: None,
        place: None,
        pieces: 0,
    }
}

/// The generation that a fragment falls in, as it is when the fragment is received.
pub(crate) fn found(hold: Ticks, at: Ticks, last: Option<LastGeneration>) -> LastGeneration
    ensures { result ≡ found hold.0 at last }
{
    match last {
        Some(last) => {
            if is_within(hold, last.start, at) {
                last
            } else {
                fresh(at)
            }
        }
        None => fresh(at),
    }
}
